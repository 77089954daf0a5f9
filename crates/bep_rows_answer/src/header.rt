//! The header of a stream of rows.
ghost use Rattle.std.specs.Prelude.{◌≡◌, ◌==◌, ◌&&◌, length, not};
ghost use Rattle.std.specs.FinMap.{len};
ghost use Rattle.std.specs.List.{list_any};
ghost use Rattle.bep_document.specs.Reading.{Answers, AnswersBy};
ghost use Rattle.bep_rows_answer.specs.Header.{has_names, reading_of_header, share_has_names};

use bep_cut_document::read_cut;
use bep_document::{DocError, Fault, refused};
use bep_json::DocVersion;
use bep_tables::{Cut, LinkState, PeerView, Share, SharedFolder};
use std::alloc::Global;

/// The version and the cut that the bytes of a header say, as the cut of a check document; or the fault for which it is refused.
/// A header that has names of its own, or messages on their way, is refused as `Shape`. `Memory` may come in place of any answer.
pub fn read_header(alloc: Global, bytes: &[u8]) -> Result<(DocVersion, Cut), DocError>
    ensures { AnswersBy (λ read. (read.0, read.1)) result (reading_of_header bytes.now) }
{
    let (version, header) = read_cut(alloc, bytes)?;
    if has_names(&header) {
        return Err(refused(Fault::Shape));
    }
    Ok((version, header))
}

// Whether the header has names of its own, or messages on their way.
fn has_names(header: &Cut) -> bool
    ensures { result ≡ has_names header.now }
{
    have_folders_names(header.folders()) || have_links_messages(header.links())
}

fn have_folders_names(folders: &[SharedFolder]) -> bool
    ensures { result ≡ list_any (λ shared. list_any share_has_names shared.shares) folders.now }
{
    folders
        .iter()
        .any(|shared| have_shares_names(shared.shares.as_slice()))
}

fn have_shares_names(shares: &[Share]) -> bool
    ensures { result ≡ list_any share_has_names shares.now }
{
    shares.iter().any(|share| share_has_names(share))
}

fn share_has_names(share: &Share) -> bool
    ensures { result ≡ share_has_names share.now }
{
    share.own.len() != 0
        || share.store.len() != 0
        || share.pulls.len() != 0
        || have_views_names(share.views.as_slice())
}

fn have_views_names(views: &[PeerView]) -> bool
    ensures { result ≡ list_any (λ view. not (len view.records == 0)) views.now }
{
    views.iter().any(|view| view.records.len() != 0)
}

fn have_links_messages(links: &[LinkState]) -> bool
    ensures { result ≡ list_any (λ link. not ((length link.to_a == 0) && (length link.to_b == 0))) links.now }
{
    links.iter().any(|link| !is_quiet(link))
}

fn is_quiet(link: &LinkState) -> bool
    ensures { result ≡ ((length link.now.to_a == 0) && (length link.now.to_b == 0)) }
{
    link.to_a.as_slice().is_empty() && link.to_b.as_slice().is_empty()
}
