//! What each reason asks of a device at a row, by the device's own record and its node.
ghost use Rattle.std.specs.Prelude.{◌≡◌, ◌↔◌, false, IsTrue};
ghost use Rattle.std.specs.Option.{option_copied};
ghost use Rattle.bep_record.specs.Content.{content_of, content_of_kind};
ghost use Rattle.bep_blocks.specs.Plain.{file_blocks};
ghost use Rattle.bep_model.specs.Foreign.{IsHarmless};
ghost use Rattle.bep_model.specs.Settled.{content_of_node};
ghost use Rattle.bep_audit.specs.Share.{AsksRecord, AsksContent, AsksValid, AsksHere, ShareIsAsked};

use bep_blocks::{matches, plain_blocks_match};
use bep_model::Reason;
use bep_record::{Block, Entry, Kind, Node, Record, block_sizes_are_bounded, cut_whole, is_clean};

/// Whether the device meets what the reason asks of it at a row, by its own record and its node alone.
///
/// The reasons on names ask nothing of a device, and those on foreign records nothing of these two.
pub fn meets_share(
    reason: Reason,
    own: Option<&Record>,
    node: Option<&Node>,
    winner: &Record,
) -> bool
    ensures { IsTrue result ↔ AsksHere reason (option_copied own.entry) (option_copied node.entry) winner.now }
{
    match reason {
        Reason::RecordMissing => is_there(own, winner),
        Reason::RecordDiffers => says_as_winner(own, winner),
        Reason::LocalOnly => is_valid(own),
        Reason::StoreDiffers => store_holds(node, winner),
        Reason::StoreUnclean => is_clean(node, own),
        _ => true,
    }
}

/// `meets_share` answers what the model's reasons ask: a law, which does nothing when it runs.
pub fn share_is_asked()
    ensures { ShareIsAsked }
{}

/// Whether the device has a record of the name, or the winner is a deletion.
pub fn is_there(own: Option<&Record>, winner: &Record) -> bool
    ensures { IsTrue result ↔ AsksRecord (option_copied own.entry) winner.now }
{
    own.is_some() || winner.entry().deleted
}

/// Whether the device's own record has the winner's content, or is local-only, or there is none.
pub fn says_as_winner(own: Option<&Record>, winner: &Record) -> bool
    ensures { IsTrue result ↔ AsksContent (option_copied own.entry) winner.now }
{
    match own {
        None => true,
        Some(own) => own.entry().invalid || own.same_content(winner),
    }
}

/// Whether the device's own record isn't local-only, or there is none.
pub fn is_valid(own: Option<&Record>) -> bool
    ensures { IsTrue result ↔ AsksValid (option_copied own.entry) }
{
    match own {
        None => true,
        Some(own) => !own.entry().invalid,
    }
}

/// Whether the store holds the winner's content: for a file, whether the bytes that stand there have the winner's
/// blocks, each with the SHA-256 of its bytes. No record of the device is asked.
pub fn store_holds(node: Option<&Node>, winner: &Record) -> bool
    ensures { IsTrue result ↔ (content_of_node (option_copied node.entry) ≡ content_of winner.now) }
{
    match node {
        None => winner.entry().deleted,
        Some(node) => !winner.entry().deleted && is_made_of(node, winner.entry()),
    }
}

// Whether the node is what the entry tells of, if that isn't deleted.
fn is_made_of(node: &Node, entry: &Entry) -> bool
    ensures { IsTrue result ↔ (
        content_of_kind node.now.kind (file_blocks node.now.bytes) node.now.target
        ≡ content_of_kind entry.now.kind entry.now.blocks entry.now.target) }
{
    let parts = node.parts();
    match (parts.kind, entry.kind) {
        (Kind::File, Kind::File) => has_blocks(node, entry.blocks.as_slice()),
        (Kind::Directory, Kind::Directory) => true,
        (Kind::Symlink, Kind::Symlink) => parts.target == entry.target,
        _ => false,
    }
}

// Whether these are the blocks of the node's bytes.
fn has_blocks(node: &Node, blocks: &[Block]) -> bool
    ensures { IsTrue result ↔ (file_blocks node.now.bytes ≡ blocks.now) }
{
    plain_blocks_match();
    block_sizes_are_bounded();
    let bytes = node.parts().bytes.as_slice();
    cut_whole(blocks, bytes.len() as u64, node.block_size()) && matches(bytes, blocks)
}

/// Whether a foreign record can't change the name at the device: it has the winner's content, or the own record's
/// version is strictly above its version.
pub fn is_harmless(own: Option<&Record>, winner: &Record, foreign: &Record) -> bool
    ensures { IsTrue result ↔ IsHarmless (option_copied own.entry) (content_of winner.now) foreign.now }
{
    match own {
        None => foreign.same_content(winner),
        Some(own) => {
            foreign.same_content(winner) || foreign.entry().version.is_below(&own.entry().version)
        }
    }
}
