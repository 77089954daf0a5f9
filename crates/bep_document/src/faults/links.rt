//! Links that can't be.
ghost use Rattle.std.specs.Prelude.{◌≡◌, IfOk};
ghost use Rattle.bep_document.specs.faults.Links.{is_device, is_quiet, is_link_of, bad_link, first_bad_link};

use crate::faults::judge::{Found, Judge, first_fault};
use crate::faults::unshared::has_device;
use crate::{CheckParts, DocFault, Fault, FolderParts, LinkParts};
use bep_record::DeviceId;
use std::alloc::Global;

// Links that can't be between the devices of these folders.
#[derive(Clone, Copy)]
struct BadLinks<'a> {
    folders: &'a [FolderParts],
}

impl<'a> Judge<LinkParts> for BadLinks<'a> {
    ghost fault_at = { λ judge. bad_link judge.folders.now };

    fn fault_at(&self, _alloc: Global, _earlier: &[LinkParts], item: &LinkParts) -> Found {
        if is_link_of(self.folders, item) {
            return Ok(None);
        }
        Ok(Some(DocFault::at_link(Fault::LinkBad, item.a)))
    }
}

/// The first link that can't be, or want of memory.
#[tactic(auto, unfolding(crate::specs::faults::Links::first_bad_link))]
pub fn first_bad_link(alloc: Global, parts: &CheckParts) -> Found
    ensures { IfOk result (λ found. found ≡ first_bad_link parts.now) }
{
    let judge = BadLinks {
        folders: parts.folders.as_slice(),
    };
    first_fault(alloc, &judge, parts.links.as_slice())
}

// Whether two devices of the folders are the link's ends, in order, and nothing is on its way while it is down.
fn is_link_of(folders: &[FolderParts], link: &LinkParts) -> bool
    ensures { result ≡ is_link_of folders.now link.now }
{
    link.a < link.b
        && is_device(folders, link.a)
        && is_device(folders, link.b)
        && (link.up || is_quiet(link))
}

// Whether the device shares some folder.
fn is_device(folders: &[FolderParts], device: DeviceId) -> bool
    ensures { result ≡ is_device folders.now device }
{
    folders
        .iter()
        .any(|folder| has_device(folder.devices.as_slice(), device))
}

// Whether nothing is on its way over the link.
fn is_quiet(link: &LinkParts) -> bool
    ensures { result ≡ is_quiet link.now }
{
    link.to_a.as_slice().is_empty() && link.to_b.as_slice().is_empty()
}
