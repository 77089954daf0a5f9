//! What stands twice in a document.
ghost use Rattle.std.specs.Prelude.{◌≡◌, nat_eq, IfOk, List, ℕ, [], Some, None, if◌then◌else◌};
ghost use Rattle.std.specs.Cmp.Lexicographic.{pointwise};
ghost use Rattle.std.specs.List.{list_any};
ghost use Rattle.bep_document.specs.Fault.{at_device, at_link, at_name};
ghost use Rattle.bep_document.specs.faults.Judge.{◌else_at◌, first_in};
ghost use Rattle.bep_document.specs.faults.Walks.{on_link};
ghost use Rattle.bep_document.specs.declared.fault.Fault.TheVariants.{Twice};
ghost use Rattle.bep_document.specs.faults.Twice.{name_again, twice_in_records, twice_at_share, twice_at_folder, twice_in_flight, twice_at_link, first_twice};

use crate::faults::holder::Holder;
use crate::faults::judge::{Found, Judge, JudgeKeyed, first_fault, first_keyed};
use crate::faults::unshared::has_device;
use crate::faults::walks::{
    FlightAt, JudgeFlights, JudgeShares, ShareAt, first_at_shares, first_on_link,
};
use crate::{CheckParts, DocFault, Fault, FolderParts, LinkParts, ViewParts, first_of};
use bep_json::NamedParts;
use bep_record::{DeviceId, Entry, FolderName, Name};
use std::alloc::{AllocError, Global};
use std::cmp::Ordering;

/// What is told apart by its name.
pub(crate) trait Named {
    /// The name.
    ghost name_in: { Self → List ℕ };

    /// The name.
    fn name(&self) -> &Name
        ensures { result.now ≡ name_in self.now };
}

impl Named for Entry {
    ghost name_in = { λ entry. entry.name };

    fn name(&self) -> &Name {
        &self.name
    }
}

impl Named for NamedParts {
    ghost name_in = { λ node. node.name };

    fn name(&self) -> &Name {
        &self.name
    }
}

// Names that may stand once at a device.
#[derive(Clone, Copy)]
struct NamesOnce<'a> {
    at: &'a Holder<'a>,
}

impl<'a, T: Named> JudgeKeyed<T> for NamesOnce<'a> {
    type Key = Name;

    ghost key_of = { T.name_in };

    ghost fault_at = { λ judge is_again item.
        if is_again then Some (at_name Twice judge.at.now.folder.now judge.at.now.device (T.name_in item)) else None };

    fn key_of(&self, alloc: Global, item: &T) -> Result<Name, AllocError> {
        item.name().copy(alloc)
    }

    fn compare(&self, one: &T, other: &T) -> Ordering {
        one.name().cmp(other.name())
    }

    fn fault_at(&self, alloc: Global, is_again: bool, item: &T) -> Found {
        self.at
            .fault_unless(alloc, !is_again, Fault::Twice, item.name())
    }
}

// The first item that has the name of an earlier one, or want of memory.
fn first_again<T: Named>(alloc: Global, at: &Holder<'_>, items: &[T]) -> Found
    ensures { IfOk result (λ found.
        found ≡ first_in (name_again T.name_in at.now.folder.now at.now.device) [] items.now) }
{
    first_keyed(alloc, &NamesOnce { at }, items)
}

// Views of a device, each of another one, in which a name may stand once.
#[derive(Clone, Copy)]
struct ViewsOnce<'a> {
    at: &'a Holder<'a>,
}

impl<'a> JudgeKeyed<ViewParts> for ViewsOnce<'a> {
    type Key = DeviceId;

    ghost key_of = { λ view. view.of };

    ghost fault_at = { λ judge is_again view.
        (if is_again then Some (at_device Twice judge.at.now.folder.now judge.at.now.device) else None)
        else_at twice_in_records judge.at.now.folder.now judge.at.now.device view.records };

    fn key_of(&self, _alloc: Global, item: &ViewParts) -> Result<DeviceId, AllocError> {
        Ok(item.of)
    }

    fn compare(&self, one: &ViewParts, other: &ViewParts) -> Ordering {
        one.of.cmp(&other.of)
    }

    fn fault_at(&self, alloc: Global, is_again: bool, item: &ViewParts) -> Found {
        if is_again {
            let fault = self.at.fault(alloc, Fault::Twice)?;
            return Ok(Some(fault));
        }
        first_again(alloc, self.at, item.records.as_slice())
    }
}

// What stands twice in a cut.
#[derive(Clone, Copy)]
struct TwiceInCut;

impl JudgeShares for TwiceInCut {
    ghost fault_at_share = { λ _ folder. twice_at_share folder.folder };

    #[tactic(auto, unfolding(crate::specs::faults::Twice::twice_at_share, crate::specs::faults::Twice::twice_at_view))]
    fn fault_at_share(&self, alloc: Global, place: &ShareAt<'_>) -> Found {
        let share = place.share;
        let at = &Holder::of_share(place);
        if has_device(place.earlier, share.device) {
            let fault = at.fault(alloc, Fault::Twice)?;
            return Ok(Some(fault));
        }
        first_of!(
            first_again(alloc, at, share.own.as_slice()),
            first_again(alloc, at, share.store.as_slice()),
            first_keyed(alloc, &ViewsOnce { at }, share.views.as_slice()),
            first_again(alloc, at, share.pulls.as_slice())
        )
    }
}

impl Judge<FolderParts> for TwiceInCut {
    ghost fault_at = { λ _. twice_at_folder };

    #[tactic(auto, unfolding(crate::specs::faults::Twice::twice_at_folder))]
    fn fault_at(&self, alloc: Global, earlier: &[FolderParts], item: &FolderParts) -> Found {
        if has_folder(earlier, &item.folder) {
            let fault = DocFault::at_folder(alloc, Fault::Twice, &item.folder)?;
            return Ok(Some(fault));
        }
        first_at_shares(alloc, self, item)
    }
}

impl JudgeFlights for TwiceInCut {
    ghost fault_in_flight = { λ _ _. twice_in_flight };

    fn fault_in_flight(&self, alloc: Global, place: &FlightAt<'_>) -> Found {
        let at = &Holder::of_flight(place);
        first_again(alloc, at, place.flight.records.as_slice())
    }
}

impl JudgeKeyed<LinkParts> for TwiceInCut {
    type Key = (DeviceId, DeviceId);

    ghost key_of = { λ link. (link.a, link.b) };

    ghost fault_at = { λ _ is_again link.
        (if is_again then Some (at_link Twice link.a) else None) else_at on_link (λ _. twice_in_flight) [] link };

    fn key_of(&self, _alloc: Global, item: &LinkParts) -> Result<(DeviceId, DeviceId), AllocError> {
        Ok((item.a, item.b))
    }

    fn compare(&self, one: &LinkParts, other: &LinkParts) -> Ordering {
        (one.a, one.b).cmp(&(other.a, other.b))
    }

    fn fault_at(&self, alloc: Global, is_again: bool, item: &LinkParts) -> Found {
        if is_again {
            return Ok(Some(DocFault::at_link(Fault::Twice, item.a)));
        }
        first_on_link(alloc, self, item)
    }
}

// What stands twice first among the links, or want of memory.
#[tactic(auto, unfolding(crate::specs::faults::Twice::twice_at_link))]
fn first_at_links(alloc: Global, links: &[LinkParts]) -> Found
    ensures { IfOk result (λ found. found ≡ first_in twice_at_link [] links.now) }
{
    first_keyed(alloc, &TwiceInCut, links)
}

/// What stands twice first, in the folders or else among the links, or want of memory.
#[tactic(auto, unfolding(crate::specs::faults::Twice::first_twice))]
pub fn first_twice(alloc: Global, parts: &CheckParts) -> Found
    ensures { IfOk result (λ found. found ≡ first_twice parts.now) }
{
    first_of!(
        first_fault(alloc, &TwiceInCut, parts.folders.as_slice()),
        first_at_links(alloc, parts.links.as_slice())
    )
}

// Whether one of these is the folder.
fn has_folder(folders: &[FolderParts], name: &FolderName) -> bool
    ensures { result ≡ list_any (λ folder. pointwise nat_eq folder.folder name.now) folders.now }
{
    folders.iter().any(|folder| folder.folder == *name)
}
