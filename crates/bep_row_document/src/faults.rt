//! The fault for which a row is refused beside its header: a search for each kind, one after the other.
ghost use Rattle.std.specs.Prelude.{◌≡◌, ◌==◌, ◌&&◌, ◌||◌, not, nat_eq, IfOk, Some, None, if◌then◌else◌};
ghost use Rattle.std.specs.Cmp.Lexicographic.{pointwise};
ghost use Rattle.std.specs.List.{list_any};
ghost use Rattle.bep_row_document.specs.Faults.{are_bad, are_places_wrong, bad_pull, cell_again, fault_in, first_bad, first_bad_pull, first_misplaced, first_twice, first_unordered, first_unshared, has_cell, has_share, has_view, is_above, is_crowded, is_invalid_at, row_fault, stranger, unshared, view_again, views};
ghost use Rattle.bep_document.specs.declared.fault.Fault.TheVariants.{Range, RecordBad};
ghost use Rattle.bep_document.specs.Fault.{at_name, nowhere};

use crate::cell::{device_of, place_of, pull_of, viewed_of, views_of};
use crate::row::{cells_of, folder_of, name_of, records_of};
use crate::text::{CellText, RowText, ViewText};
use crate::within::{are_bad, are_places_wrong, is_crowded};
use bep_document::{DocFault, Fault, Found, Judge, first_fault, first_of};
use bep_record::{DeviceId, Entry, FolderName, Name};
use bep_tables::{Cut, PeerView, Share};
use std::alloc::{AllocError, Global};

// The name of a row, at which its faults are told.
#[derive(Clone, Copy)]
struct At<'a> {
    folder: &'a FolderName,
    name: &'a Name,
}

impl<'a> At<'a> {
    fn of(row: &'a RowText) -> Self
        ensures folder { result.folder.now ≡ row.now.0 }
        ensures name { result.name.now ≡ row.now.1.0 }
    {
        At {
            folder: folder_of(row),
            name: name_of(row),
        }
    }

    // The fault, at a device.
    fn fault(&self, alloc: Global, fault: Fault, device: DeviceId) -> Found
        ensures { IfOk result (λ found. found ≡ Some (at_name fault self.now.folder.now device self.now.name.now)) }
    {
        let made = DocFault::at_name(alloc, fault, self.folder, device, self.name)?;
        Ok(Some(made))
    }
}

// What stands twice in a row: a device, or a view of a device.
#[derive(Clone, Copy)]
struct Once<'a> {
    at: &'a At<'a>,
}

impl<'a> Judge<CellText> for Once<'a> {
    ghost fault_at = { λ judge. cell_again judge.at.now.folder.now judge.at.now.name.now };

    fn fault_at(&self, alloc: Global, earlier: &[CellText], item: &CellText) -> Found {
        let device = device_of(item);
        if has_cell(earlier, device) {
            return self.at.fault(alloc, Fault::Twice, device);
        }
        let judge = ViewsOnce {
            at: self.at,
            device,
        };
        first_fault(alloc, &judge, views_of(item))
    }
}

// Views of a device, each of another one.
#[derive(Clone, Copy)]
struct ViewsOnce<'a> {
    at: &'a At<'a>,
    device: DeviceId,
}

impl<'a> Judge<ViewText> for ViewsOnce<'a> {
    ghost fault_at = { λ judge. view_again judge.at.now.folder.now judge.at.now.name.now judge.device };

    fn fault_at(&self, alloc: Global, earlier: &[ViewText], item: &ViewText) -> Found {
        let of = viewed_of(item);
        if has_viewed(earlier, of) {
            return self.at.fault(alloc, Fault::Twice, self.device);
        }
        Ok(None)
    }
}

// What the header hasn't: a device of the folder, or a view.
#[derive(Clone, Copy)]
struct Shared<'a> {
    at: &'a At<'a>,
    shares: &'a [Share],
}

impl<'a> Judge<CellText> for Shared<'a> {
    ghost fault_at = { λ judge. unshared judge.at.now.folder.now judge.at.now.name.now judge.shares.now };

    fn fault_at(&self, alloc: Global, _earlier: &[CellText], item: &CellText) -> Found {
        let device = device_of(item);
        if !has_share(self.shares, device) {
            return self.at.fault(alloc, Fault::Unshared, device);
        }
        let judge = Viewed {
            at: self.at,
            shares: self.shares,
            device,
        };
        first_fault(alloc, &judge, views_of(item))
    }
}

// Views of a device that the header has.
#[derive(Clone, Copy)]
struct Viewed<'a> {
    at: &'a At<'a>,
    shares: &'a [Share],
    device: DeviceId,
}

impl<'a> Judge<ViewText> for Viewed<'a> {
    ghost fault_at = { λ judge. stranger judge.at.now.folder.now judge.at.now.name.now judge.shares.now judge.device };

    fn fault_at(&self, alloc: Global, _earlier: &[ViewText], item: &ViewText) -> Found {
        if has_view(self.shares, self.device, viewed_of(item)) {
            return Ok(None);
        }
        self.at.fault(alloc, Fault::Unshared, self.device)
    }
}

// Records that a device can't pull.
#[derive(Clone, Copy)]
struct Pulled<'a> {
    at: &'a At<'a>,
    records: &'a [Entry],
}

impl<'a> Judge<CellText> for Pulled<'a> {
    ghost fault_at = { λ judge. bad_pull judge.at.now.folder.now judge.at.now.name.now judge.records.now };

    fn fault_at(&self, alloc: Global, _earlier: &[CellText], item: &CellText) -> Found {
        if is_invalid_at(self.records, place_of(pull_of(item))) {
            return self.at.fault(alloc, Fault::RecordBad, device_of(item));
        }
        Ok(None)
    }
}

// Whether one of these is the device.
fn has_share(shares: &[Share], device: DeviceId) -> bool
    ensures { result ≡ has_share shares.now device }
{
    shares.iter().any(|share| share.device == device)
}

// Whether the device has a view of the other one.
fn has_view(shares: &[Share], device: DeviceId, of: DeviceId) -> bool
    ensures { result ≡ has_view shares.now device of }
{
    shares.iter().any(|share| views(share, device, of))
}

// Whether this is the device, and has a view of the other one.
fn views(share: &Share, device: DeviceId, of: DeviceId) -> bool
    ensures { result ≡ views device of share.now }
{
    share.device == device && has_view_of(share.views.as_slice(), of)
}

fn has_view_of(views: &[PeerView], of: DeviceId) -> bool
    ensures { result ≡ list_any (λ view. view.of == of) views.now }
{
    views.iter().any(|view| view.of == of)
}

// Whether one of these is of the device.
#[tactic(auto, unfolding(crate::specs::Faults::has_cell))]
fn has_cell(cells: &[CellText], device: DeviceId) -> bool
    ensures { result ≡ has_cell cells.now device }
{
    cells.iter().any(|known| device_of(known) == device)
}

// Whether one of these is of the other device.
fn has_viewed(views: &[ViewText], of: DeviceId) -> bool
    ensures { result ≡ list_any (λ known. known.0 == of) views.now }
{
    views.iter().any(|known| viewed_of(known) == of)
}

// Whether the record at the place is invalid, if there is one.
fn is_invalid_at(records: &[Entry], place: Option<usize>) -> bool
    ensures { result ≡ is_invalid_at records.now place }
{
    match place {
        Some(place) => match records.get(place) {
            Some(entry) => entry.invalid,
            None => false,
        },
        None => false,
    }
}

// The fault of a row whose lists are too long, or whose places are wrong.
#[tactic(auto, unfolding(crate::specs::Faults::first_misplaced))]
fn first_misplaced(row: &RowText) -> Found
    ensures { IfOk result (λ found. found ≡ first_misplaced row.now) }
{
    if is_crowded(row) || are_places_wrong(row) {
        return Ok(Some(DocFault::nowhere(Fault::Range)));
    }
    Ok(None)
}

// The fault of a row whose name isn't above the last one.
#[tactic(auto, unfolding(crate::specs::Faults::first_unordered))]
fn first_unordered(alloc: Global, last: &Option<(FolderName, Name)>, row: &RowText) -> Found
    ensures { IfOk result (λ found. found ≡ first_unordered last.now row.now) }
{
    let (folder, name) = (folder_of(row), name_of(row));
    if is_above(folder, name, last) {
        return Ok(None);
    }
    let fault = row_fault(alloc, Fault::Twice, folder, name)?;
    Ok(Some(fault))
}

// Whether the name is above the last one, if there was one.
fn is_above(folder: &FolderName, name: &Name, last: &Option<(FolderName, Name)>) -> bool
    ensures { result ≡ is_above (folder.now, name.now) last.now }
{
    match last {
        None => true,
        Some((in_folder, before)) => in_folder.cmp(folder).then(before.cmp(name)).is_lt(),
    }
}

// The first device that stands twice in a row, or view of one.
#[tactic(auto, unfolding(crate::specs::Faults::first_twice))]
fn first_twice(alloc: Global, row: &RowText) -> Found
    ensures { IfOk result (λ found. found ≡ first_twice row.now) }
{
    let at = &At::of(row);
    first_fault(alloc, &Once { at }, cells_of(row))
}

// The first device that the header hasn't in the row's folder, or view of one.
#[tactic(auto, unfolding(crate::specs::Faults::first_unshared))]
fn first_unshared(alloc: Global, header: &Cut, row: &RowText) -> Found
    ensures { IfOk result (λ found. found ≡ first_unshared header.now row.now) }
{
    let at = &At::of(row);
    let shares = header.shares(folder_of(row));
    first_fault(alloc, &Shared { at, shares }, cells_of(row))
}

// The fault of a row that has a bad record or node.
#[tactic(auto, unfolding(crate::specs::Faults::first_bad))]
fn first_bad(alloc: Global, row: &RowText) -> Found
    ensures { IfOk result (λ found. found ≡ first_bad row.now) }
{
    if are_bad(row) {
        let fault = row_fault(alloc, Fault::RecordBad, folder_of(row), name_of(row))?;
        return Ok(Some(fault));
    }
    Ok(None)
}

// The first device that pulls an invalid record.
#[tactic(auto, unfolding(crate::specs::Faults::first_bad_pull))]
fn first_bad_pull(alloc: Global, row: &RowText) -> Found
    ensures { IfOk result (λ found. found ≡ first_bad_pull row.now) }
{
    let at = &At::of(row);
    let records = records_of(row);
    first_fault(alloc, &Pulled { at, records }, cells_of(row))
}

// A fault of the row's name, at no device.
pub(crate) fn row_fault(
    alloc: Global,
    fault: Fault,
    folder: &FolderName,
    name: &Name,
) -> Result<DocFault, AllocError>
    ensures { IfOk result (λ made. made ≡ row_fault fault folder.now name.now) }
{
    Ok(DocFault {
        fault,
        folder: Some(folder.copy(alloc)?),
        device: None,
        name: Some(name.copy(alloc)?),
    })
}

// The row's first fault beside the header, but for its sequences; or want of memory.
#[tactic(auto, unfolding(crate::specs::Faults::fault_in))]
pub(crate) fn fault_in(
    alloc: Global,
    header: &Cut,
    last: &Option<(FolderName, Name)>,
    row: &RowText,
) -> Found
    ensures { IfOk result (λ found. found ≡ fault_in header.now last.now row.now) }
{
    first_of!(
        first_misplaced(row),
        first_unordered(alloc, last, row),
        first_twice(alloc, row),
        first_unshared(alloc, header, row),
        first_bad(alloc, row),
        first_bad_pull(alloc, row)
    )
}
