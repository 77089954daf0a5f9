//! The cut that has one name, made of a header and a row.
ghost use Rattle.std.specs.Prelude.{◌≡◌, IfOk, map};
ghost use Rattle.std.specs.Option.{option_copied};
ghost use Rattle.bep_row.specs.Fits.{Fits, AreQuiet, IsQuiet};
ghost use Rattle.bep_row.specs.Row.{alone, cell_in, cut_with, folder_with, share_with, view_with};

use crate::cells::{cell_of, known_by, node_of, own_of, pull_of, record_at};
use crate::fits::rows_make_cuts;
use crate::{DeviceCell, NameRow};
use bep_map::NameMap;
use bep_record::{DeviceId, Duplicate, Items, Name};
use bep_tables::{Cut, CutParts, LinkState, PeerView, Share, SharedFolder};
use std::alloc::{AllocError, Global};

/// The cut that has the row's name alone, and all else of the header; or want of memory.
pub fn cut_of(alloc: Global, header: &Cut, row: &NameRow) -> Result<Cut, AllocError>
    requires { Fits header.now row.now }
    ensures { IfOk result (λ made. made ≡ cut_with header.now row.now) }
{
    rows_make_cuts();
    header.is_a_cut();
    let folders = folders_with(alloc, row, header.folders())?;
    let links = links_copied(alloc, header.links())?;
    Ok(Cut::of(CutParts { folders, links }))
}

fn folders_with(
    alloc: Global,
    row: &NameRow,
    folders: &[SharedFolder],
) -> Result<Items<SharedFolder>, AllocError>
    ensures { IfOk result (λ made. made ≡ map (folder_with row.now) folders.now) }
{
    let mut made = Vec::with_capacity(alloc, folders.len())?;
    for shared in folders {
        made.push(folder_with(alloc, row, shared)?)?;
    }
    Ok(Items::new(made))
}

fn folder_with(
    alloc: Global,
    row: &NameRow,
    shared: &SharedFolder,
) -> Result<SharedFolder, AllocError>
    ensures { IfOk result (λ made. made ≡ folder_with row.now shared.now) }
{
    let mut shares = Vec::with_capacity(alloc, shared.shares.as_slice().len())?;
    for share in shared.shares.as_slice() {
        let cell = cell_in(row, shared, share.device);
        shares.push(share_with(alloc, row, cell, share)?)?;
    }
    Ok(SharedFolder {
        folder: shared.folder.copy(alloc)?,
        shares: Items::new(shares),
    })
}

// What the row says of a device in a folder: nothing, unless it is the row's folder.
fn cell_in<'a>(row: &'a NameRow, shared: &SharedFolder, device: DeviceId) -> Option<&'a DeviceCell>
    ensures { option_copied result ≡ cell_in row.now shared.now device }
{
    if shared.folder.cmp(&row.folder).is_eq() {
        cell_of(row.devices.as_slice(), device)
    } else {
        None
    }
}

// What a device has of a folder, with what the cell says of the name.
fn share_with(
    alloc: Global,
    row: &NameRow,
    cell: Option<&DeviceCell>,
    share: &Share,
) -> Result<Share, AllocError>
    ensures { IfOk result (λ made. made ≡ share_with row.now (option_copied cell.entry) share.now) }
{
    let records = row.records.as_slice();
    Ok(Share {
        device: share.device,
        kind: share.kind,
        index_id: share.index_id,
        max_sequence: share.max_sequence,
        own: alone(alloc, &row.name, record_at(records, own_of(cell)))?,
        store: alone(alloc, &row.name, node_of(cell))?,
        views: views_with(alloc, row, cell, share.views.as_slice())?,
        pulls: alone(alloc, &row.name, record_at(records, pull_of(cell)))?,
    })
}

fn views_with(
    alloc: Global,
    row: &NameRow,
    cell: Option<&DeviceCell>,
    views: &[PeerView],
) -> Result<Items<PeerView>, AllocError>
    ensures { IfOk result (λ made. made ≡ map (view_with row.now (option_copied cell.entry)) views.now) }
{
    let mut made = Vec::with_capacity(alloc, views.len())?;
    for view in views {
        made.push(view_with(alloc, row, cell, view)?)?;
    }
    Ok(Items::new(made))
}

// What a device knows of another's index, with what the cell says of the name.
fn view_with(
    alloc: Global,
    row: &NameRow,
    cell: Option<&DeviceCell>,
    view: &PeerView,
) -> Result<PeerView, AllocError>
    ensures { IfOk result (λ made. made ≡ view_with row.now (option_copied cell.entry) view.now) }
{
    let found = record_at(row.records.as_slice(), known_by(cell, view.of));
    Ok(PeerView {
        of: view.of,
        index_id: view.index_id,
        max_sequence: view.max_sequence,
        records: alone(alloc, &row.name, found)?,
    })
}

// A map with this at the name and nothing else.
fn alone<V: Duplicate>(
    alloc: Global,
    name: &Name,
    found: Option<&V>,
) -> Result<NameMap<V>, AllocError>
    ensures { IfOk result (λ made. made ≡ alone name.now (option_copied found.entry)) }
{
    let mut made = NameMap::new(alloc);
    if let Some(value) = found {
        made.insert(name.copy(alloc)?, value.duplicate(alloc)?)?;
    }
    Ok(made)
}

fn links_copied(alloc: Global, links: &[LinkState]) -> Result<Items<LinkState>, AllocError>
    requires { AreQuiet links.now }
    ensures { IfOk result (λ made. made ≡ links.now) }
{
    let mut made = Vec::with_capacity(alloc, links.len())?;
    for link in links {
        made.push(quiet_copied(alloc, link))?;
    }
    Ok(Items::new(made))
}

fn quiet_copied(alloc: Global, link: &LinkState) -> LinkState
    requires { IsQuiet link.now }
    ensures { result ≡ link.now }
{
    LinkState {
        a: link.a,
        b: link.b,
        up: link.up,
        epoch: link.epoch,
        to_a: Items::new(Vec::new(alloc)),
        to_b: Items::new(Vec::new(alloc)),
    }
}
