//! The entries of a cut, one after the other.
ghost use Rattle.std.specs.Prelude.{◌∷◌, [], OnOk};
ghost use Rattle.std.specs.List.{flat_map};
ghost use Rattle.bep_tables.specs.Listed.{held, listed_at, records_listed, nodes_listed, foreign_listed, view_listed, views_listed, share_listed, folder_listed, flight_listed, link_listed, cut_listed};
ghost use Rattle.bep_tables.specs.inner.Groups.{Took};

use super::groups::Groups;
use super::{Held, Source, TableEntry};
use crate::{Cut, Flight, LinkState, PeerView, Share, SharedFolder};
use bep_map::NameMap;
use bep_record::{DeviceId, FolderName, Name, Node, Record};
use std::alloc::AllocError;

// Adds all entries of the cut.
pub(crate) fn add_cut<'a>(groups: &mut Groups<'a>, cut: &'a Cut) -> Result<(), AllocError>
    ensures { OnOk result (Took (cut_listed cut.now) groups.old groups.new) }
{
    add_folders(groups, cut.folders())?;
    add_links(groups, cut.links())?;
    Ok(())
}

fn add_folders<'a>(groups: &mut Groups<'a>, folders: &'a [SharedFolder]) -> Result<(), AllocError>
    ensures { OnOk result (Took (flat_map folder_listed folders.now) groups.old groups.new) }
{
    for held in folders {
        add_shares(groups, &held.folder, held.shares.as_slice())?;
    }
    Ok(())
}

fn add_shares<'a>(
    groups: &mut Groups<'a>,
    folder: &'a FolderName,
    shares: &'a [Share],
) -> Result<(), AllocError>
    ensures { OnOk result (Took (flat_map (share_listed folder.now) shares.now) groups.old groups.new) }
{
    for share in shares {
        add_share(groups, folder, share)?;
    }
    Ok(())
}

fn add_share<'a>(
    groups: &mut Groups<'a>,
    folder: &'a FolderName,
    share: &'a Share,
) -> Result<(), AllocError>
    ensures { OnOk result (Took (share_listed folder.now share.now) groups.old groups.new) }
{
    add_records(groups, folder, share.device, Source::Own, &share.own)?;
    add_nodes(groups, folder, share.device, &share.store)?;
    add_views(groups, folder, share.device, share.views.as_slice())?;
    add_records(groups, folder, share.device, Source::Pull, &share.pulls)?;
    Ok(())
}

fn add_records<'a>(
    groups: &mut Groups<'a>,
    folder: &'a FolderName,
    device: DeviceId,
    source: Source,
    records: &'a NameMap<Record>,
) -> Result<(), AllocError>
    ensures { OnOk result (Took (records_listed folder.now device source records.now) groups.old groups.new) }
{
    for (name, found) in records.iter() {
        add(groups, folder, name, device, Held::Record(source, found))?;
    }
    Ok(())
}

fn add_nodes<'a>(
    groups: &mut Groups<'a>,
    folder: &'a FolderName,
    device: DeviceId,
    store: &'a NameMap<Node>,
) -> Result<(), AllocError>
    ensures { OnOk result (Took (nodes_listed folder.now device store.now) groups.old groups.new) }
{
    for (name, node) in store.iter() {
        add(groups, folder, name, device, Held::Node(node))?;
    }
    Ok(())
}

fn add_views<'a>(
    groups: &mut Groups<'a>,
    folder: &'a FolderName,
    device: DeviceId,
    views: &'a [PeerView],
) -> Result<(), AllocError>
    ensures { OnOk result (Took (views_listed folder.now device views.now) groups.old groups.new) }
{
    for view in views {
        add_view(groups, folder, device, view)?;
    }
    Ok(())
}

fn add_view<'a>(
    groups: &mut Groups<'a>,
    folder: &'a FolderName,
    device: DeviceId,
    view: &'a PeerView,
) -> Result<(), AllocError>
    ensures { OnOk result (Took (view_listed folder.now device view.now) groups.old groups.new) }
{
    for (name, found) in view.records.iter() {
        add_foreign(groups, folder, name, device, Source::View, found)?;
    }
    Ok(())
}

fn add_links<'a>(groups: &mut Groups<'a>, links: &'a [LinkState]) -> Result<(), AllocError>
    ensures { OnOk result (Took (flat_map link_listed links.now) groups.old groups.new) }
{
    for link in links {
        add_flights(groups, link.a, link.to_a.as_slice())?;
        add_flights(groups, link.b, link.to_b.as_slice())?;
    }
    Ok(())
}

fn add_flights<'a>(
    groups: &mut Groups<'a>,
    device: DeviceId,
    flights: &'a [Flight],
) -> Result<(), AllocError>
    ensures { OnOk result (Took (flat_map (flight_listed device) flights.now) groups.old groups.new) }
{
    for flight in flights {
        add_flight(groups, device, flight)?;
    }
    Ok(())
}

fn add_flight<'a>(
    groups: &mut Groups<'a>,
    device: DeviceId,
    flight: &'a Flight,
) -> Result<(), AllocError>
    ensures { OnOk result (Took (flight_listed device flight.now) groups.old groups.new) }
{
    for found in flight.records.as_slice() {
        let name = &found.entry().name;
        add_foreign(groups, &flight.folder, name, device, Source::Flight, found)?;
    }
    Ok(())
}

// Adds a record that a device has from elsewhere, unless the record is invalid.
fn add_foreign<'a>(
    groups: &mut Groups<'a>,
    folder: &'a FolderName,
    name: &'a Name,
    device: DeviceId,
    source: Source,
    found: &'a Record,
) -> Result<(), AllocError>
    ensures { OnOk result (Took (foreign_listed folder.now device source (name.now, found.now)) groups.old groups.new) }
{
    if found.entry().invalid {
        return Ok(());
    }
    add(groups, folder, name, device, Held::Record(source, found))
}

// Adds what a device holds at a name.
fn add<'a>(
    groups: &mut Groups<'a>,
    folder: &'a FolderName,
    name: &'a Name,
    device: DeviceId,
    holding: Held<'a>,
) -> Result<(), AllocError>
    ensures { OnOk result (Took (listed_at folder.now name.now device (held holding.entry) ∷ []) groups.old groups.new) }
{
    groups.add(&TableEntry {
        folder,
        name,
        device,
        held: holding,
    })
}
