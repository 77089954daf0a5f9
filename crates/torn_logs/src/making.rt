//! The steps, each made under a ticket.
use crate::cluster::Logged;
use bep_folder::ScanResult;
use bep_index::IndexId;
use bep_log::{LogError, LoggedLink, LoggedPeer};
use bep_machine::Step;
use bep_record::{DeviceId, FolderName, Name};
use bep_store::MemStore;
use std::alloc::{AllocError, Global};

/// Makes the step under the ticket. What is refused isn't logged.
pub(crate) fn make(
    alloc: Global,
    cluster: &mut Logged,
    ticket: u64,
    step: &Step,
) -> Result<(), AllocError> {
    match step {
        Step::Connect(one, other) => match cluster.link(*one, *other) {
            Some(link) => unless_refused(link.connect(ticket)),
            None => Ok(()),
        },
        Step::Lose(one, other) => match cluster.link(*one, *other) {
            Some(link) => unless_refused(link.lose(ticket)),
            None => Ok(()),
        },
        Step::Begin(device, other) => over(cluster, ticket, step, *device, *other),
        Step::Deliver(device, other) => over(cluster, ticket, step, *device, *other),
        Step::Announce(device, other, _) => over(cluster, ticket, step, *device, *other),
        Step::Ask(device, other, _, _) => over(cluster, ticket, step, *device, *other),
        Step::Restart(device) => restart(cluster, ticket, *device),
        Step::Reset(device, id) => reset(cluster, ticket, *device, *id),
        Step::Edit(device, _, _, _) => within(alloc, cluster, ticket, step, *device),
        Step::Remove(device, _, _) => within(alloc, cluster, ticket, step, *device),
        Step::Scan(device, _, _) => within(alloc, cluster, ticket, step, *device),
        Step::Override(device, _, _) => within(alloc, cluster, ticket, step, *device),
        Step::Revert(device, _, _) => within(alloc, cluster, ticket, step, *device),
        Step::StartPull(device, _, _) => within(alloc, cluster, ticket, step, *device),
        Step::Finish(device, _, _) => within(alloc, cluster, ticket, step, *device),
    }
}

// Whether memory was wanting; a refusal is an answer like another.
fn unless_refused<T: Drop>(made: Result<T, LogError>) -> Result<(), AllocError> {
    match made {
        Err(LogError::Memory) => Err(AllocError),
        _ => Ok(()),
    }
}

// What a device does over its link with another.
fn over(
    cluster: &mut Logged,
    ticket: u64,
    step: &Step,
    device: DeviceId,
    other: DeviceId,
) -> Result<(), AllocError> {
    match cluster.device_and_link(device, other) {
        Some((peer, link)) => over_link(peer, link, ticket, step),
        None => Ok(()),
    }
}

fn over_link(
    peer: &mut LoggedPeer<MemStore>,
    link: &mut LoggedLink,
    ticket: u64,
    step: &Step,
) -> Result<(), AllocError> {
    unless_refused(match step {
        Step::Begin(_, _) => peer.begin(ticket, link),
        Step::Announce(_, _, folder) => peer.announce(ticket, link, folder),
        Step::Ask(_, _, folder, name) => peer.ask(ticket, link, folder, name),
        _ => peer.deliver(ticket, link),
    })
}

// The device starts again, and each of its links is lost.
fn restart(cluster: &mut Logged, ticket: u64, device: DeviceId) -> Result<(), AllocError> {
    if let Some(peer) = cluster.device(device) {
        unless_refused(peer.restart(ticket))?;
    }
    for link in cluster.links.iter_mut() {
        let (lower, upper) = link.link().ends();
        if lower == device || upper == device {
            unless_refused(link.restart(ticket, device))?;
        }
    }
    Ok(())
}

// The device starts over with empty indexes, and each of its links is lost, unless it refuses the id.
fn reset(
    cluster: &mut Logged,
    ticket: u64,
    device: DeviceId,
    id: IndexId,
) -> Result<(), AllocError> {
    match cluster.device(device) {
        Some(peer) => match peer.reset(ticket, id) {
            Ok(_) => leave_links(cluster, ticket, device, id),
            Err(LogError::Memory) => Err(AllocError),
            Err(_) => Ok(()),
        },
        None => Ok(()),
    }
}

// Each link of the device that was reset is lost.
fn leave_links(
    cluster: &mut Logged,
    ticket: u64,
    device: DeviceId,
    id: IndexId,
) -> Result<(), AllocError> {
    for link in cluster.links.iter_mut() {
        let (lower, upper) = link.link().ends();
        if lower == device || upper == device {
            unless_refused(link.reset(ticket, device, id))?;
        }
    }
    Ok(())
}

// What a device does in a folder.
fn within(
    alloc: Global,
    cluster: &mut Logged,
    ticket: u64,
    step: &Step,
    device: DeviceId,
) -> Result<(), AllocError> {
    match cluster.device(device) {
        Some(peer) => in_folder(alloc, peer, ticket, step),
        None => Ok(()),
    }
}

fn in_folder(
    alloc: Global,
    peer: &mut LoggedPeer<MemStore>,
    ticket: u64,
    step: &Step,
) -> Result<(), AllocError> {
    match step {
        Step::Edit(_, folder, name, node) => unless_refused(peer.edit(ticket, folder, name, node)),
        Step::Remove(_, folder, name) => unless_refused(peer.remove(ticket, folder, name)),
        Step::Scan(_, folder, name) => scan(alloc, peer, ticket, folder, name),
        Step::Override(_, folder, name) => unless_refused(peer.override_one(ticket, folder, name)),
        Step::Revert(_, folder, name) => unless_refused(peer.revert_one(ticket, folder, name)),
        Step::StartPull(_, folder, name) => unless_refused(peer.pull(ticket, folder, name)),
        Step::Finish(_, folder, name) => unless_refused(peer.finish(ticket, folder, name)),
        _ => Ok(()),
    }
}

// Looks at the name and records what is there.
fn scan(
    alloc: Global,
    peer: &mut LoggedPeer<MemStore>,
    ticket: u64,
    folder: &FolderName,
    name: &Name,
) -> Result<(), AllocError> {
    let Ok(found) = peer.look(folder, name) else {
        return Ok(());
    };
    match ScanResult::plain(alloc, name.copy(alloc)?, found) {
        Ok(scan) => unless_refused(peer.scan_commit(ticket, folder, scan)),
        Err(_) => Err(AllocError),
    }
}
