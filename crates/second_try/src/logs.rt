//! The devices and links with their logs, and a run cut of copies of them, each asked for once more where memory was wanting.
use crate::telling::Told;
use crate::twice;
use bep_cut_document::{DocVersion, check_document};
use bep_fit::RunVerdict;
use bep_lines::{Piece, push_pieces};
use bep_links::Link;
use bep_log::{LogError, LoggedLink, LoggedPeer};
use bep_peer::Peer;
use bep_run_cut::{RunCut, check_run};
use bep_store::MemStore;
use bep_tables::Cut;
use std::alloc::{AllocError, Global};

/// All begin their logs anew, and the first two devices a session over the first link. Tells whether the logs fit, and the
/// documents of the cuts with which they begin and end.
pub(crate) fn tell_logs(
    alloc: Global,
    peers: Vec<Peer<MemStore>>,
    links: Vec<Link>,
    told: &mut Told,
) -> Result<(), AllocError> {
    let mut devices = logged_peers(alloc, peers)?;
    let mut joints = logged_links(alloc, links)?;
    rebase_peers(devices.as_mut_slice(), told)?;
    rebase_links(joints.as_mut_slice(), told)?;
    meet(devices.as_mut_slice(), joints.as_mut_slice(), told)?;
    match twice!(told; run_cut(alloc, devices.as_mut_slice(), joints.as_slice()))? {
        Some(run) => tell(alloc, &run, told),
        None => Err(AllocError),
    }
}

fn logged_peers(
    alloc: Global,
    peers: Vec<Peer<MemStore>>,
) -> Result<Vec<LoggedPeer<MemStore>>, AllocError> {
    let mut devices = Vec::with_capacity(alloc, peers.len())?;
    for peer in peers {
        match LoggedPeer::new(alloc, peer) {
            Ok(device) => devices.push(device)?,
            Err(_) => return Err(AllocError),
        }
    }
    Ok(devices)
}

fn logged_links(alloc: Global, links: Vec<Link>) -> Result<Vec<LoggedLink>, AllocError> {
    let mut joints = Vec::with_capacity(alloc, links.len())?;
    for link in links {
        joints.push(LoggedLink::new(alloc, link)?)?;
    }
    Ok(joints)
}

fn rebase_peers(devices: &mut [LoggedPeer<MemStore>], told: &mut Told) -> Result<(), AllocError> {
    for device in devices.iter_mut() {
        or_memory(twice!(told; device.rebase(1)))?;
    }
    Ok(())
}

fn rebase_links(joints: &mut [LoggedLink], told: &mut Told) -> Result<(), AllocError> {
    for joint in joints.iter_mut() {
        twice!(told; joint.rebase(1))?;
    }
    Ok(())
}

// Nothing is refused here but for want of memory.
fn or_memory<T: Drop>(answer: Result<T, LogError>) -> Result<T, AllocError> {
    match answer {
        Ok(value) => Ok(value),
        Err(_) => Err(AllocError),
    }
}

// The first link comes up anew, both devices begin a session, and the second takes the first's message.
fn meet(
    devices: &mut [LoggedPeer<MemStore>],
    joints: &mut [LoggedLink],
    told: &mut Told,
) -> Result<(), AllocError> {
    let Some(joint) = joints.first_mut() else {
        return Ok(());
    };
    connect(joint, told)?;
    if let Some(first) = devices.get_mut(0) {
        begin(first, 3, joint, told)?;
    }
    if let Some(second) = devices.get_mut(1) {
        begin(second, 4, joint, told)?;
        let _moved = or_memory(twice!(told; second.deliver(5, joint)))?;
    }
    Ok(())
}

fn connect(joint: &mut LoggedLink, told: &mut Told) -> Result<(), AllocError> {
    if joint.link().is_up() {
        or_memory(twice!(told; joint.lose(1)))?;
    }
    or_memory(twice!(told; joint.connect(2)))
}

fn begin(
    device: &mut LoggedPeer<MemStore>,
    ticket: u64,
    joint: &mut LoggedLink,
    told: &mut Told,
) -> Result<(), AllocError> {
    let _moved = or_memory(twice!(told; device.begin(ticket, joint)))?;
    Ok(())
}

// The run cut of copies of all.
fn run_cut(
    alloc: Global,
    devices: &mut [LoggedPeer<MemStore>],
    joints: &[LoggedLink],
) -> Result<Option<RunCut>, AllocError> {
    let mut peers = Vec::with_capacity(alloc, devices.len())?;
    for device in devices.iter_mut() {
        peers.push(or_memory(device.copy())?)?;
    }
    let mut links = Vec::with_capacity(alloc, joints.len())?;
    for joint in joints {
        links.push(joint.copy()?)?;
    }
    RunCut::of(alloc, peers, links)
}

fn tell(alloc: Global, run: &RunCut, told: &mut Told) -> Result<(), AllocError> {
    tell_verdict(check_run(run), told)?;
    tell_cut(alloc, run.base(), told)?;
    tell_cut(alloc, run.cut(), told)
}

fn tell_verdict(verdict: RunVerdict, told: &mut Told) -> Result<(), AllocError> {
    let (word, number) = match verdict {
        RunVerdict::Fits(count) => ("run fits: ", count),
        RunVerdict::Misfit(_, ticket) => ("run does not fit: ", ticket),
    };
    let pieces = [Piece::Text(word), Piece::Number(number), Piece::Text("\n")];
    twice!(told; push_pieces(&mut told.text, &pieces))
}

fn tell_cut(alloc: Global, cut: &Cut, told: &mut Told) -> Result<(), AllocError> {
    let document = twice!(told; check_document(alloc, DocVersion::Two, cut, &[]))?;
    let pieces = [Piece::Text(document.as_str()), Piece::Text("\n")];
    twice!(told; push_pieces(&mut told.text, &pieces))
}
