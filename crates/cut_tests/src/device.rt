//! What no run of the built program shows of one device: how many names its folder has, that what was seen of a file isn't
//! recorded where the file changed meanwhile, and which call of its store failed.
use crate::made::{docs, made, name, settled};
use bep_folder::ScanResult;
use bep_machine::Moved;
use bep_peer::{Peer, PeerError};
use bep_record::{FolderName, Name};
use bep_store::{FaultStore, MemStore};
use std::alloc::Global;

/// The number of names, and the answer to what was seen of `d`, which is removed before it is recorded.
pub(crate) type Late = (usize, Result<Moved, PeerError>);

// That answer.
fn recorded_late(
    alloc: Global,
    peer: &mut Peer<FaultStore<MemStore>>,
    docs: &FolderName,
    name: &Name,
) -> Option<Result<Moved, PeerError>> {
    let copy = name.copy(alloc).ok()?;
    let node = peer.look(docs, name).ok()?;
    let scan = ScanResult::plain(alloc, copy, node).ok()?;
    peer.remove(docs, name).ok()?;
    Some(peer.scan_commit(docs, scan))
}

/// The same of this device.
pub(crate) fn late(alloc: Global, peer: &mut Peer<FaultStore<MemStore>>) -> Option<Late> {
    let docs = docs(alloc)?;
    let name = name(alloc, b'd')?;
    let names = peer.names(&docs).ok()?.len();
    Some((names, recorded_late(alloc, peer, &docs, &name)?))
}

// The number of a refusal, and which call of the store failed; what is told of that once more, after it was taken.
type Failed = (Option<u32>, Option<u32>, Option<u32>);

fn taken(peer: &mut Peer<FaultStore<MemStore>>, answer: Result<Moved, PeerError>) -> Failed {
    let number = match answer {
        Ok(_) => None,
        Err(error) => error.number(),
    };
    let trace = peer.take_trace();
    (number, trace.failed, peer.failed())
}

// The device removes `d`, or ends the pull of `f`.
fn failed(alloc: Global, peer: &mut Peer<FaultStore<MemStore>>, letter: u8) -> Option<Failed> {
    let docs = docs(alloc)?;
    let name = name(alloc, letter)?;
    let answer = match letter {
        b'd' => peer.remove(&docs, &name),
        _ => peer.finish(&docs, &name),
    };
    Some(taken(peer, answer))
}

// The same of device 1, where this call of its store fails, once it pulls `f`.
fn failed_at(alloc: Global, letter: u8, call: u64) -> Option<Failed> {
    let mut cluster = settled(alloc, [call, 0, 0])?;
    made(alloc, &mut cluster, &["a31", "d13", "p1f"])?;
    let (mut peers, _links) = cluster.into_parts();
    failed(alloc, peers.first_mut()?, letter)
}

// Each reads, and then removes the directory or gives the file its time.
#[test]
fn a_trace_tells_the_call_that_failed(rt: HostRuntime) {
    for (letter, call) in [(b'd', 1), (b'd', 2), (b'f', 1), (b'f', 2)] {
        let told = failed_at(rt.alloc(), letter, u64::from(call));
        assert_eq!(rt; told, Some((Some(131), Some(call), None)));
    }
}
