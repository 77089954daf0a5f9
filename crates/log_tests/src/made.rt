//! Two devices that share `docs`, and their link, each with its log; and what they do, by letters.
use bep_folder::{Replica, ScanResult};
use bep_index::IndexId;
use bep_links::Link;
use bep_log::{LogError, LoggedLink, LoggedPeer};
use bep_machine::Moved;
use bep_map::FolderMap;
use bep_peer::Peer;
use bep_record::{DeviceId, FolderKind, FolderName, Items, Kind, Name, Node, NodeParts, Target};
use bep_store::{FaultStore, MemStore};
use std::alloc::Global;

/// The two devices and their link.
#[derive(Drop)]
pub(crate) struct Pair {
    pub(crate) first: LoggedPeer<FaultStore<MemStore>>,
    pub(crate) second: LoggedPeer<FaultStore<MemStore>>,
    pub(crate) link: LoggedLink,
}

/// The folder.
pub(crate) fn docs(alloc: Global) -> Option<FolderName> {
    FolderName::read(alloc, b"docs").ok()
}

/// The name that is this letter.
pub(crate) fn name(alloc: Global, letter: u8) -> Option<Name> {
    Name::read(alloc, &[letter]).ok()
}

/// A file of these bytes, changed at this second.
pub(crate) fn file(alloc: Global, bytes: &[u8], modified_s: i64) -> Option<Node> {
    let parts = NodeParts {
        kind: Kind::File,
        bytes: Items::new(Vec::from_slice(alloc, bytes).ok()?),
        target: Target::empty(alloc),
        modified_s,
        modified_ns: 0,
    };
    Node::read(parts).ok()
}

fn devices(alloc: Global, numbers: &[u64]) -> Option<Vec<DeviceId>> {
    let mut devices = Vec::new(alloc);
    for number in numbers {
        devices.push(DeviceId::read(*number)?).ok()?;
    }
    Some(devices)
}

// The device's part of the folder, which it has in this kind and shares with the others; this call of its store fails, or none
// for 0.
fn replica(
    alloc: Global,
    device: u64,
    others: &[u64],
    kind: FolderKind,
    call: u64,
) -> Option<Replica<FaultStore<MemStore>>> {
    let store = FaultStore::new(MemStore::new(alloc), call);
    let number = DeviceId::read(device)?;
    let id = IndexId::read(device)?;
    let others = devices(alloc, others)?;
    let docs = docs(alloc)?;
    Replica::new(alloc, number, docs, kind, id, others, store)
}

/// The device as it begins, with an empty log, linked with the others, with which it shares the folder; this call of its store
/// fails, or none for 0. The copy of the device that is its base takes the first call.
pub(crate) fn peer(
    alloc: Global,
    device: u64,
    others: &[u64],
    call: u64,
) -> Option<LoggedPeer<FaultStore<MemStore>>> {
    sharing(alloc, device, others, others, call)
}

/// The same, of a device that shares the folder with the one and is linked with the others.
pub(crate) fn sharing(
    alloc: Global,
    device: u64,
    others: &[u64],
    linked: &[u64],
    call: u64,
) -> Option<LoggedPeer<FaultStore<MemStore>>> {
    let replica = replica(alloc, device, others, FolderKind::SendReceive, call)?;
    begun(alloc, device, replica, linked)
}

// The device as it begins, with this part of the folder, linked with the others.
fn begun(
    alloc: Global,
    device: u64,
    replica: Replica<FaultStore<MemStore>>,
    linked: &[u64],
) -> Option<LoggedPeer<FaultStore<MemStore>>> {
    let mut folders = FolderMap::new(alloc);
    folders.insert(docs(alloc)?, replica).ok()?;
    let linked = devices(alloc, linked)?;
    let peer = Peer::new(alloc, DeviceId::read(device)?, folders, linked)?;
    LoggedPeer::new(alloc, peer).ok()
}

/// The link between the two, as it begins, with an empty log.
pub(crate) fn link(alloc: Global, lower: u64, upper: u64) -> Option<LoggedLink> {
    let link = Link::new(alloc, DeviceId::read(lower)?, DeviceId::read(upper)?)?;
    LoggedLink::new(alloc, link).ok()
}

/// The two devices as they begin; this call of the store of each fails, or none for 0.
pub(crate) fn two_devices(alloc: Global, calls: [u64; 2]) -> Option<Pair> {
    let [first, second] = calls;
    Some(Pair {
        first: peer(alloc, 1, &[2], first)?,
        second: peer(alloc, 2, &[1], second)?,
        link: link(alloc, 1, 2)?,
    })
}

/// The two devices as they begin, of which the second has the folder in this kind.
pub(crate) fn of_kinds(alloc: Global, kind: FolderKind) -> Option<Pair> {
    let second = replica(alloc, 2, &[1], kind, 0)?;
    Some(Pair {
        first: peer(alloc, 1, &[2], 0)?,
        second: begun(alloc, 2, second, &[1])?,
        link: link(alloc, 1, 2)?,
    })
}

/// The number of a refusal.
pub(crate) fn number<T: Drop>(answer: Result<T, LogError>) -> Option<u32> {
    match answer {
        Ok(_) => None,
        Err(error) => error.number(),
    }
}

/// What a device does in its folder: a letter, and that of a name.
pub(crate) fn within(
    alloc: Global,
    device: &mut LoggedPeer<FaultStore<MemStore>>,
    ticket: u64,
    word: u8,
    letter: u8,
) -> Option<Result<Moved, LogError>> {
    let docs = docs(alloc)?;
    let name = name(alloc, letter)?;
    Some(match word {
        b'e' => device.edit(ticket, &docs, &name, &file(alloc, b"hello", 1000)?),
        b'x' => device.edit(ticket, &docs, &name, &file(alloc, b"abc", 500)?),
        b'r' => device.remove(ticket, &docs, &name),
        b's' => {
            let found = device.look(&docs, &name).ok()?;
            let scan = ScanResult::plain(alloc, name, found).ok()?;
            device.scan_commit(ticket, &docs, scan)
        }
        b'p' => device.pull(ticket, &docs, &name),
        b'o' => device.override_one(ticket, &docs, &name),
        b'v' => device.revert_one(ticket, &docs, &name),
        _ => device.finish(ticket, &docs, &name),
    })
}
