//! Calls of devices that no other test makes: with ample memory none answers want of it.
use crate::made::{docs, name, node};
use bep_config::Config;
use bep_core::Cluster;
use bep_cut::folder_names;
use bep_folder::{Replica, ScanResult};
use bep_index::{Index, IndexId, Plan};
use bep_links::{Link, Request, Response};
use bep_peer::{Peer, Session, answer_to, has_bytes, next_batch};
use bep_record::{Block, DeviceId, FolderKind};
use bep_store::MemStore;
use std::alloc::Global;

// Devices 1 and 2, and their link.
struct Pair {
    first: Peer<MemStore>,
    second: Peer<MemStore>,
    link: Link,
}

impl Drop for Pair {
    fn drop(self) {
        let Pair {
            first: _,
            second: _,
            link: _,
        } = self;
    }
}

fn share(
    alloc: Global,
    config: &mut Config<MemStore>,
    device: u64,
    kind: FolderKind,
) -> Option<()> {
    let (docs, number) = (docs(alloc)?, DeviceId::read(device)?);
    let store = MemStore::new(alloc);
    config.add_device(&docs, number, kind, device, store).ok()
}

// The two devices share `docs`, which the second has in this kind.
fn cluster(alloc: Global, kind: FolderKind) -> Option<Cluster<MemStore>> {
    let mut config = Config::empty(alloc);
    config.add_folder(b"docs").ok()?;
    share(alloc, &mut config, 1, FolderKind::SendReceive)?;
    share(alloc, &mut config, 2, kind)?;
    config
        .add_link(DeviceId::read(1)?, DeviceId::read(2)?)
        .ok()?;
    Cluster::new(alloc, config).ok()
}

fn make_pair(alloc: Global, kind: FolderKind) -> Option<Pair> {
    let (mut peers, mut links) = cluster(alloc, kind)?.into_parts();
    let (second, first) = (peers.pop()?, peers.pop()?);
    let link = links.pop()?;
    Some(Pair {
        first,
        second,
        link,
    })
}

// Whether what the device does in its folder is done.
fn within(alloc: Global, device: &mut Peer<MemStore>, word: u8) -> Option<bool> {
    let (docs, name) = (docs(alloc)?, name(alloc, b'f')?);
    Some(match word {
        b'e' => device.edit(&docs, &name, &node(alloc, b'o')?).is_ok(),
        b's' => device.scan(&docs, &name).is_ok(),
        b'p' => device.pull(&docs, &name).is_ok(),
        b'f' => device.finish(&docs, &name).is_ok(),
        b'o' => device.override_one(&docs, &name).is_ok(),
        b'v' => device.revert_one(&docs, &name).is_ok(),
        b'r' => device.contents(&docs).is_ok(),
        b'z' => device.reset(IndexId::read(99)?).is_ok(),
        _ => device.copy_out().is_ok(),
    })
}

// The same over the link.
fn over(alloc: Global, device: &mut Peer<MemStore>, link: &mut Link, word: u8) -> Option<bool> {
    let (docs, name) = (docs(alloc)?, name(alloc, b'f')?);
    Some(match word {
        b'b' => device.begin(link).is_ok(),
        b'd' => device.deliver(link).is_ok(),
        b'a' => device.announce(link, &docs).is_ok(),
        _ => device.ask(link, &docs, &name).is_ok(),
    })
}

fn by_device(
    alloc: Global,
    device: &mut Peer<MemStore>,
    link: &mut Link,
    word: u8,
) -> Option<bool> {
    match word {
        b'b' | b'd' | b'a' | b'q' => over(alloc, device, link, word),
        _ => within(alloc, device, word),
    }
}

// A step is a letter, and the device that makes it; the link by itself has none.
fn is_made(alloc: Global, pair: &mut Pair, step: &str) -> Option<bool> {
    match step.as_bytes() {
        [word, b'1'] => by_device(alloc, &mut pair.first, &mut pair.link, *word),
        [word, b'2'] => by_device(alloc, &mut pair.second, &mut pair.link, *word),
        _ => Some(pair.link.connect().is_ok()),
    }
}

// How many of these steps are made, where device 2 has the folder in this kind.
fn made(alloc: Global, kind: FolderKind, steps: &[&str]) -> Option<u64> {
    let mut pair = make_pair(alloc, kind)?;
    let mut made = 0u64;
    for step in steps {
        if is_made(alloc, &mut pair, step)? {
            made = made.saturating_add(1);
        }
    }
    Some(made)
}

// Device 2 takes the file over from device 1, which is read out, and starts over.
const TAKEN: [&str; 17] = [
    "e1", "s1", "c", "b1", "b2", "d2", "d1", "a1", "d2", "p2", "q2", "d1", "d2", "f2", "r1", "t1",
    "z1",
];

// Device 2 overrides the file; and takes its own one back.
const OVERRIDDEN: [&str; 10] = ["e1", "s1", "c", "b1", "b2", "d2", "d1", "a1", "d2", "o2"];

const REVERTED: [&str; 3] = ["e2", "s2", "v2"];

fn committed(alloc: Global) -> Option<bool> {
    let mut pair = make_pair(alloc, FolderKind::SendReceive)?;
    let (docs, name) = (docs(alloc)?, name(alloc, b'f')?);
    let node = pair.first.look(&docs, &name).ok()?;
    let scan = ScanResult::plain(alloc, name, node).ok()?;
    Some(pair.first.scan_commit(&docs, scan).is_ok())
}

#[test]
fn devices_find_memory(rt: HostRuntime) {
    let alloc = rt.alloc();
    assert!(rt; made(alloc, FolderKind::SendReceive, &TAKEN) == Some(17));
    assert!(rt; made(alloc, FolderKind::SendOnly, &OVERRIDDEN) == Some(10));
    assert!(rt; made(alloc, FolderKind::ReceiveOnly, &REVERTED) == Some(3));
    assert!(rt; committed(alloc) == Some(true));
}

// The SHA-256 of `hello`.
const HASH: [u8; 32] = [
    0x2c, 0xf2, 0x4d, 0xba, 0x5f, 0xb0, 0xa3, 0x0e, 0x26, 0xe8, 0x3b, 0x2a, 0xc5, 0xb9, 0xe2, 0x9e,
    0x1b, 0x16, 0x1e, 0x5c, 0x1f, 0xa7, 0x42, 0x5e, 0x73, 0x04, 0x33, 0x62, 0x93, 0x8b, 0x98, 0x24,
];

fn requested(alloc: Global, session: &Session) -> Option<Request> {
    let (docs, name) = (docs(alloc)?, name(alloc, b'f')?);
    let block = Block {
        offset: 0,
        size: 5,
        hash: HASH,
    };
    session.next_request(alloc, &docs, &name, &block).ok()
}

// A session's request for the file, and the answer.
fn exchanged(alloc: Global) -> Option<(Request, Response)> {
    let (session, node) = (Session::new(alloc, 1).ok()?, node(alloc, b'o')?);
    let request = requested(alloc, &session.copy(alloc).ok()?)?;
    let response = answer_to(alloc, &request, Some(&node)).ok()?;
    Some((request, response))
}

fn replica(alloc: Global) -> Option<Replica<MemStore>> {
    let (device, id, docs) = (DeviceId::read(2)?, IndexId::read(12)?, docs(alloc)?);
    let others = Vec::from_array(alloc, [DeviceId::read(1)?]).ok()?;
    let store = MemStore::new(alloc);
    Replica::new(
        alloc,
        device,
        docs,
        FolderKind::SendReceive,
        id,
        others,
        store,
    )
}

// Whether the answer has the file's bytes, and is received; nothing is pulled of its name.
fn received(alloc: Global) -> Option<bool> {
    let (request, response) = exchanged(alloc)?;
    let mut replica = replica(alloc)?;
    if has_bytes(&response, &request) {
        Some(Replica::receive(&mut replica, &request, response.bytes.as_slice()).is_ok())
    } else {
        None
    }
}

fn sent(alloc: Global) -> Option<bool> {
    let index = Index::new(alloc, IndexId::read(11)?);
    Some(next_batch(alloc, &index, Plan::Full).is_ok())
}

fn named(alloc: Global) -> Option<bool> {
    let (peers, _links) = cluster(alloc, FolderKind::SendReceive)?.into_parts();
    Some(folder_names(alloc, peers.as_slice()).is_ok())
}

#[test]
fn parts_of_devices_find_memory(rt: HostRuntime) {
    assert!(rt; received(rt.alloc()) == Some(true));
    assert!(rt; sent(rt.alloc()) == Some(true));
    assert!(rt; named(rt.alloc()) == Some(true));
}
