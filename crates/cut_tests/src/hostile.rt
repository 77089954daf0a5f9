//! What a hostile device may put on a link: messages that break the protocol lose it, and leave all that was known.
use crate::made::{cluster, docs, name};
use bep_index::Batch;
use bep_links::{Announced, Bytes, Code, Link, Message, Response, Side};
use bep_machine::Moved;
use bep_peer::{Peer, PeerError};
use bep_record::{DeviceId, Entry, FolderName, Items, Kind, Record, Target, Version};
use bep_store::{FaultStore, MemStore};
use std::alloc::Global;

// The record of a directory of device 1, which has this sequence.
fn record(alloc: Global, sequence: u64) -> Option<Record> {
    let modified_by = DeviceId::read(1)?;
    let version = Version::read(alloc, &[(1, 1)]).ok()??;
    let entry = Entry {
        name: name(alloc, b'd')?,
        kind: Kind::Directory,
        size: 0,
        modified_s: 1000,
        modified_ns: 0,
        modified_by,
        deleted: false,
        invalid: false,
        no_permissions: true,
        version,
        sequence,
        block_size: 0,
        blocks: Items::new(Vec::new(alloc)),
        target: Target::empty(alloc),
    };
    Record::read(alloc, entry).ok()?
}

fn batch(alloc: Global, sequence: u64) -> Option<Batch> {
    let records = Vec::from_array(alloc, [record(alloc, sequence)?]).ok()?;
    Batch::new(records).ok()
}

// A ClusterConfig of device 1 that names `docs`.
fn config(alloc: Global) -> Option<Message> {
    let named = Vec::from_array(
        alloc,
        [Announced {
            folder: docs(alloc)?,
            index_id: 11,
            sequence: 5,
            known_id: 0,
            known_sequence: 0,
        }],
    );
    Some(Message::ClusterConfig(Items::new(named.ok()?)))
}

// The message of this letter.
fn message(alloc: Global, letter: u8) -> Option<Message> {
    match letter {
        b'c' => config(alloc),
        b'n' => Some(Message::ClusterConfig(Items::new(Vec::new(alloc)))),
        b'i' => index(alloc, docs(alloc)?),
        b'm' => index(alloc, FolderName::read(alloc, b"music").ok()?),
        b'u' => update(alloc, docs(alloc)?),
        _ => Some(Message::Response(Response {
            id: 9,
            code: Code::NoError,
            bytes: Bytes::none(),
        })),
    }
}

fn index(alloc: Global, folder: FolderName) -> Option<Message> {
    Some(Message::Index(folder, batch(alloc, 5)?))
}

fn update(alloc: Global, folder: FolderName) -> Option<Message> {
    Some(Message::IndexUpdate(folder, batch(alloc, 5)?))
}

type Answer = Result<Moved, PeerError>;

// What device 2 answers last, where these messages come to it one after the other.
fn delivered(
    alloc: Global,
    peer: &mut Peer<FaultStore<MemStore>>,
    link: &mut Link,
    letters: &[u8],
) -> Option<Answer> {
    let mut answer = None;
    for letter in letters {
        link.push(Side::Upper, message(alloc, *letter)?).ok()?;
        answer = Some(peer.deliver(link));
    }
    answer
}

// Whether the link is up, and whether messages wait at its lower and its upper end.
fn waiting(link: &Link) -> [bool; 3] {
    [
        link.is_up(),
        link.waiting(Side::Lower, 0).is_some(),
        link.waiting(Side::Upper, 0).is_some(),
    ]
}

// The point of the view that device 2 has of device 1, and the sequence of its record; 0 where there is none.
fn viewed(alloc: Global, peer: &Peer<FaultStore<MemStore>>) -> Option<[u64; 3]> {
    let docs = docs(alloc)?;
    let name = name(alloc, b'd')?;
    let Some(view) = peer.replica(&docs)?.view(DeviceId::read(1)?) else {
        return Some([0, 0, 0]);
    };
    let (id, max) = view.point();
    let sequence = match view.get(&name) {
        Some(record) => record.entry().sequence,
        None => 0,
    };
    Some([id, max, sequence])
}

// All this, in a session that device 2 began.
type Told = ((Answer, [bool; 3]), [u64; 3]);

fn met(
    alloc: Global,
    peer: &mut Peer<FaultStore<MemStore>>,
    link: &mut Link,
    letters: &[u8],
) -> Option<Told> {
    link.connect().ok()?;
    peer.begin(link).ok()?;
    let answer = delivered(alloc, peer, link, letters)?;
    Some(((answer, waiting(link)), viewed(alloc, peer)?))
}

fn told(alloc: Global, letters: &[u8]) -> Option<Told> {
    let cluster = cluster(alloc, [0, 0, 0])?;
    let (mut peers, mut links) = cluster.into_parts();
    match (peers.get_mut(1), links.first_mut()) {
        (Some(peer), Some(link)) => met(alloc, peer, link, letters),
        _ => None,
    }
}

// By this project's profile: 'a message that breaks the protocol loses the link'; what device 2 sent first is lost too. These
// are a second ClusterConfig; an Index before any, of a folder that it didn't name, and of one that there isn't; and an
// IndexUpdate that begins where the view ends. An answer to nothing is ignored.
#[test]
fn what_breaks_the_protocol_loses_the_link(rt: HostRuntime) {
    let lost = (Ok(Moved::LinkLost), [false, false, false]);
    let taken = (Ok(Moved::Changed), [true, true, false]);
    let (nothing, known) = ([0, 0, 0], [11, 5, 5]);
    for (letters, end) in [
        ("cic", (lost, known)),
        ("i", (lost, nothing)),
        ("ni", (lost, nothing)),
        ("cim", (lost, known)),
        ("ciu", (lost, known)),
        ("cir", (taken, known)),
    ] {
        assert_eq!(rt;
            told(rt.alloc(), letters.as_bytes()),
            Some(end),
            "{letters}"
        );
    }
}
