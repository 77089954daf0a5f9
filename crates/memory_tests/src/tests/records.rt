//! `bep_record` and `bep_blocks`.
use super::made::{docs, entry, node, parts, record};
use bep_blocks::blocks_of_hashes;
use bep_record::{
    BlockSize, DeviceId, Duplicate, Entry, FolderName, HASH_OF_NOTHING, Items, Node, NodeParts,
    Record, Target, Vector, Version, conflict_name,
};
use std::alloc::{AllocError, Global};

fn names(alloc: Global) -> Option<[bool; 2]> {
    let (folder, target) = (docs(alloc)?, Target::read(alloc, b"b").ok()?);
    Some([
        FolderName::copy(&folder, alloc).is_ok(),
        Target::copy(&target, alloc).is_ok(),
    ])
}

fn nodes(alloc: Global) -> Option<[bool; 3]> {
    let (parts, node) = (parts(alloc)?, node(alloc)?);
    Some([
        NodeParts::copy(&parts, alloc).is_ok(),
        Node::copy(&node, alloc).is_ok(),
        Duplicate::duplicate(&node, alloc).is_ok(),
    ])
}

// The record that is made of a record's own fields.
fn made_again(alloc: Global, record: Record) -> Result<Record, AllocError> {
    Record::of(alloc, record.into_entry(alloc)?)
}

fn records(alloc: Global) -> Option<[bool; 6]> {
    let (entry, record) = (entry(alloc, 1)?, record(alloc, 1)?);
    let copy = Record::copy(&record, alloc).ok()?;
    let shared = Record::copy(&record, alloc).ok()?;
    Some([
        Entry::copy(&entry, alloc).is_ok(),
        Record::read(alloc, entry).is_ok(),
        conflict_name(alloc, &record).is_ok(),
        Record::into_entry(shared, alloc).is_ok(),
        Record::numbered(copy, alloc, 2).is_ok(),
        made_again(alloc, record).is_ok(),
    ])
}

fn vectors() -> Option<[bool; 2]> {
    let (device, other) = (DeviceId::read(2)?, Vector::read(&[(3, 1)])?);
    let mut vector = Vector::empty();
    Some([vector.bump(device).is_ok(), vector.merge(&other).is_ok()])
}

fn versions(alloc: Global) -> Option<[bool; 3]> {
    let version = Version::of(alloc, &Vector::read(&[(3, 1)])?).ok()?;
    Some([
        Version::read(alloc, &[(3, 1)]).is_ok(),
        Version::of(alloc, &version.vector()).is_ok(),
        Version::copy(&version, alloc).is_ok(),
    ])
}

fn block_lists(alloc: Global) -> Option<[bool; 2]> {
    let list = blocks_of_hashes(alloc, &[HASH_OF_NOTHING], 0, BlockSize::base()).ok()?;
    Some([list.is_some(), Items::copy(&list?, alloc).is_ok()])
}

#[test]
fn records_find_memory(rt: HostRuntime) {
    let alloc = rt.alloc();
    assert!(rt; names(alloc) == Some([true; 2]));
    assert!(rt; nodes(alloc) == Some([true; 3]));
    assert!(rt; records(alloc) == Some([true; 6]));
    assert!(rt; vectors() == Some([true; 2]));
    assert!(rt; versions(alloc) == Some([true; 3]));
    assert!(rt; block_lists(alloc) == Some([true; 2]));
}
