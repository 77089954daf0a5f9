//! Calls that no other test makes: with ample memory none answers want of it.
use super::made::{Docs, batch, edited, folder, record, sent};
use bep_blocks::OpenGate;
use bep_folder::ScanResult;
use bep_record::{DeviceId, FolderKind, Name, Node};
use std::alloc::Global;
use std::thread::Threads;

// A file is scanned, read out and removed.
fn called(docs: &mut Docs) -> [bool; 4] {
    [
        docs.folder.scan(&docs.notes).is_ok(),
        docs.folder.names().is_ok(),
        docs.folder.copy_out().is_ok(),
        docs.folder.remove(&docs.notes).is_ok(),
    ]
}

fn files(alloc: Global) -> Option<[bool; 4]> {
    let mut docs = folder(alloc, FolderKind::SendReceive, 0)?;
    edited(alloc, &mut docs, b"hello")?;
    Some(called(&mut docs))
}

// Device 1 sends an IndexUpdate, and its view is taken away and given back.
fn views(alloc: Global) -> Option<[bool; 3]> {
    let mut docs = folder(alloc, FolderKind::SendReceive, 0)?;
    let batch = batch(alloc, record(alloc, 1, &[(1, 1)], b"hello")?)?;
    let other = DeviceId::read(1)?;
    Some([
        docs.folder.may_amend(other, &batch).is_ok(),
        docs.folder.amend_view(other, batch).is_ok(),
        docs.folder.exchange_view(other, None).is_ok(),
    ])
}

fn overridden(alloc: Global) -> Option<bool> {
    let mut docs = folder(alloc, FolderKind::SendOnly, 0)?;
    sent(alloc, &mut docs, record(alloc, 1, &[(1, 1)], b"hello")?)?;
    Some(docs.folder.override_one(&docs.notes).is_ok())
}

fn looked_at(alloc: Global) -> Option<(Name, Option<Node>)> {
    let mut docs = folder(alloc, FolderKind::SendReceive, 0)?;
    edited(alloc, &mut docs, b"hello")?;
    let node = docs.folder.look(&docs.notes).ok()?;
    Some((docs.notes.copy(alloc).ok()?, node))
}

fn hashed<R: Threads + Sync>(rt: &R, alloc: Global) -> Option<bool> {
    let (name, node) = looked_at(alloc)?;
    Some(ScanResult::hash(rt, alloc, &OpenGate, name, node, 2).is_ok())
}

#[test]
fn folders_find_memory(rt: HostRuntime) {
    let alloc = rt.alloc();
    assert_eq!(rt; files(alloc), Some([true; 4]));
    assert_eq!(rt; views(alloc), Some([true; 3]));
    assert_eq!(rt; overridden(alloc), Some(true));
    assert_eq!(rt; hashed(&rt, alloc), Some(true));
}
