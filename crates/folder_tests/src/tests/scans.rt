//! Scans, reverts and readings that come to nothing: the store fails, the file was changed meanwhile, or the version has no
//! next counter. Worked out by hand, by BEP v1, 'Vector', and by this project's profile.
use super::made::{Docs, Told, edited, record, seen, told};
use super::pulls::pulled;
use super::stories::{Story, told_of};
use bep_folder::FolderError;
use bep_machine::Moved;
use bep_record::{FolderKind, Record};
use std::alloc::Global;

fn committed(alloc: Global, docs: &mut Docs) -> Result<Moved, FolderError> {
    let scan = seen(alloc, docs)?;
    docs.folder.commit(scan)
}

fn scanned(alloc: Global, docs: &mut Docs) -> Told {
    let answer = committed(alloc, docs);
    told(docs, answer)
}

/// A file with these new bytes is scanned.
pub(crate) fn scanned_twice(alloc: Global, docs: &mut Docs, bytes: &[u8]) -> Option<[Told; 2]> {
    edited(alloc, docs, bytes)?;
    Some([scanned(alloc, docs), scanned(alloc, docs)])
}

// The edit is the store's first call, the look the second, and what is put reads once more.
#[test]
fn a_scan_that_cannot_read_records_nothing(rt: HostRuntime) {
    let fault = ((131, 1, false), b'h', [0, 0, 0, 0]);
    let done = ((0, 0, false), b'h', [1, 0, 1, 0]);
    let look = told_of(rt.alloc(), FolderKind::SendReceive, 2, Story::Scans);
    assert_eq!(rt; look, Some([fault, done]));
    let put = told_of(rt.alloc(), FolderKind::SendReceive, 3, Story::Scans);
    assert_eq!(rt; put, Some([fault, done]));
}

fn late(alloc: Global, docs: &mut Docs) -> Result<Moved, FolderError> {
    let scan = seen(alloc, docs)?;
    let _edited = edited(alloc, docs, b"abc");
    docs.folder.commit(scan)
}

/// A file is changed after it was looked at.
pub(crate) fn scanned_late(alloc: Global, docs: &mut Docs) -> Option<[Told; 2]> {
    edited(alloc, docs, b"hello")?;
    let answer = late(alloc, docs);
    Some([told(docs, answer), scanned(alloc, docs)])
}

#[test]
fn a_scan_of_an_earlier_node_is_stale(rt: HostRuntime) {
    let stale = ((148, 0, false), b'a', [0, 0, 0, 0]);
    let done = ((0, 0, false), b'a', [1, 0, 1, 0]);
    let told = told_of(rt.alloc(), FolderKind::SendReceive, 0, Story::LateScan);
    assert_eq!(rt; told, Some([stale, done]));
}

fn read_out(docs: &mut Docs) -> Told {
    let answer = match docs.folder.contents() {
        Ok(_) => Ok(Moved::Changed),
        Err(error) => Err(error),
    };
    told(docs, answer)
}

/// A store with one file is read out, as a cut reads it.
pub(crate) fn read_twice(alloc: Global, docs: &mut Docs) -> Option<[Told; 2]> {
    edited(alloc, docs, b"hello")?;
    Some([read_out(docs), read_out(docs)])
}

// The names are the second call of the store, and the file the third.
#[test]
fn contents_are_all_or_a_fault(rt: HostRuntime) {
    let (names, file) = (
        ((131, 1, false), b'h', [0, 0, 0, 0]),
        ((131, 2, false), b'h', [0, 0, 0, 0]),
    );
    let done = ((0, 0, false), b'h', [0, 0, 0, 0]);
    let unnamed = told_of(rt.alloc(), FolderKind::SendReceive, 2, Story::Reading);
    assert_eq!(rt; unnamed, Some([names, done]));
    let unread = told_of(rt.alloc(), FolderKind::SendReceive, 3, Story::Reading);
    assert_eq!(rt; unread, Some([file, done]));
}

// Device 2 takes over this record of a file `hello` of device 1.
fn taken(alloc: Global, docs: &mut Docs, record: Option<Record>) -> Option<Moved> {
    pulled(alloc, docs, record, b"hello")?;
    docs.folder.finish(&docs.notes).ok()
}

// The greatest counter of a version.
const LAST: u64 = 9223372036854775807;

/// The own record has that counter, and the file is changed.
pub(crate) fn counted_out(alloc: Global, docs: &mut Docs) -> Option<[Told; 2]> {
    taken(alloc, docs, record(alloc, 2, &[(2, LAST)], b"hello"))?;
    scanned_twice(alloc, docs, b"abc")
}

#[test]
fn the_last_counter_is_not_passed(rt: HostRuntime) {
    let full = ((101, 0, false), b'a', [1, 0, LAST, 0]);
    let told = told_of(rt.alloc(), FolderKind::SendReceive, 0, Story::LastCounter);
    assert_eq!(rt; told, Some([full, full]));
}

fn reverted(docs: &mut Docs) -> Told {
    let answer = docs.folder.revert_one(&docs.notes);
    told(docs, answer)
}

/// A local change is taken back.
pub(crate) fn reverted_twice(alloc: Global, docs: &mut Docs) -> Option<[Told; 2]> {
    taken(alloc, docs, record(alloc, 1, &[(1, 1)], b"hello"))?;
    edited(alloc, docs, b"7")?;
    committed(alloc, docs).ok()?;
    Some([reverted(docs), reverted(docs)])
}

// The sixth call of the store reads the file, and the seventh removes it.
#[test]
fn a_revert_that_cannot_remove_leaves_all(rt: HostRuntime) {
    let gone = ((0, 0, false), 0, [3, 0, 0, 1]);
    for (call, failed) in [(6, 1), (7, 2)] {
        let fault = ((131, failed, false), b'7', [2, 1, 0, 2]);
        let told = told_of(rt.alloc(), FolderKind::ReceiveOnly, call, Story::Revert);
        assert_eq!(rt; told, Some([fault, gone]));
    }
}
