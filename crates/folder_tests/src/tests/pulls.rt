//! A file that another device changed, as it is pulled: into a store that fails, and by bytes that are handed to it. What each
//! end leaves was worked out by hand, by BEP v1, 'Vector', and by this project's profile.
use super::made::{Docs, Told, record, sent, told};
use super::stories::{Story, told_of};
use bep_folder::Pull;
use bep_machine::Moved;
use bep_record::{DeviceId, FolderKind, Record};
use std::alloc::Global;

/// Device 2 pulls this record of a file of these bytes from device 1, and receives them.
pub(crate) fn pulled(
    alloc: Global,
    docs: &mut Docs,
    record: Option<Record>,
    bytes: &[u8],
) -> Option<()> {
    sent(alloc, docs, record?)?;
    docs.folder.start_pull(&docs.notes).ok()?;
    docs.folder.add_block(&docs.notes, 0, bytes).ok()
}

fn ended(docs: &mut Docs) -> Told {
    let answer = docs.folder.finish(&docs.notes);
    told(docs, answer)
}

// It takes its own file `abc` of this version back so, and then pulls what device 1 changed beside it.
fn beside(
    alloc: Global,
    docs: &mut Docs,
    own: &[(u64, u64)],
    other: &[(u64, u64)],
) -> Option<[Told; 2]> {
    pulled(alloc, docs, record(alloc, 2, own, b"abc"), b"abc")?;
    docs.folder.finish(&docs.notes).ok()?;
    pulled(alloc, docs, record(alloc, 1, other, b"hello"), b"hello")?;
    Some([ended(docs), ended(docs)])
}

/// Both devices changed the file.
pub(crate) fn conflicted(alloc: Global, docs: &mut Docs) -> Option<[Told; 2]> {
    beside(alloc, docs, &[(1, 1), (2, 1)], &[(1, 2)])
}

// As many counters as a version has.
const SIXTEEN: [(u64, u64); 16] = [
    (1, 1),
    (2, 2),
    (3, 3),
    (4, 4),
    (5, 5),
    (6, 6),
    (7, 7),
    (8, 8),
    (9, 9),
    (10, 10),
    (11, 11),
    (12, 12),
    (13, 13),
    (14, 14),
    (15, 15),
    (16, 16),
];

/// Sixteen devices changed the file, and a seventeenth did so beside them.
pub(crate) fn crowded(alloc: Global, docs: &mut Docs) -> Option<[Told; 2]> {
    beside(alloc, docs, &SIXTEEN, &[(17, 1)])
}

// The conflict name is looked at, and nothing is written there.
#[test]
fn a_version_has_no_seventeenth_counter(rt: HostRuntime) {
    let full = ((102, 0, false), b'a', [1, 1, 2, 0]);
    let told = told_of(rt.alloc(), FolderKind::SendReceive, 0, Story::Crowded);
    assert_eq!(rt; told, Some([full, full]));
}

fn conflict(alloc: Global, call: u64) -> Option<[Told; 2]> {
    told_of(alloc, FolderKind::SendReceive, call, Story::Conflict)
}

// The own file takes the first two calls of the store. The end of the pull reads the file, reads the conflict name, writes the
// copy there and writes the file.
#[test]
fn a_losing_file_is_kept(rt: HostRuntime) {
    let (before, after) = ([1, 1, 1, 0], [2, 2, 1, 0]);
    let done = ((0, 0, true), b'h', after);
    let again = ((142, 0, false), b'h', after);
    assert_eq!(rt; conflict(rt.alloc(), 0), Some([done, again]));
    for failed in 1..4u32 {
        let fault = ((131, failed, false), b'a', before);
        let told = conflict(rt.alloc(), 2 + u64::from(failed));
        assert_eq!(rt; told, Some([fault, done]));
    }
    // the copy stands
    let copied = ((131, 4, true), b'a', before);
    let copy_found = ((0, 0, false), b'h', after);
    assert_eq!(rt; conflict(rt.alloc(), 6), Some([copied, copy_found]));
}

fn handed_bytes(docs: &mut Docs, bytes: &[u8]) -> Told {
    let answer = match docs.folder.add_block(&docs.notes, 0, bytes) {
        Ok(()) => Ok(Moved::Changed),
        Err(error) => Err(error),
    };
    told(docs, answer)
}

// Whether memory was there for a list of what is wanted, and for a copy of the pull.
fn is_copied(alloc: Global, docs: &Docs) -> bool {
    match docs.folder.pull(&docs.notes) {
        Some(pull) => Pull::copy(pull, alloc).is_ok() && docs.folder.wanted_names().is_ok(),
        None => false,
    }
}

/// What another index told is forgotten, and a pull that has its bytes is handed other ones, and its own once more.
pub(crate) fn handed(alloc: Global, docs: &mut Docs) -> Option<[Told; 2]> {
    docs.folder.clear_view(DeviceId::read(1)?, 11).ok()?;
    pulled(alloc, docs, record(alloc, 1, &[(1, 2)], b"hello"), b"hello")?;
    let answers = [handed_bytes(docs, b"hallo"), handed_bytes(docs, b"hello")];
    if is_copied(alloc, docs) {
        Some(answers)
    } else {
        None
    }
}

#[test]
fn bytes_are_the_blocks(rt: HostRuntime) {
    let bad = ((144, 0, false), 0, [0, 0, 0, 0]);
    let good = ((0, 0, false), 0, [0, 0, 0, 0]);
    let told = told_of(rt.alloc(), FolderKind::SendReceive, 0, Story::Bytes);
    assert_eq!(rt; told, Some([bad, good]));
}
