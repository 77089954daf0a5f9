//! What may become of a folder over a store that fails one of its calls.
use super::made::{Docs, Told, folder};
use super::{pulls, scans};
use bep_record::FolderKind;
use std::alloc::Global;

/// What is done, of which two answers are told.
#[derive(Clone, Copy)]
pub(crate) enum Story {
    /// A file that both devices changed is pulled, and the pull is ended twice.
    Conflict,
    /// The same, where the version that both would have has too many counters.
    Crowded,
    /// A pull that has its bytes is handed other ones, and its own once more.
    Bytes,
    /// A new file is scanned twice.
    Scans,
    /// A file is changed before what was seen of it is recorded, and then scanned again.
    LateScan,
    /// A file whose version has the last counter is changed, and scanned twice.
    LastCounter,
    /// The store is read out twice.
    Reading,
    /// A local change is taken back twice.
    Revert,
}

fn tell(alloc: Global, docs: &mut Docs, story: Story) -> Option<[Told; 2]> {
    match story {
        Story::Conflict => pulls::conflicted(alloc, docs),
        Story::Crowded => pulls::crowded(alloc, docs),
        Story::Bytes => pulls::handed(alloc, docs),
        Story::Scans => scans::scanned_twice(alloc, docs, b"hello"),
        Story::LateScan => scans::scanned_late(alloc, docs),
        Story::LastCounter => scans::counted_out(alloc, docs),
        Story::Reading => scans::read_twice(alloc, docs),
        Story::Revert => scans::reverted_twice(alloc, docs),
    }
}

/// What is told of it in a folder of this kind, where this call of the store fails.
pub(crate) fn told_of(
    alloc: Global,
    kind: FolderKind,
    call: u64,
    story: Story,
) -> Option<[Told; 2]> {
    let mut docs = folder(alloc, kind, call)?;
    tell(alloc, &mut docs, story)
}
