//! What the tests are about: the folder `docs` at device 2, which shares it with device 1, and what becomes of one file.
use bep_blocks::blocks;
use bep_folder::{FolderError, Replica, ScanResult};
use bep_index::{Batch, IndexId};
use bep_machine::Moved;
use bep_record::{
    BASE_BLOCK_SIZE, BlockSize, DeviceId, Entry, FolderKind, FolderName, Items, Kind, Name, Node,
    NodeParts, Record, Target, Version,
};
use bep_store::{FaultStore, MemStore};
use std::alloc::Global;

/// The folder, and the name of the file.
#[derive(Drop)]
pub(crate) struct Docs {
    pub(crate) folder: Replica<FaultStore<MemStore>>,
    pub(crate) notes: Name,
}

// The folder in this kind, over a store without files of which this call fails.
fn replica(alloc: Global, kind: FolderKind, call: u64) -> Option<Replica<FaultStore<MemStore>>> {
    let (device, other) = (DeviceId::read(2)?, DeviceId::read(1)?);
    let id = IndexId::read(12)?;
    let docs = FolderName::read(alloc, b"docs").ok()?;
    let others = Vec::from_array(alloc, [other]).ok()?;
    let store = FaultStore::new(MemStore::new(alloc), call);
    Replica::new(alloc, device, docs, kind, id, others, store)
}

/// That folder, and the name.
pub(crate) fn folder(alloc: Global, kind: FolderKind, call: u64) -> Option<Docs> {
    let notes = Name::read(alloc, b"notes.txt").ok()?;
    let folder = replica(alloc, kind, call)?;
    Some(Docs { folder, notes })
}

/// The record of the file with these bytes that this device made.
pub(crate) fn record(
    alloc: Global,
    device: u64,
    version: &[(u64, u64)],
    bytes: &[u8],
) -> Option<Record> {
    let modified_by = DeviceId::read(device)?;
    let version = Version::read(alloc, version).ok()??;
    let name = Name::read(alloc, b"notes.txt").ok()?;
    let blocks = blocks(alloc, bytes, BlockSize::base()).ok()?;
    let entry = Entry {
        name,
        kind: Kind::File,
        size: bytes.len() as u64,
        modified_s: 2000,
        modified_ns: 0,
        modified_by,
        deleted: false,
        invalid: false,
        no_permissions: true,
        version,
        sequence: 1,
        block_size: BASE_BLOCK_SIZE,
        blocks,
        target: Target::empty(alloc),
    };
    Record::read(alloc, entry).ok()?
}

/// An Index of this one record.
pub(crate) fn batch(alloc: Global, record: Record) -> Option<Batch> {
    let records = Vec::from_array(alloc, [record]).ok()?;
    Batch::new(records).ok()
}

/// Device 1 sends an Index of this one record.
pub(crate) fn sent(alloc: Global, docs: &mut Docs, record: Record) -> Option<()> {
    let batch = batch(alloc, record)?;
    docs.folder.replace_view(DeviceId::read(1)?, batch).ok()
}

/// A user puts a file of these bytes.
pub(crate) fn edited(alloc: Global, docs: &mut Docs, bytes: &[u8]) -> Option<Moved> {
    let bytes = Vec::from_slice(alloc, bytes).ok()?;
    let made = Node::read(NodeParts {
        kind: Kind::File,
        bytes: Items::new(bytes),
        target: Target::empty(alloc),
        modified_s: 999,
        modified_ns: 0,
    });
    docs.folder.edit(&docs.notes, &made.ok()?).ok()
}

/// What stands at the name.
pub(crate) fn seen(alloc: Global, docs: &mut Docs) -> Result<ScanResult, FolderError> {
    let name = docs.notes.copy(alloc)?;
    let node = docs.folder.look(&docs.notes)?;
    ScanResult::plain(alloc, name, node)
}

// The first byte of the file; 0 where there is none.
fn first_byte(docs: &mut Docs) -> u8 {
    match docs.folder.look(&docs.notes) {
        Ok(Some(node)) => match node.parts().bytes.as_slice() {
            [first, ..] => *first,
            [] => 0,
        },
        _ => 0,
    }
}

// The own record's sequence, its counters of devices 1 and 2, and 1 where it is deleted, 2 where it is marked local-only.
fn own(docs: &Docs) -> Option<[u64; 4]> {
    let (one, two) = (DeviceId::read(1)?, DeviceId::read(2)?);
    let entry = docs.folder.index().get(&docs.notes)?.entry();
    let mark = u64::from(entry.deleted) + 2 * u64::from(entry.invalid);
    Some([
        entry.sequence,
        entry.version.get(one),
        entry.version.get(two),
        mark,
    ])
}

// The number of a refusal; 0 where something changed.
fn number(answer: Result<Moved, FolderError>) -> u32 {
    match answer {
        Ok(Moved::Changed) => 0,
        Ok(_) => 1,
        Err(error) => error.number().unwrap_or(2),
    }
}

/// The number of a refusal, 0 for none, and which call of the store failed, 0 for none; whether a conflict copy was written;
/// the first byte of the file; and of the own record its sequence, its counters of devices 1 and 2, and 1 where it is
/// deleted, 2 where it is marked local-only.
pub(crate) type Told = ((u32, u32, bool), u8, [u64; 4]);

/// What is told of an answer, and stands then.
pub(crate) fn told(docs: &mut Docs, answer: Result<Moved, FolderError>) -> Told {
    let (failed, copied) = docs.folder.trace();
    (
        (number(answer), failed.unwrap_or(0), copied),
        first_byte(docs),
        own(docs).unwrap_or([0, 0, 0, 0]),
    )
}
