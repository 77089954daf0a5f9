//! Records that the tests of several crates make.
use bep_record::{DeviceId, Entry, Items, Kind, Name, Record, Target, Version};
use std::alloc::Global;

/// What a test says of a directory, whose name has one letter; all else is the same in each.
#[derive(Clone, Copy)]
pub struct Said {
    pub letter: u8,
    pub sequence: u64,
    pub counter: (u64, u64),
    pub deleted: bool,
    pub invalid: bool,
}

pub fn record(alloc: Global, said: Said) -> Option<Record> {
    let modified_by = DeviceId::read(1)?;
    let version = Version::read(alloc, &[said.counter]).ok()??;
    let name = Name::read(alloc, &[said.letter]).ok()?;
    let entry = Entry {
        name,
        kind: Kind::Directory,
        size: 0,
        modified_s: 5,
        modified_ns: 0,
        modified_by,
        deleted: said.deleted,
        invalid: said.invalid,
        no_permissions: true,
        version,
        sequence: said.sequence,
        block_size: 0,
        blocks: Items::new(Vec::new(alloc)),
        target: Target::empty(alloc),
    };
    Record::read(alloc, entry).ok()?
}

/// The directory of this letter under this sequence.
pub fn numbered(alloc: Global, letter: u8, sequence: u64) -> Option<Record> {
    let said = Said {
        letter,
        sequence,
        counter: (1, 1),
        deleted: false,
        invalid: false,
    };
    record(alloc, said)
}
