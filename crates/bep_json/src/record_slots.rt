//! Records, whose members are read as a walk along a document's text comes to them.
ghost use Rattle.std.specs.Prelude.{◌≡◌, ◌<◌, false, length, OnOk};
ghost use Rattle.bep_tree.specs.Walk.{Reaches};
ghost use Rattle.bep_json.specs.Records.{is_record, read_record, says_file, says_present};
ghost use Rattle.bep_json.specs.Taking.{misread_of, with_told, TakesOnto};
ghost use Rattle.bep_json.specs.inner.Said.{said, said_or, optional};
ghost use Rattle.bep_json.specs.inner.Records.{record_names, record_slots, tells_due_block_size, record_things, record_of, record_told};

use crate::records::{AnyBlockSize, FileSize, Hashes, blocks_of, default_block_size};
use crate::{
    DocVersion, Misread, Nanoseconds, Sequence, Slots, Taken, Told, Whole, both, due, due_or, fill,
    fill_leaf, fill_object,
};
use bep_record::{DeviceId, Entry, Items, Kind, Name, Target, Version};
use bep_tree::{Reader, WalkError};
use std::alloc::Global;

// The pairs that a version vector is made of.
type Counters = Items<(u64, u64)>;

// The things that the members say.
type RecordThings = (
    Name,
    (
        Kind,
        (
            i64,
            (
                DeviceId,
                (
                    Counters,
                    (
                        Sequence,
                        (
                            FileSize,
                            (
                                Nanoseconds,
                                (bool, (bool, (Option<AnyBlockSize>, (Hashes, Target)))),
                            ),
                        ),
                    ),
                ),
            ),
        ),
    ),
);

// What is told of the members of a record.
#[derive(Drop)]
pub(crate) struct RecordSlots {
    name: Option<Told<Name>>,
    kind: Option<Told<Kind>>,
    modified_s: Option<Told<i64>>,
    modified_by: Option<Told<DeviceId>>,
    counters: Option<Told<Counters>>,
    sequence: Option<Told<Sequence>>,
    size: Option<Told<FileSize>>,
    modified_ns: Option<Told<Nanoseconds>>,
    deleted: Option<Told<bool>>,
    invalid: Option<Told<bool>>,
    block_size: Option<Told<AnyBlockSize>>,
    hashes: Option<Told<Hashes>>,
    target: Option<Told<Target>>,
}

impl Slots for RecordSlots {
    ghost names = { record_names };

    ghost known = { record_slots };

    fn none() -> Self {
        RecordSlots {
            name: None,
            kind: None,
            modified_s: None,
            modified_by: None,
            counters: None,
            sequence: None,
            size: None,
            modified_ns: None,
            deleted: None,
            invalid: None,
            block_size: None,
            hashes: None,
            target: None,
        }
    }

    fn take(
        &mut self,
        alloc: Global,
        version: DocVersion,
        key: &str,
        reader: &mut Reader<'_>,
        depth: usize,
    ) -> Result<bool, WalkError> {
        match key {
            "name" => fill_leaf(&mut self.name, alloc, version, reader, depth),
            "type" => fill_leaf(&mut self.kind, alloc, version, reader, depth),
            "modified_s" => fill_leaf(&mut self.modified_s, alloc, version, reader, depth),
            "modified_by" => fill_leaf(&mut self.modified_by, alloc, version, reader, depth),
            "version" => fill(&mut self.counters, alloc, version, reader, depth),
            "sequence" => fill_leaf(&mut self.sequence, alloc, version, reader, depth),
            "size" => fill_leaf(&mut self.size, alloc, version, reader, depth),
            "modified_ns" => fill_leaf(&mut self.modified_ns, alloc, version, reader, depth),
            "deleted" => fill_leaf(&mut self.deleted, alloc, version, reader, depth),
            "invalid" => fill_leaf(&mut self.invalid, alloc, version, reader, depth),
            "block_size" => fill_leaf(&mut self.block_size, alloc, version, reader, depth),
            "blocks" => fill(&mut self.hashes, alloc, version, reader, depth),
            "target" => fill_leaf(&mut self.target, alloc, version, reader, depth),
            _ => Ok(false),
        }
    }
}

// A record's fields are made behind others, where they are to stand: each result that they are part of would copy them.
impl Taken for Entry {
    fn take(
        alloc: Global,
        version: DocVersion,
        reader: &mut Reader<'_>,
        depth: usize,
    ) -> Result<Told<Self>, WalkError> {
        let mut alone = Vec::with_capacity(alloc, 1)?;
        let misread = take_record(&mut alone, alloc, version, reader, depth)?;
        match alone.pop() {
            Some(record) => Ok(Ok(record)),
            None => Ok(Err(misread.unwrap_or(Misread::Shape))),
        }
    }

    fn take_onto(
        things: &mut Vec<Self>,
        alloc: Global,
        version: DocVersion,
        reader: &mut Reader<'_>,
        depth: usize,
    ) -> Result<Option<Misread>, WalkError> {
        take_record(things, alloc, version, reader, depth)
    }
}

// Takes the value that comes next, and puts the record that it says behind these.
fn take_record(
    records: &mut Vec<Entry>,
    alloc: Global,
    version: DocVersion,
    reader: &mut Reader<'_>,
    depth: usize,
) -> Result<Option<Misread>, WalkError>
    ensures value { TakesOnto (is_record version) (read_record version) depth records.old.items reader.old result records.new.items reader.new }
    ensures shorter { OnOk result (length reader.new < length reader.old) }
{
    let mut slots = RecordSlots::none();
    if !fill_object(&mut slots, alloc, version, reader, depth)? {
        return Ok(Some(Misread::Shape));
    }
    put_record(records, alloc, version, slots)
}

// Puts the record behind these, if its members say one; or tells why they say none.
fn put_record(
    records: &mut Vec<Entry>,
    alloc: Global,
    version: DocVersion,
    slots: RecordSlots,
) -> Result<Option<Misread>, WalkError>
    ensures { Reaches result (λ misread. (misread ≡ misread_of (record_told version slots)) × (records.new.items ≡ with_told records.old.items (record_told version slots))) }
{
    if !tells_due_block_size(version, &slots) {
        return Ok(Some(Misread::Shape));
    }
    match things_told(alloc, slots) {
        Ok(things) => put_record_of(records, alloc, things),
        Err(misread) => Ok(Some(misread)),
    }
}

// Whether the record says its block size, where its document's version asks for that: in version 2, where it is of a
// file that isn't deleted.
fn tells_due_block_size(version: DocVersion, slots: &RecordSlots) -> bool
    ensures { result ≡ tells_due_block_size version slots.now }
{
    match version {
        DocVersion::One => true,
        DocVersion::Two => !(is_file(slots) && is_present(slots)) || slots.block_size.is_some(),
    }
}

// Whether the record says that it is of a file.
fn is_file(slots: &RecordSlots) -> bool
    ensures { result ≡ says_file (said slots.now.kind) }
{
    match slots.kind {
        Some(Ok(Kind::File)) => true,
        _ => false,
    }
}

// Whether the record doesn't say that it is deleted.
fn is_present(slots: &RecordSlots) -> bool
    ensures { result ≡ says_present (said_or false slots.now.deleted) }
{
    match slots.deleted {
        None => true,
        Some(Ok(deleted)) => !deleted,
        Some(Err(_)) => false,
    }
}

// What is told of all members.
fn things_told(alloc: Global, slots: RecordSlots) -> Told<RecordThings>
    ensures { result ≡ record_things slots }
{
    let RecordSlots {
        name,
        kind,
        modified_s,
        modified_by,
        counters,
        sequence,
        size,
        modified_ns,
        deleted,
        invalid,
        block_size,
        hashes,
        target,
    } = slots;
    let hashes = due_or(hashes, Items::new(Vec::new(alloc)));
    let told = both(hashes, due_or(target, Target::empty(alloc)));
    let told = both(optional(block_size), told);
    let told = both(due_or(invalid, false), told);
    let told = both(due_or(deleted, false), told);
    let told = both(due_or(modified_ns, Whole::new(0)), told);
    let told = both(due_or(size, FileSize::zero()), told);
    let told = both(due(sequence), told);
    let told = both(due(counters), told);
    let told = both(due(modified_by), told);
    let told = both(due(modified_s), told);
    let told = both(due(kind), told);
    both(due(name), told)
}

// Whether a member is there, and what it says.
fn optional<T: Drop>(found: Option<Told<T>>) -> Told<Option<T>>
    ensures { result ≡ optional found }
{
    match found {
        Some(Ok(thing)) => Ok(Some(thing)),
        Some(Err(misread)) => Err(misread),
        None => Ok(None),
    }
}

// Puts the record that has these things behind these, where its counters are a version vector.
#[tactic(auto, using(crate::proofs::ListFacts::version_decides))]
fn put_record_of(
    records: &mut Vec<Entry>,
    alloc: Global,
    things: RecordThings,
) -> Result<Option<Misread>, WalkError>
    ensures { Reaches result (λ misread. (misread ≡ misread_of (record_of things)) × (records.new.items ≡ with_told records.old.items (record_of things))) }
{
    let (name, (kind, (modified_s, (modified_by, things)))) = things;
    let (counters, (sequence, (size, (modified_ns, things)))) = things;
    let (deleted, (invalid, (block_size, (hashes, target)))) = things;
    let blocks = blocks_of(alloc, size.bytes(), hashes.as_slice())?;
    let block_size = block_size.unwrap_or(default_block_size(kind, deleted));
    let Some(version) = Version::read(alloc, counters.as_slice())? else {
        return Ok(Some(Misread::Range));
    };
    records.push(Entry {
        name,
        kind,
        size: size.bytes(),
        modified_s,
        modified_ns: modified_ns.number() as u32,
        modified_by,
        deleted,
        invalid,
        no_permissions: true,
        version,
        sequence: sequence.number(),
        block_size: block_size.number() as u32,
        blocks,
        target,
    })?;
    Ok(None)
}
