//! Records that are well formed.
ghost use Rattle.std.specs.Prelude.{◌≡◌, IfOk, IsOk, SomeIff};
ghost use Rattle.bep_record.specs.Block.{block_size_of};
ghost use Rattle.bep_record.specs.Content.{content_of, content_lent};
ghost use Rattle.bep_record.specs.Entry.{IsWellFormed};

use crate::{BlockSize, Content, Entry, Kind};
use std::alloc::{AllocError, Global};
use std::marker::Model;
use std::sync::Arc;

/// What an index says of one name; its fields are well formed.
///
/// The copies of a record share its fields, so a copy takes no memory: one record often stands in an index, in several views
/// of it and in many messages at once.
///
/// BEP v1, 'FileInfo'; the limits are this project's profile.
#[derive(Debug)]
pub struct Record {
    entry: Arc<Entry, Global>,
}

// By hand: a caller's proof then sees one call where it lets go of one, and not each field (docs/developing.md).
impl Drop for Record {
    fn drop(self) {
        let Record { entry: _ } = self;
    }
}

impl Model for Record {
    ghost use Rattle.bep_record.specs.declared.entry.Entry.{Entry};
    ghost use Rattle.bep_record.specs.Entry.{IsWellFormed};
    ghost use Rattle.std.specs.Arc.{arc_value};

    ghost Value = { Entry };

    ghost view = { λ r. arc_value r.entry };

    ghost invariant = { λ r. IsWellFormed (arc_value r.entry) };
}

impl Record {
    /// The record of these fields, `None` where they aren't well formed. Where they are it may be want of memory.
    pub fn read(alloc: Global, entry: Entry) -> Result<Option<Self>, AllocError>
        ensures read { IfOk result (λ made. SomeIff made (IsWellFormed entry) entry) }
        ensures unfit { ¬ IsWellFormed entry → IsOk result }
    {
        if entry.is_well_formed() {
            Ok(Some(Record::of(alloc, entry)?))
        } else {
            Ok(None)
        }
    }

    /// The record of fields that are known to be well formed, or want of memory. It tests nothing.
    pub fn of(alloc: Global, entry: Entry) -> Result<Self, AllocError>
        requires { IsWellFormed entry }
        ensures { IfOk result (λ made. made ≡ entry) }
    {
        Ok(Record {
            entry: Arc::new(alloc, entry)?,
        })
    }

    /// The fields.
    pub fn entry(&self) -> &Entry
        ensures value { result.now ≡ self.now }
        ensures well_formed { IsWellFormed self.now }
    {
        &self.entry
    }

    /// The record under another sequence number, or want of memory.
    pub fn numbered(self, alloc: Global, sequence: u64) -> Result<Self, AllocError>
        ensures { IfOk result (λ made. made ≡ record self { sequence = sequence }) }
    {
        let mut entry = self.into_entry(alloc)?;
        entry.sequence = sequence;
        Record::of(alloc, entry)
    }

    /// The fields, for a record made of them; copied where other records share them. Or want of memory.
    pub fn into_entry(self, alloc: Global) -> Result<Entry, AllocError>
        ensures value { IfOk result (λ entry. entry ≡ self) }
        ensures well_formed { IsWellFormed self }
    {
        let Record { entry } = self;
        match Arc::try_unwrap(entry) {
            Ok(entry) => Ok(entry),
            Err(shared) => shared.copy(alloc),
        }
    }

    /// The block size of the record's file; of all else, which has size 0, that of an empty file.
    #[tactic(auto, using(crate::proofs::BlockSizeFacts::few_bytes))]
    pub fn block_size(&self) -> BlockSize
        ensures { result ≡ block_size_of self.now.size }
    {
        match BlockSize::of_length(self.entry.size) {
            Ok(size) => size,
            Err(_) => unreachable!(),
        }
    }

    /// An equal record, or want of memory. It has the same fields in memory, unless so many records share them that they
    /// can't be counted.
    pub fn copy(&self, alloc: Global) -> Result<Self, AllocError>
        ensures { IfOk result (λ made. made ≡ self.now) }
    {
        let entry = match Arc::try_clone(&self.entry) {
            Ok(shared) => shared,
            Err(_) => Arc::new(alloc, self.entry.copy(alloc)?)?,
        };
        Ok(Record { entry })
    }

    /// What the name is, by this record.
    pub fn content(&self) -> Content<'_>
        ensures { content_lent result ≡ content_of self.now }
    {
        let entry = &self.entry;
        if entry.deleted {
            return Content::Deleted;
        }
        match entry.kind {
            Kind::File => Content::File(entry.blocks.as_slice()),
            Kind::Directory => Content::Directory,
            Kind::Symlink => Content::Symlink(&entry.target),
        }
    }
}
