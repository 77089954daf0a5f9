//! A device's own index of a folder.
ghost use Rattle.std.specs.Prelude.{◌≡◌, ◌⊎◌, ◌↔◌, ◌+◌, ◌≤◌, ℕ, take, drop, slice_get, IfOk, IfErr, OnOk, OnErr, IsErrOf};
ghost use Rattle.std.specs.Option.{option_copied};
ghost use Rattle.std.specs.FinMap as map;
ghost use Rattle.bep_index.specs.Good.{AreGood};
ghost use Rattle.bep_index.specs.Index.{IsIndex, IsSequenceFull, IsIndexFull, IsPutError, after_put, numbered};
ghost use Rattle.bep_index.specs.After.{IsAfter};
ghost use Rattle.bep_index.specs.declared.limits.TheConstants.{MAX_NAMES, MAX_RECORDS};
ghost use Rattle.bep_index.specs.Batch.{IsBatch};
ghost use Rattle.bep_index.specs.Order.{in_order, count_up_to};
ghost use Rattle.bep_index.specs.Change.{IsLastChange, taken_back};

use crate::good::{old_is_good, record_is_good};
use crate::records::Records;
use crate::{IndexError, IndexId, MAX_NAMES, MAX_SEQUENCE, Undo};
use bep_record::{Name, Record};
use std::alloc::{AllocError, Global};
use std::marker::Model;

/// A device's records of one folder, each under its name. A record that is put gets the next sequence number, so that
/// the numbers tell in which order names were changed.
///
/// BEP v1, 'Index' and 'FileInfo', field 'sequence'; at most 4096 names, by this project's profile.
pub struct Index {
    id: IndexId,
    sequence: u64,
    records: Records,
    alloc: Global,
}

// By hand: a caller's proof then sees one call where it lets go of one, and not each field (docs/developing.md).
impl Drop for Index {
    fn drop(self) {
        let Index {
            id: _,
            sequence: _,
            records: _,
            alloc: _,
        } = self;
    }
}

impl Model for Index {
    ghost use Rattle.bep_record.specs.contracts.entry.Entry as entry;
    ghost use Rattle.bep_index.specs.Listing.{Listing, listing_code};

    ghost Value = { Listing };

    ghost coded = { listing_code entry.the_row.coded };

    ghost use Rattle.std.specs.FinMap.{empty};
    ghost use Rattle.bep_index.specs.Batch.{with_all};
    ghost use Rattle.bep_index.specs.Good.{AreGood};
    ghost use Rattle.bep_index.specs.Index.{IsIndex};
    ghost use Rattle.bep_index.specs.Order.{AreInOrder};

    ghost view = { λ index. record { id = index.id; sequence = index.sequence; records = with_all empty index.records } };

    ghost invariant = { λ index. IsIndex (record { id = index.id; sequence = index.sequence; records = with_all empty index.records }) × AreInOrder index.records × AreGood (with_all empty index.records) };
}

impl Index {
    /// The index of this id, without records.
    pub fn new(alloc: Global, id: IndexId) -> Self
        ensures { result ≡ record { id = id; sequence = 0; records = map.empty } }
    {
        Index {
            id,
            sequence: 0,
            records: Records::new(alloc),
            alloc,
        }
    }

    /// The index's id.
    pub fn id(&self) -> IndexId
        ensures { result ≡ self.now.id }
    {
        self.id
    }

    /// The records are well formed, and so are their versions; the id is 1 or more. It does nothing.
    pub fn records_are_good(&self)
        ensures good { AreGood self.now.records }
        ensures an_index { IsIndex self.now }
        ensures id { 1 ≤ self.now.id }
    {
        self.id.number();
    }

    /// The greatest sequence number that was given, 0 where none was.
    pub fn max_sequence(&self) -> u64
        ensures value { result ≡ self.now.sequence }
        ensures an_index { IsIndex self.now }
    {
        self.sequence
    }

    /// The record of the name.
    pub fn get(&self, name: &Name) -> Option<&Record>
        ensures value { option_copied result ≡ map.get self.now.records name.now }
        ensures an_index { IsIndex self.now }
    {
        self.records.get(name)
    }

    /// The records above the sequence, by rising sequence, at most `limit` of them: the beginning of all that are above
    /// it, or want of memory.
    ///
    /// BEP v1, 'Index' and 'Index Update'.
    pub fn after(
        &self,
        alloc: Global,
        sequence: u64,
        limit: usize,
    ) -> Result<Vec<Record>, AllocError>
        ensures found { IfOk result (λ found. IsAfter self.now.records sequence limit found.items) }
        ensures batch { IfOk result (λ found. limit ≤ MAX_RECORDS → IsBatch found.items) }
    {
        self.records.after(alloc, sequence, limit)
    }

    /// How many records have at most this sequence: the place of the first one above it. What stands from there on, by
    /// `at`, is what `after` gives. Takes no memory.
    pub fn place_above(&self, sequence: u64) -> usize
        ensures value { result ≡ count_up_to sequence (in_order self.now.records) }
        ensures after { (limit : ℕ) → IsAfter self.now.records sequence limit (take limit (drop result (in_order self.now.records))) }
        ensures batch { (limit : ℕ) → limit ≤ MAX_RECORDS → IsBatch (take limit (drop result (in_order self.now.records))) }
        ensures small { result ≤ MAX_NAMES }
        ensures an_index { IsIndex self.now }
    {
        self.records.place_above(sequence)
    }

    /// The record at the place, from 0, by rising sequence. Takes no memory.
    pub fn at(&self, place: usize) -> Option<&Record>
        ensures value { option_copied result ≡ slice_get (in_order self.now.records) place }
        ensures an_index { IsIndex self.now }
    {
        self.records.at(place)
    }

    /// Puts the record at its name, in place of the one that is there, and answers its new number, which is the next
    /// one. Refuses `SequenceFull` exactly where no number is left, and then `IndexFull` exactly where a new name comes
    /// to 4096 others. After an error the index is as before.
    pub fn put(&mut self, entry: Record) -> Result<u64, IndexError>
        ensures number { IfOk result (λ n. n ≡ self.old.sequence + 1) }
        ensures ok { OnOk result (self.new ≡ after_put self.old entry) }

        ensures sequence_full { IsErrOf result IndexError.SequenceFull ↔ IsSequenceFull self.old }
        ensures index_full { IsErrOf result IndexError.IndexFull ↔ ((¬ IsSequenceFull self.old) × IsIndexFull self.old entry.name) }
        ensures only { IfErr result IsPutError }
        ensures err { OnErr result (self.new ≡ self.old) }
    {
        drop(self.put_undo(entry)?);
        Ok(self.sequence)
    }

    /// Puts the record as `put` does, with the same refusals, and answers how that is taken back.
    pub fn put_undo(&mut self, entry: Record) -> Result<Undo, IndexError>
        ensures ok { OnOk result (self.new ≡ after_put self.old entry) }
        ensures back { IfOk result (λ undo. taken_back undo self.new ≡ self.old) }
        ensures last { IfOk result (λ undo. IsLastChange undo self.new) }

        ensures sequence_full { IsErrOf result IndexError.SequenceFull ↔ IsSequenceFull self.old }
        ensures index_full { IsErrOf result IndexError.IndexFull ↔ ((¬ IsSequenceFull self.old) × IsIndexFull self.old entry.name) }
        ensures only { IfErr result IsPutError }
        ensures err { OnErr result (self.new ≡ self.old) }
    {
        let (name, entry) = self.next_record(entry)?;
        record_is_good(&entry);
        let old = self.records.put(self.alloc, entry)?;
        self.sequence += 1;
        Ok(Undo {
            id: self.id,
            given: self.sequence,
            name,
            old,
        })
    }

    /// Refuses what `put` of a record of this name would refuse, and takes no memory.
    pub fn must_have_room(&self, name: &Name) -> Result<(), IndexError>
        ensures sequence_full { IsErrOf result IndexError.SequenceFull ↔ IsSequenceFull self.now }
        ensures index_full { IsErrOf result IndexError.IndexFull ↔ ((¬ IsSequenceFull self.now) × IsIndexFull self.now name.now) }
        ensures only { IfErr result (λ e. (e ≡ IndexError.SequenceFull) ⊎ (e ≡ IndexError.IndexFull)) }
    {
        if self.sequence == MAX_SEQUENCE {
            return Err(IndexError::SequenceFull);
        }
        if self.records.len() >= MAX_NAMES && self.records.get(name).is_none() {
            return Err(IndexError::IndexFull);
        }
        Ok(())
    }

    // The record under the next number, with a copy of its name before it. Refuses what `put` refuses.
    fn next_record(&self, entry: Record) -> Result<(Name, Record), IndexError>
        ensures name { IfOk result (λ next. next.0 ≡ entry.name) }
        ensures numbered { IfOk result (λ next. next.1 ≡ numbered entry (self.now.sequence + 1)) }

        ensures sequence_full { IsErrOf result IndexError.SequenceFull ↔ IsSequenceFull self.now }
        ensures index_full { IsErrOf result IndexError.IndexFull ↔ ((¬ IsSequenceFull self.now) × IsIndexFull self.now entry.name) }
        ensures only { IfErr result IsPutError }
    {
        let name = self.copy_to_put(&entry.entry().name)?;
        let sequence = self.sequence + 1;
        Ok((name, entry.numbered(self.alloc, sequence)?))
    }

    // A copy of the name, for which there is room and a number. Refuses what `put` refuses.
    fn copy_to_put(&self, name: &Name) -> Result<Name, IndexError>
        ensures copy { IfOk result (λ made. made ≡ name.now) }

        ensures sequence_full { IsErrOf result IndexError.SequenceFull ↔ IsSequenceFull self.now }
        ensures index_full { IsErrOf result IndexError.IndexFull ↔ ((¬ IsSequenceFull self.now) × IsIndexFull self.now name.now) }
        ensures only { IfErr result IsPutError }
    {
        self.must_have_room(name)?;
        Ok(name.copy(self.alloc)?)
    }

    /// Takes the index's last change back: the name has again what it had before, and the number is the next one again.
    /// The caller sees to it that the change is the last one, as it is right after `put_undo`; the index is then as
    /// before that call. Takes no memory.
    pub fn undo(&mut self, undo: Undo)
        requires { IsLastChange undo self.old }
        ensures { self.new ≡ taken_back undo self.old }
    {
        let Undo { name, old, .. } = undo;
        old_is_good(old.as_ref());
        self.records.give_back(&name, old);
        self.sequence -= 1;
    }

    /// An equal index of its own, or want of memory.
    pub fn copy(&self, alloc: Global) -> Result<Self, AllocError>
        ensures { IfOk result (λ made. made ≡ self.now) }
    {
        Ok(Index {
            id: self.id,
            sequence: self.sequence,
            records: self.records.copy(alloc)?,
            alloc,
        })
    }
}
