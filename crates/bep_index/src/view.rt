//! What a device knows of another device's index.
ghost use Rattle.std.specs.Prelude.{◌≡◌, ◌↔◌, ◌⊎◌, ◌<◌, ◌≤◌, [], IsTrue, IsOk, IfErr, OnOk, OnErr, IfOk, IsErrOf};
ghost use Rattle.std.specs.Option.{option_copied};
ghost use Rattle.std.specs.FinMap as map;
ghost use Rattle.bep_index.specs.Batch.{last_sequence, with_all};
ghost use Rattle.bep_index.specs.Good.{AreGood};
ghost use Rattle.bep_index.specs.View.{IsView, IsOld, cleared, replaced, amended};
ghost use Rattle.bep_index.specs.declared.error.IndexError.TheVariants.{Memory};

use crate::all::{count_new, last_sequence_of, put_batch};
use crate::{Batch, IndexError, MAX_NAMES};
use bep_map::NameMap;
use bep_record::{Duplicate, Name, Record};
use std::alloc::{AllocError, Global};
use std::collections::btree_map::Values;
use std::marker::Model;

/// What a device knows of another device's index of a folder: the records that it was sent, each under its name, and
/// the point up to which it was sent them, an index id and a sequence number.
///
/// BEP v1, 'Index' and 'Index Update'; at most 4096 names, by this project's profile.
pub struct View {
    id: u64,
    sequence: u64,
    records: NameMap<Record>,
    alloc: Global,
}

// By hand: a caller's proof then sees one call where it lets go of one, and not each field (docs/developing.md).
impl Drop for View {
    fn drop(self) {
        let View {
            id: _,
            sequence: _,
            records: _,
            alloc: _,
        } = self;
    }
}

impl Model for View {
    ghost use Rattle.bep_record.specs.contracts.entry.Entry as entry;
    ghost use Rattle.bep_index.specs.Listing.{Listing, listing_code};

    ghost Value = { Listing };

    ghost coded = { listing_code entry.the_row.coded };

    ghost use Rattle.bep_index.specs.Good.{AreGood};
    ghost use Rattle.bep_index.specs.View.{IsView};

    ghost view = { λ view. record { id = view.id; sequence = view.sequence; records = view.records } };

    ghost invariant = { λ view. IsView (record { id = view.id; sequence = view.sequence; records = view.records }) × AreGood view.records };
}

impl View {
    /// The view of a device of which nothing is known, at point (0, 0).
    pub fn empty(alloc: Global) -> Self
        ensures { result ≡ cleared 0 }
    {
        View {
            id: 0,
            sequence: 0,
            records: NameMap::new(alloc),
            alloc,
        }
    }

    /// The point: the index id and the greatest sequence that are known.
    ///
    /// BEP v1, 'Fields (ClusterConfig)', fields 'index_id' and 'max_sequence'.
    pub fn point(&self) -> (u64, u64)
        ensures value { result ≡ (self.now.id, self.now.sequence) }
        ensures a_view { IsView self.now }
    {
        (self.id, self.sequence)
    }

    /// The record of the name.
    pub fn get(&self, name: &Name) -> Option<&Record>
        ensures value { option_copied result ≡ map.get self.now.records name.now }
        ensures a_view { IsView self.now }
    {
        self.records.get(name)
    }

    /// The records, in the order of their names.
    pub fn records(&self) -> Values<'_, Name, Record>
        ensures value { result ≡ map.values self.now.records }
        ensures a_view { IsView self.now }
    {
        self.records.values()
    }

    /// The records are well formed, and so are their versions. It does nothing.
    pub fn records_are_good(&self)
        ensures good { AreGood self.now.records }
        ensures a_view { IsView self.now }
    {
        let _ = &self.records;
    }

    /// Forgets all, and takes this index id with sequence 0. Takes no memory.
    pub fn clear(&mut self, id: u64)
        ensures { self.new ≡ cleared id }
    {
        self.id = id;
        self.sequence = 0;
        self.records = NameMap::new(self.alloc);
    }

    /// Takes the batch in place of all that was known, as an Index asks. The sequence is then that of the batch's last
    /// record, or 0. Without memory the view is as before. An empty batch is never refused.
    pub fn replace(&mut self, batch: Batch) -> Result<(), IndexError>
        ensures ok { OnOk result (self.new ≡ replaced self.old batch) }
        ensures empty { batch ≡ [] → IsOk result }

        ensures only { IfErr result (λ e. e ≡ IndexError.Memory) }
        ensures err { OnErr result (self.new ≡ self.old) }
    {
        let sequence = last_sequence_of(0, batch.as_slice());
        let mut records = NameMap::new(self.alloc);
        put_batch(&mut records, self.alloc, batch)?;
        self.records = records;
        self.sequence = sequence;
        Ok(())
    }

    /// Adds the batch to what was known, as an IndexUpdate asks: each of its records takes its name's place, other names
    /// stay, and the sequence is that of its last record. An empty batch changes nothing. Refuses `BatchOld` exactly
    /// where the first sequence isn't above the view's, and then `IndexFull` exactly where there would be more than 4096
    /// names. After an error the view is as before.
    pub fn amend(&mut self, batch: Batch) -> Result<(), IndexError>
        ensures ok { OnOk result (self.new ≡ amended self.old batch) }
        ensures empty { batch ≡ [] → IsOk result }

        ensures old { IsErrOf result IndexError.BatchOld ↔ IsOld self.old.sequence batch }
        ensures full { IsErrOf result IndexError.IndexFull ↔ ((¬ IsOld self.old.sequence batch) × (MAX_NAMES < map.len (with_all self.old.records batch))) }
        ensures only { IfErr result (λ e. (e ≡ IndexError.BatchOld) ⊎ (e ≡ IndexError.IndexFull) ⊎ (e ≡ IndexError.Memory)) }
        ensures err { OnErr result (self.new ≡ self.old) }
    {
        let sequence = self.sequence_with(&batch)?;
        put_batch(&mut self.records, self.alloc, batch)?;
        self.sequence = sequence;
        Ok(())
    }

    /// The view's sequence once the batch is added. Refuses what `amend` refuses, and takes no memory.
    pub fn sequence_with(&self, batch: &Batch) -> Result<u64, IndexError>
        ensures value { IfOk result (λ sequence. sequence ≡ last_sequence self.now.sequence batch.now) }
        ensures empty { batch.now ≡ [] → IsOk result }

        ensures old { IsErrOf result IndexError.BatchOld ↔ IsOld self.now.sequence batch.now }
        ensures full { IsErrOf result IndexError.IndexFull ↔ ((¬ IsOld self.now.sequence batch.now) × (MAX_NAMES < map.len (with_all self.now.records batch.now))) }
        ensures only { IfErr result (λ e. (e ≡ IndexError.BatchOld) ⊎ (e ≡ IndexError.IndexFull)) }
    {
        if is_old(self.sequence, batch) {
            return Err(IndexError::BatchOld);
        }
        if !has_room(&self.records, batch) {
            return Err(IndexError::IndexFull);
        }
        Ok(last_sequence_of(self.sequence, batch.as_slice()))
    }

    /// An equal view of its own, or want of memory.
    pub fn copy(&self, alloc: Global) -> Result<Self, AllocError>
        ensures { IfOk result (λ made. made ≡ self.now) }
    {
        Ok(View {
            id: self.id,
            sequence: self.sequence,
            records: self.records.copy(alloc)?,
            alloc,
        })
    }
}

impl Duplicate for View {
    fn duplicate(&self, alloc: Global) -> Result<Self, AllocError> {
        self.copy(alloc)
    }
}

// Whether the batch's first sequence isn't above the greatest that is known.
fn is_old(known: u64, batch: &Batch) -> bool
    ensures { IsTrue result ↔ IsOld known batch.now }
{
    match batch.as_slice() {
        [] => false,
        [first, ..] => first.entry().sequence <= known,
    }
}

// Whether the batch brings the names to no more than there may be.
fn has_room(records: &NameMap<Record>, batch: &Batch) -> bool
    requires { map.len records.now ≤ MAX_NAMES }
    ensures { IsTrue result ↔ (map.len (with_all records.now batch.now) ≤ MAX_NAMES) }
{
    records.len() + count_new(records, batch.as_slice()) <= MAX_NAMES
}
