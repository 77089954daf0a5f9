//! The records of one Index or IndexUpdate.
ghost use Rattle.std.specs.Prelude.{◌≡◌, ◌↔◌, ◌⊎◌, IsTrue, IfOk, IfErr, IsErrOf};
ghost use Rattle.bep_index.specs.Batch.{Rises, HasNo, NamesDiffer, IsBatch};
ghost use Rattle.bep_index.specs.Good.{AllGood};

use crate::good::all_are_good;
use crate::{IndexError, MAX_RECORDS, MAX_SEQUENCE};
use bep_record::{Duplicate, Items, Name, Record, Same};
use std::alloc::{AllocError, Global};
use std::marker::Model;
use std::sync::Arc;

/// The records of one Index or IndexUpdate: at most 1000, with rising sequence numbers from 1 to 9223372036854775807,
/// and each name at most once.
///
/// Copies of a batch share its records. So a copy takes no memory, unless too many share them to be counted. Each message
/// with records is copied, so that its sender can tell of it.
///
/// BEP v1, 'Index' and 'Index Update'; the limits are this project's profile.
#[derive(Debug)]
pub struct Batch {
    records: Arc<Items<Record>, Global>,
}

// By hand: a caller's proof then sees one call where it lets go of one, and not each field (docs/developing.md).
impl Drop for Batch {
    fn drop(self) {
        let Batch { records: _ } = self;
    }
}

impl Model for Batch {
    ghost use Rattle.std.specs.Prelude.{List};
    ghost use Rattle.bep_record.specs.declared.entry.Entry.{Entry};
    ghost use Rattle.bep_index.specs.Batch.{IsBatch};
    ghost use Rattle.bep_index.specs.Good.{AllGood};
    ghost use Rattle.std.specs.Arc.{arc_value};

    ghost Value = { List Entry };

    ghost view = { λ batch. arc_value batch.records };

    ghost invariant = { λ batch. IsBatch (arc_value batch.records) × AllGood (arc_value batch.records) };
}

impl Batch {
    /// The batch of these records. Refuses `BatchBad` exactly where there are more than 1000, a sequence is 0 or above
    /// 9223372036854775807 or not above the one before, or a name stands twice. Else only want of memory is answered.
    pub fn new(records: Vec<Record>) -> Result<Self, IndexError>
        ensures ok { IfOk result (λ batch. batch ≡ records.items) }

        ensures bad { IsErrOf result IndexError.BatchBad ↔ (¬ IsBatch records.items) }
        ensures only { IfErr result (λ e. (e ≡ IndexError.BatchBad) ⊎ (e ≡ IndexError.Memory)) }
    {
        if !is_batch(records.as_slice()) {
            return Err(IndexError::BatchBad);
        }
        Ok(Batch::of(records)?)
    }

    /// The batch of records that are known to be one, such as those that `Index::after` gives, or want of memory. It tests
    /// nothing: `new` compares each name with each.
    pub fn of(records: Vec<Record>) -> Result<Self, AllocError>
        requires { IsBatch records.items }
        ensures { IfOk result (λ batch. batch ≡ records.items) }
    {
        all_are_good(records.as_slice());
        Batch::made(*records.allocator(), Items::new(records))
    }

    // The batch of records that are known to be one, and good.
    fn made(alloc: Global, records: Items<Record>) -> Result<Self, AllocError>
        requires { IsBatch records × AllGood records }
        ensures { IfOk result (λ batch. batch ≡ records) }
    {
        Ok(Batch {
            records: Arc::new(alloc, records)?,
        })
    }

    /// The records, in order.
    pub fn as_slice(&self) -> &[Record]
        ensures value { result.now ≡ self.now }
        ensures a_batch { IsBatch self.now }
    {
        self.records.as_slice()
    }

    /// Copies of the records, in order, or want of memory.
    pub fn to_items(&self, alloc: Global) -> Result<Items<Record>, AllocError>
        ensures value { IfOk result (λ items. items ≡ self.now) }
        ensures a_batch { IsBatch self.now }
    {
        self.records.duplicate(alloc)
    }

    /// The records are well formed, and so are their versions. It does nothing.
    pub fn records_are_good(&self)
        ensures { AllGood self.now }
    {
        let _ = &self.records;
    }

    /// An equal batch, or want of memory. It shares this one's records. Only where too many batches share them to be counted
    /// does it copy them.
    pub fn copy(&self, alloc: Global) -> Result<Self, AllocError>
        ensures { IfOk result (λ made. made ≡ self.now) }
    {
        match Arc::try_clone(&self.records) {
            Ok(shared) => Ok(Batch { records: shared }),
            Err(_) => Batch::made(alloc, self.to_items(alloc)?),
        }
    }
}

impl Same for Batch {
    fn same(&self, other: &Batch) -> bool {
        self.records.same(&other.records)
    }
}

fn is_batch(records: &[Record]) -> bool
    ensures { IsTrue result ↔ IsBatch records.now }
{
    records.len() <= MAX_RECORDS && rises(records) && names_differ(records)
}

// Whether the sequences rise from above 0, and none is above the greatest.
fn rises(records: &[Record]) -> bool
    ensures { IsTrue result ↔ Rises 0 records.now }
{
    let mut low = 0;
    for entry in records {
        let sequence = entry.entry().sequence;
        if sequence <= low || sequence > MAX_SEQUENCE {
            return false;
        }
        low = sequence;
    }
    true
}

// Whether none of the records has the name.
fn has_no(name: &Name, records: &[Record]) -> bool
    ensures { IsTrue result ↔ HasNo name.now records.now }
{
    for entry in records {
        if has_name(entry, name) {
            return false;
        }
    }
    true
}

fn has_name(entry: &Record, name: &Name) -> bool
    ensures { IsTrue result ↔ (entry.now.name ≡ name.now) }
{
    entry.entry().name == *name
}

fn names_differ(records: &[Record]) -> bool
    ensures { IsTrue result ↔ NamesDiffer records.now }
{
    for (i, entry) in records.iter().enumerate() {
        if !has_no(&entry.entry().name, &records[i + 1..]) {
            return false;
        }
    }
    true
}
