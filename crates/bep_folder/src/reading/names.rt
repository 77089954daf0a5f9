//! The names of which a folder has a node or a record.
ghost use Rattle.std.specs.Prelude.{◌≡◌, ◌⊎◌, ◌↔◌, false, Some, Contains, IfOk, IfErr, IsErrOf, OnOk, IsSome};
ghost use Rattle.std.specs.Option.{option_copied};
ghost use Rattle.std.specs.FinMap as map;
ghost use Rattle.bep_index.specs.After.{IsAfter};
ghost use Rattle.bep_index.specs.Index.{IsIndex};
ghost use Rattle.bep_model.specs.Tables.{FileName};
ghost use Rattle.bep_folder.specs.Names.{AddsRecorded, AreGathered, IsNameHere, one_of};
ghost use Rattle.bep_folder.specs.Makes.{Stays, CountsFaults};

use crate::{FolderError, Replica};
use bep_index::Index;
use bep_map::NameMap;
use bep_record::{Name, Record};
use bep_store::Store;
use std::alloc::{AllocError, Global};

impl<S: Store> Replica<S> {
    /// The names of which the store has a node or the device a record. Refuses `StoreFault` exactly where the store
    /// fails to list its names, and else only for want of memory. Nothing changes.
    pub fn names(&mut self) -> Result<NameMap<()>, FolderError>
        ensures names { IfOk result (λ names. (name : FileName) → IsSome (map.get names name) ↔ IsNameHere self.old.tables name) }
        ensures same { self.new.tables ≡ self.old.tables }
        ensures only { IfErr result (λ e. (e ≡ FolderError.StoreFault) ⊎ (e ≡ FolderError.Memory)) }

        ensures stays { Stays self.old self.new }
        ensures counted { CountsFaults self.old self.new result }
        ensures first { IsErrOf result FolderError.StoreFault → self.new.trace.failed ≡ Some 1 }
        ensures uncopied { self.new.trace.copied ≡ false }
        ensures called { self.new.made ≡ 1 }
    {
        self.store.begin();
        let stored = self.store.names(self.alloc)?;
        Ok(gathered(self.alloc, stored.as_slice(), &self.index)?)
    }
}

// These names, with the names of all records.
fn gathered(alloc: Global, stored: &[Name], index: &Index) -> Result<NameMap<()>, AllocError>
    ensures { IfOk result (AreGathered stored.now index.now.records) }
{
    let mut names = set_of(alloc, stored)?;
    add_recorded(&mut names, alloc, index)?;
    Ok(names)
}

// These names, as a set.
fn set_of(alloc: Global, list: &[Name]) -> Result<NameMap<()>, AllocError>
    ensures { IfOk result (λ names. (name : FileName) → IsSome (map.get names name) ↔ Contains list.now name) }
{
    let mut names = NameMap::new(alloc);
    for name in list {
        names.insert(name.copy(alloc)?, ())?;
    }
    Ok(names)
}

// Adds the names of all records.
fn add_recorded(names: &mut NameMap<()>, alloc: Global, index: &Index) -> Result<(), AllocError>
    ensures { OnOk result (AddsRecorded index.now.records names.old names.new) }
{
    let mut sequence = 0;
    while let Some(record) = next_after(index, sequence) {
        names.insert(record.entry().name.copy(alloc)?, ())?;
        sequence = record.entry().sequence;
    }
    Ok(())
}

// The first record above the sequence number.
fn next_after(index: &Index, sequence: u64) -> Option<&Record>
    ensures next { IsAfter index.now.records sequence 1 (one_of (option_copied result)) }
    ensures an_index { IsIndex index.now }
{
    index.at(index.place_above(sequence))
}
