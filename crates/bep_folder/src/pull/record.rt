//! The record that is put for a pull that ends.
ghost use Rattle.std.specs.Prelude.{◌≡◌, ◌↔◌, ◌⊎◌, ◌<◌, length, IfOk, IfErr, IsErrOf, OnOk, OnErr};
ghost use Rattle.std.specs.Option.{option_copied};
ghost use Rattle.bep_record.specs.Vector.{most_counters, IsMerge, ids_in_either};
ghost use Rattle.std.specs.FinMap as map;
ghost use Rattle.bep_record.specs.declared.entry.Entry.{Entry};
ghost use Rattle.bep_index.specs.Index.{after_put};
ghost use Rattle.bep_index.specs.Change.{IsLastChange, taken_back};
ghost use Rattle.bep_machine.specs.Replica.{version_of};
ghost use Rattle.bep_machine.specs.Pull.{IsAdopted};
ghost use Rattle.bep_folder.specs.inner.Ending.{HasRoom, LacksRoom};

use crate::FolderError;
use crate::beside::version_of;
use crate::error::index_error;
use bep_index::{Index, Undo};
use bep_record::{Name, Record, Vector, Version};
use std::alloc::Global;

// The merge of the own version and the record's. Refuses `TooManyCounters` where more than 16 devices have a counter in
// one of the two.
pub(crate) fn merged(own: Option<&Record>, other: &Record) -> Result<Vector, FolderError>
    ensures merged { IfOk result (IsMerge (version_of (option_copied own.entry)) other.now.version) }
    ensures counted { IfOk result (λ version. length version ≡ ids_in_either (version_of (option_copied own.entry)) other.now.version) }
    ensures many { IsErrOf result FolderError.TooManyCounters ↔ (most_counters < ids_in_either (version_of (option_copied own.entry)) other.now.version) }
    ensures only { IfErr result (λ e. e ≡ FolderError.TooManyCounters) }
{
    let mut version = version_of(own);
    match version.merge(&other.entry().version.vector()) {
        Ok(()) => Ok(version),
        Err(_) => Err(FolderError::TooManyCounters),
    }
}

// The target under the merge of its version and the own one, and not invalid. Refuses `TooManyCounters` where more than
// 16 devices have a counter in one of the two.
pub(crate) fn adopted(
    alloc: Global,
    own: Option<&Record>,
    target: &Record,
) -> Result<Record, FolderError>
    ensures ok { IfOk result (IsAdopted (option_copied own.entry) target.now) }
    ensures many { IsErrOf result FolderError.TooManyCounters ↔ (most_counters < ids_in_either (version_of (option_copied own.entry)) target.now.version) }
    ensures only { IfErr result (λ e. (e ≡ FolderError.TooManyCounters) ⊎ (e ≡ FolderError.Memory)) }
{
    let version = merged(own, target)?;
    let mut entry = target.entry().copy(alloc)?;
    entry.version = Version::of(alloc, &version)?;
    entry.invalid = false;
    Ok(Record::of(alloc, entry)?)
}

// Puts the record that the target gives into the index, and answers how that is taken back.
pub(crate) fn put_adopted(
    index: &mut Index,
    alloc: Global,
    name: &Name,
    target: &Record,
) -> Result<Undo, FolderError>
    requires { target.now.name ≡ name.now }
    ensures put { OnOk result ((entry : Entry) × IsAdopted (map.get index.old.records name.now) target.now entry × (index.new ≡ after_put index.old entry)) }
    ensures room { OnOk result (HasRoom name.now (map.get index.old.records name.now) target.now index.old) }
    ensures back { IfOk result (λ undo. taken_back undo index.new ≡ index.old) }
    ensures last { IfOk result (λ undo. IsLastChange undo index.new) }
    ensures refused { IfErr result (LacksRoom name.now (map.get index.old.records name.now) target.now index.old) }
    ensures err { OnErr result (index.new ≡ index.old) }
{
    let entry = match adopted(alloc, index.get(name), target) {
        Ok(entry) => entry,
        Err(error) => return Err(error),
    };
    match index.put_undo(entry) {
        Ok(undo) => Ok(undo),
        Err(error) => Err(index_error(error)),
    }
}
