//! Recording what a scan found.
ghost use Rattle.std.specs.Prelude.{◌≡◌, false, ◌⊎◌, ◌↔◌, Some, IfOk, IfErr, IsErrOf, OnOk, OnErr, IsTrue};
ghost use Rattle.std.specs.Option.{option_copied};
ghost use Rattle.std.specs.FinMap as map;
ghost use Rattle.bep_record.specs.Node.{IsClean};
ghost use Rattle.bep_index.specs.Index.{IsSequenceFull, IsIndexFull, after_put};
ghost use Rattle.bep_folder.specs.Commit.{Commits};
ghost use Rattle.bep_folder.specs.inner.Found.{IsNotPut, PutsFound, Records, TellsFresh};
ghost use Rattle.bep_folder.specs.Makes.{Stays, CountsFaults};
ghost use Rattle.bep_folder.specs.Trace.{CountsCall};
ghost use Rattle.bep_folder.specs.declared.error.FolderError.TheVariants.{SequenceFull, IndexFull, Memory};

use crate::error::index_error;
use crate::scan::found::found;
use crate::traced::Traced;
use crate::{FolderError, Replica, ScanResult};
use bep_index::Index;
use bep_machine::Moved;
use bep_record::{DeviceId, FolderKind, Node, Record, Same, is_clean};
use bep_store::Store;
use std::alloc::Global;

impl<S: Store> Replica<S> {
    /// Records what a scan found, as a scan of the name would now: Unchanged where the own record is clean against it.
    ///
    /// Refuses, in this order, `StoreFault` where the store fails, `Stale` where it has another node now than the one
    /// that was found, `CounterFull` and `TooManyCounters` where the version has to be raised and can't be, and
    /// `SequenceFull` and `IndexFull` where the index has no room. In a receive-only folder the record keeps its version,
    /// and is marked local-only. Else only want of memory is answered.
    pub fn commit(&mut self, scan: ScanResult) -> Result<Moved, FolderError>
        ensures commits { Commits scan self.old self.new result }
        ensures first { IsErrOf result FolderError.StoreFault → self.new.trace.failed ≡ Some 1 }
        ensures stays { Stays self.old self.new }
        ensures counted { CountsFaults self.old self.new result }
        ensures uncopied { self.new.trace.copied ≡ false }
        ensures called { self.new.made ≡ 1 }
    {
        self.store.begin();
        must_be_fresh(&mut self.store, self.alloc, &scan)?;
        record_found(&mut self.index, self.alloc, self.kind, self.device, scan)
    }
}

// Refuses `Stale` where the store has another node now than the one that was found.
fn must_be_fresh<S: Store>(
    store: &mut Traced<S>,
    alloc: Global,
    scan: &ScanResult,
) -> Result<(), FolderError>
    ensures fresh { TellsFresh scan.now store.old store.new result }
    ensures same { store.new.contents ≡ store.old.contents }
{
    if !is_fresh(store, alloc, scan)? {
        return Err(FolderError::Stale);
    }
    Ok(())
}

// Whether the store still has the node that was found.
fn is_fresh<S: Store>(
    store: &mut Traced<S>,
    alloc: Global,
    scan: &ScanResult,
) -> Result<bool, FolderError>
    ensures fresh { IfOk result (λ fresh. IsTrue fresh ↔ (map.get store.old.contents scan.now.name ≡ scan.now.node)) }
    ensures same { store.new.contents ≡ store.old.contents }
    ensures counted { CountsCall store.old store.new result }
{
    let node = store.read(alloc, scan.name())?;
    Ok(same_node(node.as_ref(), scan.node()))
}

// Puts a record of what was found, unless the own one is clean against it.
fn record_found(
    index: &mut Index,
    alloc: Global,
    kind: FolderKind,
    device: DeviceId,
    scan: ScanResult,
) -> Result<Moved, FolderError>
    ensures { Records kind device scan index.old index.new result }
{
    if is_clean(scan.node(), index.get(scan.name())) {
        return Ok(Moved::Unchanged);
    }
    put_found(index, alloc, kind, device, scan)?;
    Ok(Moved::Changed)
}

/// Puts the record of what was found in the place of the own one.
pub(crate) fn put_found(
    index: &mut Index,
    alloc: Global,
    kind: FolderKind,
    device: DeviceId,
    scan: ScanResult,
) -> Result<(), FolderError>
    requires { ¬ IsClean scan.node (map.get index.old.records scan.name) }
    ensures ok { OnOk result (PutsFound kind device scan index.old index.new) }
    ensures refused { IfErr result (IsNotPut kind device scan index.old) }
    ensures err { OnErr result (index.new ≡ index.old) }
{
    let own = index.get(scan.name());
    let entry = found(alloc, kind, device, scan, own)?;
    put_record(index, entry)
}

/// Puts the record under its name, with the index's refusals.
pub(crate) fn put_record(index: &mut Index, entry: Record) -> Result<(), FolderError>
    ensures ok { OnOk result (index.new ≡ after_put index.old entry) }

    ensures sequence_full { IsErrOf result SequenceFull ↔ IsSequenceFull index.old }
    ensures index_full { IsErrOf result IndexFull ↔ ((¬ IsSequenceFull index.old) × IsIndexFull index.old entry.name) }
    ensures only { IfErr result (λ e. (e ≡ SequenceFull) ⊎ (e ≡ IndexFull) ⊎ (e ≡ Memory)) }
    ensures err { OnErr result (index.new ≡ index.old) }
{
    match index.put(entry) {
        Ok(_) => Ok(()),
        Err(error) => Err(index_error(error)),
    }
}

// Whether both are the same, or both are missing.
fn same_node(one: Option<&Node>, other: Option<&Node>) -> bool
    ensures { IsTrue result ↔ (option_copied one.entry ≡ option_copied other.entry) }
{
    match (one, other) {
        (Some(one), Some(other)) => one.same(other),
        (None, None) => true,
        _ => false,
    }
}
