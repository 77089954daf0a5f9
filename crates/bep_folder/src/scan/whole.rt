//! A scan of one name, whole.
ghost use Rattle.std.specs.Prelude.{◌≡◌, false, ℕ, Some, None, IfOk, IfErr, IsErrOf};
ghost use Rattle.bep_record.specs.declared.folder_kind.FolderKind.{FolderKind as KindOf};
ghost use Rattle.bep_machine.specs.Local.{ScanRow};
ghost use Rattle.bep_folder.specs.inner.Found.{IsNotPut, Records};
ghost use Rattle.bep_folder.specs.Makes.{Makes, Stays, CountsFaults};

use crate::error::index_error;
use crate::scan::commit::put_found;
use crate::{FolderError, Replica, ScanResult};
use bep_index::Index;
use bep_machine::Moved;
use bep_record::{DeviceId, FolderKind, Name, Node, is_clean};
use bep_store::Store;
use std::alloc::Global;

impl<S: Store> Replica<S> {
    /// Looks at the name and records what it finds, as `look`, `ScanResult::plain` and `commit` do one after another where
    /// nothing comes between: Unchanged where the own record is clean against it.
    ///
    /// Where the store has the node at hand, its bytes are copied and hashed only once a record is put, and the store isn't
    /// called. So a scan of an unchanged file costs the same for each size.
    pub fn scan(&mut self, name: &Name) -> Result<Moved, FolderError>
        ensures scanned { Makes (ScanRow self.old.device name.now self.new.trace.failed) self.old self.new result }
        ensures first { IsErrOf result FolderError.StoreFault → self.new.trace.failed ≡ Some 1 }
        ensures stays { Stays self.old self.new }
        ensures counted { CountsFaults self.old self.new result }
        ensures uncopied { self.new.trace.copied ≡ false }
    {
        self.store.begin();
        match self.store.at_hand(name) {
            Some(node) => record_seen(
                &mut self.index,
                self.alloc,
                self.kind,
                self.device,
                name,
                node,
            ),
            None => self.scan_by_reading(name),
        }
    }

    // The same by calls of the store.
    fn scan_by_reading(&mut self, name: &Name) -> Result<Moved, FolderError>
        ensures scanned { Makes (ScanRow self.old.device name.now self.new.trace.failed) self.old self.new result }
        ensures first { IsErrOf result FolderError.StoreFault → self.new.trace.failed ≡ Some 1 }
        ensures stays { Stays self.old self.new }
        ensures counted { CountsFaults self.old self.new result }
        ensures uncopied { self.new.trace.copied ≡ false }
    {
        let node = self.look(name)?;
        let scan = ScanResult::plain(self.alloc, name.copy(self.alloc)?, node)?;
        self.commit(scan)
    }
}

// Puts a record of the node that stands at the name, unless the own one is clean against it.
fn record_seen(
    index: &mut Index,
    alloc: Global,
    kind: FolderKind,
    device: DeviceId,
    name: &Name,
    node: &Node,
) -> Result<Moved, FolderError>
    ensures { Records kind device (record { name = name.now; node = Some node.now }) index.old index.new result }
{
    if is_clean(Some(node), index.get(name)) {
        return Ok(Moved::Unchanged);
    }
    let scan = seen(index, alloc, name, node)?;
    put_found(index, alloc, kind, device, scan)?;
    Ok(Moved::Changed)
}

// What is found there, hashed; refused, before it is, where it is a new name for which the index has no room.
fn seen(index: &Index, alloc: Global, name: &Name, node: &Node) -> Result<ScanResult, FolderError>
    ensures found { IfOk result (λ scan. scan ≡ record { name = name.now; node = Some node.now }) }
    ensures refused { (kind : KindOf) (device : ℕ) → IfErr result (IsNotPut kind device (record { name = name.now; node = Some node.now }) index.now) }
{
    new_must_have_room(index, name)?;
    ScanResult::plain(alloc, name.copy(alloc)?, Some(node.copy(alloc)?))
}

// Refuses a name without a record where the index has no room for one.
fn new_must_have_room(index: &Index, name: &Name) -> Result<(), FolderError>
    ensures { (kind : KindOf) (device : ℕ) → IfErr result (IsNotPut kind device (record { name = name.now; node = None }) index.now) }
{
    if index.get(name).is_some() {
        return Ok(());
    }
    match index.must_have_room(name) {
        Ok(()) => Ok(()),
        Err(error) => Err(index_error(error)),
    }
}
