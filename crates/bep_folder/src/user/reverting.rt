//! Revert: in a receive-only folder a change of the device's own is given up.
ghost use Rattle.std.specs.Prelude.{◌≡◌, ◌↔◌, false, IsSome, IsTrue};
ghost use Rattle.std.specs.Option.{option_copied};
ghost use Rattle.std.specs.FinMap as map;
ghost use Rattle.bep_machine.specs.Local.{IsLocalOnly, RevertRow};
ghost use Rattle.bep_machine.specs.Replica.{node_at};
ghost use Rattle.bep_folder.specs.Makes.{Makes, Stays, CountsFaults};
ghost use Rattle.bep_folder.specs.Reverting.{CallsInRevert};
ghost use Rattle.bep_folder.specs.inner.Reverting.{GivesUp, PutsAndRemoves};

use crate::deletion::deletion;
use crate::error::index_error;
use crate::pull::remove_node;
use crate::traced::Traced;
use crate::{FolderError, Replica};
use bep_index::Index;
use bep_machine::Moved;
use bep_record::{DeviceId, FolderKind, Name, Node, Record, Vector};
use bep_store::Store;
use std::alloc::Global;

impl<S: Store> Replica<S> {
    /// Gives up the device's own change of the name, as a user of a receive-only folder does: its node is removed, if
    /// there is one, and a deletion under the empty version takes the place of the own record, so that what others have
    /// is pulled as usual.
    ///
    /// Refuses, in this order, `KindForbids` where the folder isn't receive only, `NothingToDo` where the own record
    /// isn't local-only, `StoreFault` where the store fails to read, `Unscanned` where the node isn't what the own
    /// record says, `SequenceFull` where the index has no number left, and `StoreFault` where the store fails to remove.
    /// Else only want of memory is answered. After an error the folder is as before.
    ///
    /// Syncthing, 'Folder Types', in this project's profile.
    pub fn revert_one(&mut self, name: &Name) -> Result<Moved, FolderError>
        ensures reverted { Makes (RevertRow self.old.device name.now self.new.trace.failed) self.old self.new result }
        ensures stays { Stays self.old self.new }
        ensures counted { CountsFaults self.old self.new result }
        ensures uncopied { self.new.trace.copied ≡ false }
        ensures called { CallsInRevert (node_at self.old.tables name.now) self.new.made self.new.trace.failed result }
    {
        self.store.begin();
        if self.kind != FolderKind::ReceiveOnly {
            return Err(FolderError::KindForbids);
        }
        if !is_local_only(self.index.get(name)) {
            return Err(FolderError::NothingToDo);
        }
        let node = self.store.read(self.alloc, name)?;
        give_up(
            &mut self.index,
            &mut self.store,
            self.alloc,
            self.device,
            name,
            node.as_ref(),
        )
    }
}

// Whether the record is marked local-only.
fn is_local_only(own: Option<&Record>) -> bool
    ensures { IsTrue result ↔ IsLocalOnly (option_copied own.entry) }
{
    match own {
        Some(own) => own.entry().invalid,
        None => false,
    }
}

// Puts a deletion in the place of the local-only record, and takes the node away, if there is one. Refuses `Unscanned`
// where the node isn't what the record says.
fn give_up<S: Store>(
    index: &mut Index,
    store: &mut Traced<S>,
    alloc: Global,
    device: DeviceId,
    name: &Name,
    node: Option<&Node>,
) -> Result<Moved, FolderError>
    requires marked { IsLocalOnly (map.get index.old.records name.now) }
    requires node { map.get store.old.contents name.now ≡ option_copied node }
    ensures { GivesUp device name.now (option_copied node.entry) index.old index.new store.old store.new result }
{
    let Some(own) = index.get(name) else {
        unreachable!()
    };
    if !own.clean(node) {
        return Err(FolderError::Unscanned);
    }
    let gone = deletion(alloc, device, name.copy(alloc)?, own, &Vector::empty())?;
    put_and_remove(index, store, name, gone, node)
}

// Puts the record and takes the node away, if there is one. The record is put first, since that can be taken back
// without memory.
fn put_and_remove<S: Store>(
    index: &mut Index,
    store: &mut Traced<S>,
    name: &Name,
    entry: Record,
    node: Option<&Node>,
) -> Result<Moved, FolderError>
    requires recorded { IsSome (map.get index.old.records name.now) }
    requires named { entry.name ≡ name.now }
    requires node { map.get store.old.contents name.now ≡ option_copied node }
    ensures { PutsAndRemoves name.now entry (option_copied node.entry) index.old index.new store.old store.new result }
{
    let undo = match index.put_undo(entry) {
        Ok(undo) => undo,
        Err(error) => return Err(index_error(error)),
    };
    match remove_node(store, name, node) {
        Ok(()) => Ok(Moved::Changed),
        Err(error) => {
            index.undo(undo);
            Err(error)
        }
    }
}
