//! How a pull that may end is adopted: its record is put, and then its files are written.
ghost use Rattle.std.specs.Prelude.{◌≡◌, ◌+◌, ◌≤◌, Some, None, IsSome, IfOk};
ghost use Rattle.std.specs.Option.{option_copied};
ghost use Rattle.std.specs.FinMap as map;
ghost use Rattle.bep_machine.specs.Replica.{HasContentOf, own_at, node_at, pull_at};
ghost use Rattle.bep_machine.specs.Replica as machine;
ghost use Rattle.bep_machine.specs.Pull.{IsFile, IsMissingBlocks};
ghost use Rattle.bep_model.specs.Tables.{FileName};
ghost use Rattle.bep_folder.specs.inner.Calls.{CallsSince};
ghost use Rattle.bep_folder.specs.inner.Ending.{PulledRow, PutsAndWrites, RoomyRow, WroteCopy};
ghost use Rattle.bep_folder.specs.inner.Finish.{FailsLater};
ghost use Rattle.bep_folder.specs.Makes.{Makes, Stays, CountsFaults};

use crate::beside::has_content_of;
use crate::pull::record::put_adopted;
use crate::pull::writes::write_all;
use crate::traced::Traced;
use crate::{FolderError, Pull, Replica};
use bep_index::Index;
use bep_machine::Moved;
use bep_map::NameMap;
use bep_record::{Name, Node};
use bep_store::Store;
use std::alloc::Global;

impl<S: Store> Replica<S> {
    // Adopts the name's pull: puts its record, and then writes the conflict copy, if there is one to write, and the
    // name's file. The record is put first, since that can be taken back without memory.
    pub(crate) fn adopt(
        &mut self,
        alloc: Global,
        name: &Name,
        copy: Option<&Name>,
        node: Option<&Node>,
    ) -> Result<Moved, FolderError>
        requires pulled { IsSome (pull_at self.old.tables name.now) }
        requires node { node_at self.old.tables name.now ≡ option_copied node }
        requires kept { IsSome copy → IsSome (option_copied node) }
        requires complete { (pull : machine.Pull) → pull_at self.old.tables name.now ≡ Some pull → IsFile pull.target → (¬ HasContentOf (own_at self.old.tables name.now) pull.target) → ¬ IsMissingBlocks pull }
        requires untroubled { self.old.trace.failed ≡ None }
        requires few { self.old.made ≤ 2 }
        requires free { (other : FileName) → option_copied copy ≡ Some other → node_at self.old.tables other ≡ None }
        ensures made { Makes (λ old. PulledRow name.now (λ pull. RoomyRow name.now pull (option_copied copy.entry) (self.old.made + 1) self.new.trace.failed old) old) self.old self.new result }
        ensures copied { WroteCopy (option_copied copy.entry) self.old self.new result }
        ensures later { FailsLater self.old self.new }
        ensures called { (pull : machine.Pull) → pull_at self.old.tables name.now ≡ Some pull → CallsSince self.old.made (own_at self.old.tables name.now) (node_at self.old.tables name.now) pull (option_copied copy.entry) self.new.made self.new.trace.failed result }
        ensures changed { IfOk result (λ moved. moved ≡ Moved.Changed) }
        ensures same { Stays self.old self.new }
        ensures counted { CountsFaults self.old self.new result }
    {
        let Some(pull) = self.pulls.get(name) else {
            unreachable!()
        };
        match put_and_write(
            &mut self.index,
            &mut self.store,
            alloc,
            name,
            copy,
            node,
            pull,
        ) {
            Ok(()) => {
                forget(&mut self.pulls, name);
                Ok(Moved::Changed)
            }
            Err(error) => Err(error),
        }
    }
}

// The name's pull goes.
pub(crate) fn forget(pulls: &mut NameMap<Pull>, name: &Name)
    ensures { pulls.new ≡ map.remove pulls.old name.now }
{
    let _ended = pulls.remove(name);
}

// Puts the pull's record, and then makes the writes. If a write fails, the record is taken back.
fn put_and_write<S: Store>(
    index: &mut Index,
    store: &mut Traced<S>,
    alloc: Global,
    name: &Name,
    copy: Option<&Name>,
    node: Option<&Node>,
    pull: &Pull,
) -> Result<(), FolderError>
    requires named { pull.now.target.name ≡ name.now }
    requires node { map.get store.old.contents name.now ≡ option_copied node }
    requires kept { IsSome copy → IsSome (option_copied node) }
    requires complete { IsFile pull.now.target → (¬ HasContentOf (map.get index.old.records name.now) pull.now.target) → ¬ IsMissingBlocks pull.now }
    ensures puts { PutsAndWrites name.now pull.now (option_copied copy.entry) (option_copied node.entry) index.old index.new store.old store.new result }
    ensures called { CallsSince store.old.made (map.get index.old.records name.now) (option_copied node.entry) pull.now (option_copied copy.entry) store.new.made store.new.trace.failed result }
{
    let same = has_content_of(index.get(name), pull.target());
    let undo = match put_adopted(index, alloc, name, pull.target()) {
        Ok(undo) => undo,
        Err(error) => return Err(error),
    };
    match write_all(store, name, copy, node, pull, same) {
        Ok(()) => Ok(()),
        Err(error) => {
            index.undo(undo);
            Err(error)
        }
    }
}
