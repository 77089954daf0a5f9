//! The user's own changes of files, and what a file is now.
ghost use Rattle.std.specs.Prelude.{◌≡◌, ◌⊎◌, false, Some, IfOk, IfErr, IsErrOf};
ghost use Rattle.bep_machine.specs.Local.{EditRow, RemoveRow};
ghost use Rattle.bep_machine.specs.Replica.{node_at};
ghost use Rattle.bep_folder.specs.Calls.{CallsInRemove};
ghost use Rattle.bep_folder.specs.Makes.{Makes, Stays, CountsFaults};

use crate::{FolderError, Replica};
use bep_machine::Moved;
use bep_record::{Name, Node};
use bep_store::Store;

impl<S: Store> Replica<S> {
    /// The node that the store has at the name now, a copy of its own. Refuses `StoreFault` where the store fails, and
    /// else only for want of memory. It calls the store once.
    pub fn look(&mut self, name: &Name) -> Result<Option<Node>, FolderError>
        ensures node { IfOk result (λ node. node ≡ node_at self.old.tables name.now) }
        ensures same { self.new.tables ≡ self.old.tables }
        ensures only { IfErr result (λ e. (e ≡ FolderError.StoreFault) ⊎ (e ≡ FolderError.Memory)) }
        ensures first { IsErrOf result FolderError.StoreFault → self.new.trace.failed ≡ Some 1 }
        ensures called { self.new.made ≡ 1 }

        ensures stays { Stays self.old self.new }
        ensures counted { CountsFaults self.old self.new result }
        ensures uncopied { self.new.trace.copied ≡ false }
    {
        self.store.begin();
        self.store.read(self.alloc, name)
    }

    /// Gives the name this node, as a user does; no record changes before a scan. Refuses `StoreFault` where the store
    /// fails, and else only for want of memory. It calls the store once.
    pub fn edit(&mut self, name: &Name, node: &Node) -> Result<Moved, FolderError>
        ensures edited { Makes (EditRow name.now node.now self.new.trace.failed) self.old self.new result }
        ensures first { IsErrOf result FolderError.StoreFault → self.new.trace.failed ≡ Some 1 }
        ensures called { self.new.made ≡ 1 }

        ensures stays { Stays self.old self.new }
        ensures counted { CountsFaults self.old self.new result }
        ensures uncopied { self.new.trace.copied ≡ false }
    {
        self.store.begin();
        self.store.write(name, node)?;
        Ok(Moved::Changed)
    }

    /// Takes the name's node away, as a user does; no record changes before a scan. Refuses `StoreFault` where the store
    /// fails, `NothingToDo` where the name has no node, and else only for want of memory. It calls the store once, to read,
    /// and once more where there is a node; where a call fails, it was the last one.
    pub fn remove(&mut self, name: &Name) -> Result<Moved, FolderError>
        ensures removed { Makes (RemoveRow name.now self.new.trace.failed) self.old self.new result }
        ensures called { CallsInRemove (node_at self.old.tables name.now) self.new.made self.new.trace.failed result }

        ensures stays { Stays self.old self.new }
        ensures counted { CountsFaults self.old self.new result }
        ensures uncopied { self.new.trace.copied ≡ false }
    {
        self.store.begin();
        if self.store.lacks(self.alloc, name)? {
            return Err(FolderError::NothingToDo);
        }
        self.store.remove(name)?;
        Ok(Moved::Changed)
    }
}
