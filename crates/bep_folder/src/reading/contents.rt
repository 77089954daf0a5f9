//! What the store of a folder holds, read out; and a copy of the folder in memory.
ghost use Rattle.std.specs.Prelude.{◌≡◌, ◌⊎◌, false, Some, IfOk, IfErr, IsErrOf, OnOk};
ghost use Rattle.std.specs.FinMap as map;
ghost use Rattle.bep_facts.specs.Filled.{with_value};
ghost use Rattle.bep_folder.specs.Contents.{ReadsOut, copied_out};
ghost use Rattle.bep_folder.specs.Makes.{Stays, CountsFaults};

use crate::traced::Traced;
use crate::{FolderError, Replica};
use bep_map::NameMap;
use bep_record::{Name, Node};
use bep_store::{MemStore, Store};
use std::alloc::{AllocError, Global};

impl<S: Store> Replica<S> {
    /// The nodes of the store, each a copy of its own. Refuses `StoreFault` exactly where the store fails to list its names
    /// or to read one, which was then the last call of it, and else only for want of memory. Nothing changes.
    pub fn contents(&mut self) -> Result<NameMap<Node>, FolderError>
        ensures nodes { IfOk result (λ nodes. nodes ≡ self.old.tables.store) }
        ensures same { self.new.tables ≡ self.old.tables }
        ensures only { IfErr result (λ e. (e ≡ FolderError.StoreFault) ⊎ (e ≡ FolderError.Memory)) }

        ensures stays { Stays self.old self.new }
        ensures counted { CountsFaults self.old self.new result }
        ensures last { IsErrOf result FolderError.StoreFault → self.new.trace.failed ≡ Some self.new.made }
        ensures uncopied { self.new.trace.copied ≡ false }
    {
        Ok(self.read_out()?.into_nodes())
    }

    /// The folder with a store in memory that holds what its own store holds: all else is copied. Refuses `StoreFault`
    /// exactly where the store fails to list its names or to read one, and else only for want of memory. Nothing changes.
    pub fn copy_out(&mut self) -> Result<Replica<MemStore>, FolderError>
        ensures copied { IfOk result (λ copy. copy ≡ copied_out self.old) }
        ensures same { self.new.tables ≡ self.old.tables }
        ensures only { IfErr result (λ e. (e ≡ FolderError.StoreFault) ⊎ (e ≡ FolderError.Memory)) }

        ensures stays { Stays self.old self.new }
        ensures counted { CountsFaults self.old self.new result }
        ensures uncopied { self.new.trace.copied ≡ false }
    {
        let store = self.read_out()?;
        Ok(self.copy_over(store)?)
    }

    // What the store holds, in memory.
    fn read_out(&mut self) -> Result<MemStore, FolderError>
        ensures nodes { IfOk result (λ store. store ≡ self.old.tables.store) }
        ensures same { self.new.tables ≡ self.old.tables }
        ensures only { IfErr result (λ e. (e ≡ FolderError.StoreFault) ⊎ (e ≡ FolderError.Memory)) }

        ensures stays { Stays self.old self.new }
        ensures counted { CountsFaults self.old self.new result }
        ensures last { IsErrOf result FolderError.StoreFault → self.new.trace.failed ≡ Some self.new.made }
        ensures uncopied { self.new.trace.copied ≡ false }
    {
        self.store.begin();
        let names = self.store.names(self.alloc)?;
        read_all(&mut self.store, self.alloc, names.as_slice())
    }

    // The folder over this store, or want of memory.
    fn copy_over(&self, store: MemStore) -> Result<Replica<MemStore>, AllocError>
        requires { store ≡ self.now.tables.store }
        ensures { IfOk result (λ copy. copy ≡ copied_out self.now) }
    {
        Ok(Replica {
            device: self.device,
            folder: self.folder.copy(self.alloc)?,
            kind: self.kind,
            others: self.others.copy(self.alloc)?,
            index: self.index.copy(self.alloc)?,
            views: self.views.copy(self.alloc)?,
            pulls: self.pulls.copy(self.alloc)?,
            store: Traced::new(store),
            alloc: self.alloc,
        })
    }
}

// The nodes of these names.
fn read_all<S: Store>(
    store: &mut Traced<S>,
    alloc: Global,
    names: &[Name],
) -> Result<MemStore, FolderError>
    requires { names.now ≡ map.keys store.old.contents }
    ensures nodes { IfOk result (λ nodes. nodes ≡ store.old.contents) }
    ensures reads { ReadsOut store.old store.new result }
{
    let mut nodes = MemStore::new(alloc);
    for name in names {
        read_one(store, &mut nodes, alloc, name)?;
    }
    Ok(nodes)
}

// Adds the node of the name, if it has one.
fn read_one<S: Store>(
    store: &mut Traced<S>,
    nodes: &mut MemStore,
    alloc: Global,
    name: &Name,
) -> Result<(), FolderError>
    ensures ok { OnOk result (nodes.new ≡ with_value nodes.old name.now (map.get store.old.contents name.now)) }
    ensures reads { ReadsOut store.old store.new result }
{
    if let Some(node) = store.read(alloc, name)? {
        nodes.put(name.copy(alloc)?, node)?;
    }
    Ok(())
}
