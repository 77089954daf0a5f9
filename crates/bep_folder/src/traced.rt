//! A store whose calls are counted: which one of the current action failed, and whether it wrote a conflict copy.
ghost use Rattle.std.specs.Prelude.{◌≡◌, ◌↔◌, true, None, Some, IsTrue, IfOk, IfErr, IfSome, OnOk, OnErr};
ghost use Rattle.std.specs.Option.{option_copied};
ghost use Rattle.std.specs.FinMap as map;
ghost use Rattle.bep_store.specs.Range.{HasRangeHash};
ghost use Rattle.bep_store.specs.Store.{AreNodes, after_set_time};
ghost use Rattle.bep_store.specs.Sure.{NeverFails};
ghost use Rattle.bep_store.specs.declared.error.StoreError.TheVariants.{Fault};
ghost use Rattle.bep_folder.specs.FolderError.{of_store};
ghost use Rattle.bep_folder.specs.Trace.{begun, no_trace, next_call, noted, CountsCall};

use crate::FolderError;
use bep_record::{Name, Node};
use bep_store::{Store, StoreError};
use std::alloc::Global;
use std::marker::Model;

// A store, and what is known of the calls that the current action made of it. None of these failed where no store of its
// kind ever fails.
pub(crate) struct Traced<S: Store> {
    store: S,
    made: u32,
    failed: Option<u32>,
    copied: bool,
}

// By hand: a caller's proof then sees one call where it lets go of one, and not each field (docs/developing.md).
impl<S: Store> Drop for Traced<S> {
    fn drop(self) {
        let Traced {
            store: _,
            made: _,
            failed: _,
            copied: _,
        } = self;
    }
}

impl<S: Store> Model for Traced<S> {
    ghost use Rattle.std.specs.Prelude.{◌≡◌, None};
    ghost use Rattle.bep_record.specs.contracts.node.NodeParts as parts;
    ghost use Rattle.bep_store.specs.Sure.{NeverFails};
    ghost use Rattle.bep_folder.specs.Trace.{TracedStore, traced_code};

    ghost Value = { TracedStore };

    ghost coded = { traced_code parts.the_row.coded };

    ghost view = { λ t. record { contents = S.contents t.store; faults = S.faults t.store; made = t.made; trace = record { failed = t.failed; copied = t.copied } } };

    ghost invariant = { λ t. NeverFails S.faults → t.failed ≡ None };
}

impl<S: Store> Traced<S> {
    // The store, of which no call was made yet.
    pub(crate) fn new(store: S) -> Self
        ensures { result ≡ record { contents = S.contents store; faults = S.faults store; made = 0; trace = no_trace } }
    {
        Traced {
            store,
            made: 0,
            failed: None,
            copied: false,
        }
    }

    // Begins an action, which has made no call yet.
    pub(crate) fn begin(&mut self)
        ensures { self.new ≡ begun self.old }
    {
        self.made = 0;
        self.failed = None;
        self.copied = false;
    }

    // Which call of the current action failed, counted from 1, and whether a conflict copy was written.
    pub(crate) fn trace(&self) -> (Option<u32>, bool)
        ensures value { result ≡ (self.now.trace.failed, self.now.trace.copied) }
        ensures sure { NeverFails S.faults → result.0 ≡ None }
    {
        (self.failed, self.copied)
    }

    // What the store holds are nodes, as every store keeps. It does nothing.
    pub(crate) fn nodes_are_kept(&self)
        ensures { AreNodes self.now.contents }
    {
        self.store.faults();
    }

    // Counts the call that is made next.
    fn count(&mut self)
        ensures { self.new ≡ record self.old { made = next_call self.old.made } }
    {
        self.made = self.made.saturating_add(1);
    }

    // Notes the error of the last call, and answers it as this crate's.
    fn noted(&mut self, error: StoreError) -> FolderError
        requires unsure { error ≡ Fault → ¬ NeverFails S.faults }
        ensures value { result ≡ of_store error }
        ensures noted { self.new ≡ noted self.old error }
    {
        match error {
            StoreError::Fault => self.failed = Some(self.made),
            StoreError::Memory => {}
        }
        FolderError::from(error)
    }

    // The names that have a node, rising, each once.
    pub(crate) fn names(&mut self, alloc: Global) -> Result<Vec<Name>, FolderError>
        ensures names { IfOk result (λ names. names.items ≡ map.keys self.old.contents) }
        ensures same { self.new.contents ≡ self.old.contents }
        ensures counted { CountsCall self.old self.new result }
    {
        self.count();
        match self.store.names(alloc) {
            Ok(names) => Ok(names),
            Err(error) => Err(self.noted(error)),
        }
    }

    // The node of the name, a copy of its own.
    pub(crate) fn read(&mut self, alloc: Global, name: &Name) -> Result<Option<Node>, FolderError>
        ensures node { IfOk result (λ node. node ≡ map.get self.old.contents name.now) }
        ensures same { self.new.contents ≡ self.old.contents }
        ensures counted { CountsCall self.old self.new result }
    {
        self.count();
        match self.store.read(alloc, name) {
            Ok(node) => Ok(node),
            Err(error) => Err(self.noted(error)),
        }
    }

    // The name's node, lent, where the store has it at hand. It is no call of the store.
    pub(crate) fn at_hand(&self, name: &Name) -> Option<&Node>
        ensures { IfSome (option_copied result) (λ node. map.get self.now.contents name.now ≡ Some node) }
    {
        self.store.at_hand(name)
    }

    // The hash of so many bytes of the name's file from this offset on, where the store can tell it from its memory. It is no
    // call of the store that may fail.
    pub(crate) fn hash_at_hand(&mut self, name: &Name, offset: u64, size: u32) -> Option<[u8; 32]>
        ensures hash { IfSome result (HasRangeHash (map.get self.old.contents name.now) offset size) }
        ensures same { self.new ≡ self.old }
    {
        self.store.hash_at_hand(name, offset, size)
    }

    // Whether the name has no node.
    pub(crate) fn lacks(&mut self, alloc: Global, name: &Name) -> Result<bool, FolderError>
        ensures lacks { IfOk result (λ lacks. IsTrue lacks ↔ (map.get self.old.contents name.now ≡ None)) }
        ensures same { self.new.contents ≡ self.old.contents }
        ensures counted { CountsCall self.old self.new result }
    {
        let node = self.read(alloc, name)?;
        Ok(node.is_none())
    }

    // Gives the name a copy of the node.
    pub(crate) fn write(&mut self, name: &Name, node: &Node) -> Result<(), FolderError>
        ensures ok { OnOk result (self.new.contents ≡ map.insert self.old.contents name.now node.now) }
        ensures err { OnErr result (self.new.contents ≡ self.old.contents) }
        ensures counted { CountsCall self.old self.new result }
    {
        self.count();
        match self.store.write(name, node) {
            Ok(()) => Ok(()),
            Err(error) => Err(self.noted(error)),
        }
    }

    // Gives the name's node, if it has one, this time. Takes no memory.
    pub(crate) fn set_time(
        &mut self,
        name: &Name,
        seconds: i64,
        nanoseconds: u32,
    ) -> Result<(), FolderError>
        ensures ok { OnOk result (self.new.contents ≡ after_set_time self.old.contents name.now seconds nanoseconds) }
        ensures err { OnErr result (self.new.contents ≡ self.old.contents) }
        ensures only { IfErr result (λ e. e ≡ FolderError.StoreFault) }
        ensures counted { CountsCall self.old self.new result }
    {
        self.count();
        match self.store.set_time(name, seconds, nanoseconds) {
            Ok(()) => Ok(()),
            Err(fault) => Err(self.noted(StoreError::from(fault))),
        }
    }

    // Takes the name's node away, if it has one. Takes no memory.
    pub(crate) fn remove(&mut self, name: &Name) -> Result<(), FolderError>
        ensures ok { OnOk result (self.new.contents ≡ map.remove self.old.contents name.now) }
        ensures err { OnErr result (self.new.contents ≡ self.old.contents) }
        ensures only { IfErr result (λ e. e ≡ FolderError.StoreFault) }
        ensures counted { CountsCall self.old self.new result }
    {
        self.count();
        match self.store.remove(name) {
            Ok(()) => Ok(()),
            Err(fault) => Err(self.noted(StoreError::from(fault))),
        }
    }

    // Notes that the last call wrote a conflict copy.
    pub(crate) fn note_copy(&mut self)
        ensures { self.new ≡ record self.old { trace = record self.old.trace { copied = true } } }
    {
        self.copied = true;
    }
}
