//! A store that fails one of its calls.
ghost use Rattle.std.specs.Prelude.{◌≡◌, ◌<◌, false, IfOk, IsErr, IsErrOf, IsTrue, None, OnErr, OnOk};
ghost use Rattle.std.specs.Option.{option_copied};
ghost use Rattle.std.specs.FinMap as map;
ghost use Rattle.bep_store.specs.FaultStore.{is_due, after_call, all_faults, CountsCall};
ghost use Rattle.bep_store.specs.Store.{after_set_time, CountsFault};

use crate::{Store, StoreError, StoreFault};
use bep_record::{Name, Node};
use std::alloc::Global;
use std::marker::Model;

/// A store that fails one call, which doesn't reach the store inside, and passes every other call on to that store.
pub struct FaultStore<S> {
    inner: S,
    left: u64,
    failed: bool,
}

// By hand: a caller's proof then sees one call where it lets go of one, and not each field (docs/developing.md).
impl<S: Drop> Drop for FaultStore<S> {
    fn drop(self) {
        let FaultStore {
            inner: _,
            left: _,
            failed: _,
        } = self;
    }
}

impl<S> Model for FaultStore<S> {
    ghost use Rattle.std.specs.Prelude.{◌≡◌, IsTrue};
    ghost use Rattle.bep_store.specs.FaultStore.{Failing, failing_code};

    ghost Value = { Failing S };

    ghost coded = { failing_code S.code };

    ghost view = { λ store. record { inner = store.inner; left = store.left; failed = store.failed } };

    ghost invariant = { λ store. IsTrue store.failed → store.left ≡ 0 };
}

impl<S> FaultStore<S> {
    /// The store that fails this one of the calls that can fail, counted from 1; none of them where `call` is 0.
    pub fn new(inner: S, call: u64) -> Self
        ensures { result ≡ record { inner = inner; left = call; failed = false } }
    {
        FaultStore {
            inner,
            left: call,
            failed: false,
        }
    }

    // Counts a call, and tells whether it is the one that fails.
    fn count_call(&mut self) -> bool
        ensures due { result ≡ is_due self.old }
        ensures counted { self.new ≡ after_call self.old self.old.inner }
        ensures first { IsTrue result → self.old.failed ≡ false }
    {
        let due = self.left == 1;
        self.left = self.left.saturating_sub(1);
        self.failed = due || self.failed;
        due
    }
}

impl<S: Store> Store for FaultStore<S> {
    ghost contents = { λ store. S.contents store.inner };

    ghost faults = { all_faults S.faults };

    fn names(&mut self, alloc: Global) -> Result<Vec<Name>, StoreError>
        ensures names { IfOk result (λ names. names.items ≡ map.keys (S.contents self.old.inner)) }
        ensures same { S.contents self.new.inner ≡ S.contents self.old.inner }
        ensures counted { CountsFault (all_faults S.faults self.old) (all_faults S.faults self.new) result }

        ensures due { IsTrue (is_due self.old) → IsErrOf result StoreError.Fault }
        ensures call { CountsCall self.old self.new }
    {
        if self.count_call() {
            return Err(StoreError::Fault);
        }
        self.inner.names(alloc)
    }

    fn read(&mut self, alloc: Global, name: &Name) -> Result<Option<Node>, StoreError>
        ensures node { IfOk result (λ node. node ≡ map.get (S.contents self.old.inner) name.now) }
        ensures same { S.contents self.new.inner ≡ S.contents self.old.inner }
        ensures counted { CountsFault (all_faults S.faults self.old) (all_faults S.faults self.new) result }

        ensures due { IsTrue (is_due self.old) → IsErrOf result StoreError.Fault }
        ensures call { CountsCall self.old self.new }
    {
        if self.count_call() {
            return Err(StoreError::Fault);
        }
        self.inner.read(alloc, name)
    }

    fn write(&mut self, name: &Name, node: &Node) -> Result<(), StoreError>
        ensures ok { OnOk result (S.contents self.new.inner ≡ map.insert (S.contents self.old.inner) name.now node.now) }
        ensures err { OnErr result (S.contents self.new.inner ≡ S.contents self.old.inner) }
        ensures counted { CountsFault (all_faults S.faults self.old) (all_faults S.faults self.new) result }

        ensures due { IsTrue (is_due self.old) → IsErrOf result StoreError.Fault }
        ensures call { CountsCall self.old self.new }
    {
        if self.count_call() {
            return Err(StoreError::Fault);
        }
        self.inner.write(name, node)
    }

    fn set_time(&mut self, name: &Name, seconds: i64, nanoseconds: u32) -> Result<(), StoreFault>
        ensures ok { OnOk result (S.contents self.new.inner ≡ after_set_time (S.contents self.old.inner) name.now seconds nanoseconds) }
        ensures err { OnErr result (S.contents self.new.inner ≡ S.contents self.old.inner) }
        ensures steady { OnOk result (all_faults S.faults self.new ≡ all_faults S.faults self.old) }
        ensures risen { OnErr result (all_faults S.faults self.old < all_faults S.faults self.new) }

        ensures due { IsTrue (is_due self.old) → IsErr result }
        ensures call { CountsCall self.old self.new }
    {
        if self.count_call() {
            return Err(StoreFault);
        }
        self.inner.set_time(name, seconds, nanoseconds)
    }

    fn remove(&mut self, name: &Name) -> Result<(), StoreFault>
        ensures ok { OnOk result (S.contents self.new.inner ≡ map.remove (S.contents self.old.inner) name.now) }
        ensures err { OnErr result (S.contents self.new.inner ≡ S.contents self.old.inner) }
        ensures steady { OnOk result (all_faults S.faults self.new ≡ all_faults S.faults self.old) }
        ensures risen { OnErr result (all_faults S.faults self.old < all_faults S.faults self.new) }

        ensures due { IsTrue (is_due self.old) → IsErr result }
        ensures call { CountsCall self.old self.new }
    {
        if self.count_call() {
            return Err(StoreFault);
        }
        self.inner.remove(name)
    }

    /// It lends nothing: each read of it is a call, which it counts.
    fn at_hand(&self, _name: &Name) -> Option<&Node>
        ensures none { option_copied result ≡ None }
    {
        let _ = &self.inner;
        None
    }

    /// It tells nothing from memory.
    fn hash_at_hand(&mut self, _name: &Name, _offset: u64, _size: u32) -> Option<[u8; 32]>
        ensures none { result ≡ None }
        ensures unchanged { self.new ≡ self.old }
    {
        None
    }

    fn faults(&self) -> u64 {
        self.inner.faults().saturating_add(u64::from(self.failed))
    }
}
