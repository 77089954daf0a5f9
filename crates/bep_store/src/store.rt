//! What every store promises.
ghost use Rattle.std.specs.Prelude.{◌≡◌, ◌<◌, ℕ, min, IfOk, IfSome, OnOk, OnErr, Some};
ghost use Rattle.std.specs.Option.{option_copied};
ghost use Rattle.std.specs.FinMap as map;
ghost use Rattle.bep_map.specs.NameMap.{ByName};
ghost use Rattle.bep_record.specs.declared.node.NodeParts.{NodeParts};
ghost use Rattle.bep_store.specs.Range.{HasRangeHash};
ghost use Rattle.bep_store.specs.Store.{after_set_time, AreNodes, CountsFault};

use crate::{StoreError, StoreFault};
use bep_record::{Name, Node};
use std::alloc::Global;

/// Where a device keeps the files of a folder: a node under each name that has one.
///
/// Each call but `at_hand`, `hash_at_hand` and `faults` may fail. It answers a fault exactly where the count of faults
/// rose, and after a fault or want of memory the store holds what it held. This project's profile.
pub trait Store: Drop {
    /// What the store holds: the node of each name that has one.
    ghost contents: { Self → ByName NodeParts };

    /// How often the store has failed.
    ghost faults: { Self → ℕ };

    /// The names that have a node, rising, each once.
    fn names(&mut self, alloc: Global) -> Result<Vec<Name>, StoreError>
        ensures names { IfOk result (λ names. names.items ≡ map.keys (contents self.old)) }
        ensures same { contents self.new ≡ contents self.old }
        ensures counted { CountsFault (faults self.old) (faults self.new) result };

    /// The node of the name, a copy of its own; none where the name has none.
    fn read(&mut self, alloc: Global, name: &Name) -> Result<Option<Node>, StoreError>
        ensures node { IfOk result (λ node. node ≡ map.get (contents self.old) name.now) }
        ensures same { contents self.new ≡ contents self.old }
        ensures counted { CountsFault (faults self.old) (faults self.new) result };

    /// Gives the name a copy of the node, in place of the one that it has.
    fn write(&mut self, name: &Name, node: &Node) -> Result<(), StoreError>
        ensures ok { OnOk result (contents self.new ≡ map.insert (contents self.old) name.now node.now) }
        ensures err { OnErr result (contents self.new ≡ contents self.old) }
        ensures counted { CountsFault (faults self.old) (faults self.new) result };

    /// Gives the name's node this time, in seconds since 1970 and nanoseconds. Changes nothing where the name has no
    /// node, nor for 1000000000 nanoseconds or more. Takes no memory.
    fn set_time(&mut self, name: &Name, seconds: i64, nanoseconds: u32) -> Result<(), StoreFault>
        ensures ok { OnOk result (contents self.new ≡ after_set_time (contents self.old) name.now seconds nanoseconds) }
        ensures err { OnErr result (contents self.new ≡ contents self.old) }
        ensures steady { OnOk result (faults self.new ≡ faults self.old) }
        ensures risen { OnErr result (faults self.old < faults self.new) };

    /// Takes the name's node away. Changes nothing where the name has none. Takes no memory.
    fn remove(&mut self, name: &Name) -> Result<(), StoreFault>
        ensures ok { OnOk result (contents self.new ≡ map.remove (contents self.old) name.now) }
        ensures err { OnErr result (contents self.new ≡ contents self.old) }
        ensures steady { OnOk result (faults self.new ≡ faults self.old) }
        ensures risen { OnErr result (faults self.old < faults self.new) };

    /// The node of the name, lent, where the store has it at hand: this is no call that may fail, and makes no copy. `None`
    /// says nothing; a store that has no nodes in memory answers nothing else.
    fn at_hand(&self, _name: &Name) -> Option<&Node>
        ensures lent { IfSome (option_copied result) (λ node. map.get (contents self.now) _name.now ≡ Some node) }
    {
        None
    }

    /// The SHA-256 of so many bytes of the name's file from this offset on, where the store can tell it from its memory: this
    /// is no call that may fail. A store may keep what it told, so that the hash is made once until the file changes. `None`
    /// says nothing.
    fn hash_at_hand(&mut self, _name: &Name, _offset: u64, _size: u32) -> Option<[u8; 32]>
        ensures hash { IfSome result (HasRangeHash (map.get (contents self.old) _name.now) _offset _size) }
        ensures same { contents self.new ≡ contents self.old }
        ensures steady { faults self.new ≡ faults self.old }
    {
        None
    }

    /// How often the store has failed, at most 18446744073709551615. It also says that all that the store holds are
    /// nodes, since it is the one call that changes no store.
    fn faults(&self) -> u64
        ensures count { result ≡ min (faults self.now) u64.MAX }
        ensures nodes { AreNodes (contents self.now) };
}
