//! What is read of a folder at a device without its store.
ghost use Rattle.std.specs.Prelude.{◌≡◌, None, Some, IfSome};
ghost use Rattle.std.specs.Option.{option_copied};
ghost use Rattle.std.specs.FinMap as map;
ghost use Rattle.bep_store.specs.Range.{HasRangeHash};
ghost use Rattle.bep_store.specs.Sure.{NeverFails};
ghost use Rattle.bep_machine.specs.Replica.{node_at};
ghost use Rattle.bep_folder.specs.Held.{AreOthers, ArePulls};

use crate::{Pull, Replica};
use bep_index::{Index, View};
use bep_map::NameMap;
use bep_record::{DeviceId, FolderKind, FolderName, Name, Node};
use bep_store::Store;

impl<S: Store> Replica<S> {
    /// The device whose folder this is.
    pub fn device(&self) -> DeviceId
        ensures { result ≡ self.now.device }
    {
        self.device
    }

    /// The folder's name.
    pub fn folder(&self) -> &FolderName
        ensures { result.now ≡ self.now.folder }
    {
        &self.folder
    }

    /// What the device does with the folder.
    pub fn kind(&self) -> FolderKind
        ensures { result ≡ self.now.tables.kind }
    {
        self.kind
    }

    /// The other devices that share the folder, rising.
    pub fn others(&self) -> &[DeviceId]
        ensures value { result.now ≡ self.now.tables.others }
        ensures others { AreOthers self.now.device self.now.tables.others }
    {
        self.others.as_slice()
    }

    /// The device's own index.
    pub fn index(&self) -> &Index
        ensures { result.now ≡ self.now.tables.index }
    {
        &self.index
    }

    /// What the device knows of another device's index; `None` before anything was known of it.
    pub fn view(&self, device: DeviceId) -> Option<&View>
        ensures { option_copied result ≡ map.get self.now.tables.views device }
    {
        self.views.get(device)
    }

    /// The name's pull, if there is one.
    pub fn pull(&self, name: &Name) -> Option<&Pull>
        ensures { option_copied result ≡ map.get self.now.tables.pulls name.now }
    {
        self.pulls.get(name)
    }

    /// The pulls, each under its target's name.
    pub fn pulls(&self) -> &NameMap<Pull>
        ensures value { result.now ≡ self.now.tables.pulls }
        ensures pulls { ArePulls self.now.tables.pulls }
    {
        &self.pulls
    }

    /// The node that stands at the name now, lent, where the store has it at hand; that is no call of the store. `None` says
    /// nothing: then `look` tells.
    pub fn at_hand(&self, name: &Name) -> Option<&Node>
        ensures { IfSome (option_copied result) (λ node. node_at self.now.tables name.now ≡ Some node) }
    {
        self.store.at_hand(name)
    }

    /// The hash of so many bytes of the name's file from this offset on, where the store can tell it from its memory; that is no
    /// call of the store that may fail. `None` says nothing.
    pub fn hash_at_hand(&mut self, name: &Name, offset: u64, size: u32) -> Option<[u8; 32]>
        ensures hash { IfSome result (HasRangeHash (node_at self.old.tables name.now) offset size) }
        ensures same { self.new ≡ self.old }
    {
        self.store.hash_at_hand(name, offset, size)
    }

    /// What the last call did that may change the folder or look into its store: which of its calls of the store
    /// failed, counted from 1, and whether it wrote a conflict copy. None failed if no store of the kind ever fails.
    pub fn trace(&self) -> (Option<u32>, bool)
        ensures value { result ≡ (self.now.trace.failed, self.now.trace.copied) }
        ensures sure { NeverFails S.faults → result.0 ≡ None }
    {
        self.store.trace()
    }
}
