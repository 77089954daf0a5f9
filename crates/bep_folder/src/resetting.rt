//! Starting over with an empty index.
ghost use Rattle.std.specs.Prelude.{◌≡◌};
ghost use Rattle.bep_machine.specs.Steps.{anew_under};
ghost use Rattle.bep_folder.specs.Views.{unchanged};

use crate::Replica;
use bep_index::{Index, IndexId};
use bep_map::{DeviceMap, NameMap};
use bep_store::Store;

impl<S: Store> Replica<S> {
    /// Starts over, as a device does that lost its database: the index has this id and no record, nothing is known of what
    /// the others have, and all pulls go; the store stays. It takes no memory. Whether the id is above that of each index
    /// that the device has had is the caller's to see to, since the device has other folders.
    ///
    /// BEP v1, 'Fields (ClusterConfig)', field 'index_id'.
    pub fn reset(&mut self, id: IndexId)
        ensures { self.new ≡ record (unchanged self.old) { tables = anew_under id self.old.tables } }
    {
        self.begin();
        self.index = Index::new(self.alloc, id);
        self.views = DeviceMap::new(self.alloc);
        self.pulls = NameMap::new(self.alloc);
    }
}
