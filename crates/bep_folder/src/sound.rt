//! That what a device has of a folder is sound by its type. The functions change nothing; their contracts are the facts.
ghost use Rattle.std.specs.List.{AllByRecursion};
ghost use Rattle.std.specs.FinMap as map;
ghost use Rattle.bep_machine.specs.Sound.{IsSoundReplica};
ghost use Rattle.bep_folder.specs.inner.Sound.{IsGoodPull, IsGoodView};

use crate::{Pull, Replica};
use bep_index::{View, record_is_good};
use bep_map::{DeviceMap, NameMap};
use bep_store::Store;

impl<S: Store> Replica<S> {
    /// What the device has of the folder is sound, whatever was called of it. Records of its index, of its views and those
    /// that it pulls are well formed, with versions that rise and have at most 16 counters. Views are of devices that share
    /// the folder. No pull is of an invalid record or under another name, its received blocks have their sizes, and there
    /// are at most 64. What the store holds are nodes, as every store must keep. It changes nothing, and takes no memory.
    pub fn tables_are_sound(&self)
        ensures { IsSoundReplica self.now.device self.now.tables }
    {
        self.index.records_are_good();
        views_are_sound(&self.views);
        pulls_are_sound(&self.pulls);
        self.store.nodes_are_kept();
    }
}

fn views_are_sound(views: &DeviceMap<View>)
    ensures { AllByRecursion IsGoodView (map.values views.now) }
{
    for view in views.values() {
        view.records_are_good();
    }
}

fn pulls_are_sound(pulls: &NameMap<Pull>)
    ensures { AllByRecursion IsGoodPull (map.values pulls.now) }
{
    for pull in pulls.values() {
        record_is_good(pull.target());
    }
}
