//! Starting again.
ghost use Rattle.std.specs.Prelude.{◌≡◌};
ghost use Rattle.bep_machine.specs.Steps.{restarted};
ghost use Rattle.bep_peer.specs.Member.{Remains, nothing_told, tables_of};

use crate::Peer;
use bep_map::DeviceMap;
use bep_store::Store;

impl<S: Store> Peer<S> {
    /// Starts again, as a device does that was switched off and on: its sessions and its pulls go; its indexes, its
    /// views and its stores stay. It takes no memory and never fails. The caller takes away what was on its links.
    pub fn restart(&mut self)
        ensures step { tables_of self.new ≡ restarted (tables_of self.old) }
        ensures rest { Remains self.old self.new }
        ensures untold { self.new.trace ≡ nothing_told }
    {
        self.tell_nothing();
        self.folders.retain(|_, replica| {
            replica.forget_pulls();
            true
        });
        self.sessions = DeviceMap::new(self.alloc);
    }
}
