//! Starting over with empty indexes.
ghost use Rattle.std.specs.Prelude.{◌≡◌, ◌↔◌, nat_le, IsErrOf, IfErr, IsTrue, OnOk, OnErr};
ghost use Rattle.bep_machine.specs.declared.refusal.Refusal.TheVariants as refusals;
ghost use Rattle.bep_machine.specs.Steps.{HasIdFrom, reset_to};
ghost use Rattle.bep_peer.specs.Member.{Remains, nothing_told, tables_of, untold};

use crate::{Peer, PeerError};
use bep_folder::Replica;
use bep_index::IndexId;
use bep_machine::Refusal;
use bep_map::DeviceMap;
use bep_store::Store;

impl<S: Store> Peer<S> {
    /// Starts over, as a device does that lost its database: each folder has an empty index under this id, and nothing is
    /// known of what others have; sessions and pulls go; the stores stay. It takes no memory. What it had on its links is
    /// the caller's to take away.
    ///
    /// Refuses `IndexIdOld` where the id isn't above that of each index of the device, and only there: others would take
    /// the new index for an old one. All is as before then.
    pub fn reset(&mut self, id: IndexId) -> Result<(), PeerError>
        ensures step { OnOk result (tables_of self.new ≡ reset_to id (tables_of self.old)) }
        ensures old { IsErrOf result (PeerError.Refused refusals.IndexIdOld) ↔ HasIdFrom id (tables_of self.old) }
        ensures only { IfErr result (λ e. e ≡ PeerError.Refused refusals.IndexIdOld) }
        ensures err { OnErr result (self.new ≡ untold self.old) }
        ensures rest { Remains self.old self.new }
        ensures untold { self.new.trace ≡ nothing_told }
    {
        if self.has_id_from(id) {
            self.tell_nothing();
            return Err(PeerError::Refused(Refusal::IndexIdOld));
        }
        self.begin_anew(id);
        Ok(())
    }

    // Each index is begun anew under this id, whatever ids they have.
    fn begin_anew(&mut self, id: IndexId)
        ensures step { tables_of self.new ≡ reset_to id (tables_of self.old) }
        ensures rest { Remains self.old self.new }
        ensures untold { self.new.trace ≡ nothing_told }
    {
        self.tell_nothing();
        self.folders.retain(|_, replica| {
            replica.reset(id);
            true
        });
        self.sessions = DeviceMap::new(self.alloc);
    }

    // Whether some index of the device has this id, or one above it.
    fn has_id_from(&self, id: IndexId) -> bool
        ensures { IsTrue result ↔ HasIdFrom id (tables_of self.now) }
    {
        self.folders.iter().any(|(_, replica)| is_from(replica, id))
    }
}

fn is_from<S: Store>(replica: &Replica<S>, id: IndexId) -> bool
    ensures { result ≡ nat_le id replica.now.tables.index.id }
{
    id <= replica.index().id()
}
