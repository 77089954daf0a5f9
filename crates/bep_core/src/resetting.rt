//! A device that starts over with empty indexes: its links are lost.
ghost use Rattle.std.specs.Prelude.{◌≡◌};
ghost use Rattle.bep_machine.specs.declared.step.Step.TheVariants.{Reset};
ghost use Rattle.bep_machine.specs.Steps.{IsStep};
ghost use Rattle.bep_peer.specs.network.Network.{cluster_of, failed_at};
ghost use Rattle.bep_core.specs.Counts.{IsCounted};
ghost use Rattle.bep_core.specs.Why.{Gives};

use crate::restarting::lose_links;
use crate::{Cluster, Why};
use bep_index::IndexId;
use bep_machine::{Moved, Refusal};
use bep_record::DeviceId;
use bep_store::Store;

impl<S: Store> Cluster<S> {
    // The device starts over with empty indexes under this id, and all its links are lost.
    pub(crate) fn reset(&mut self, device: DeviceId, id: IndexId) -> Result<Moved, Why>
        ensures step { Gives (IsStep (Reset device id) (failed_at self.new.members device) (cluster_of self.old)) (cluster_of self.new) result }
        ensures counts { IsCounted (Reset device id) self.old self.new result }
    {
        let Some(place) = self.device_place(device) else {
            return Err(Why::Refused(Refusal::NotShared));
        };
        match self.peers[place].reset(id) {
            Err(_) => Err(Why::Refused(Refusal::IndexIdOld)),
            Ok(()) => {
                lose_links(&mut self.links, device);
                Ok(Moved::Changed)
            }
        }
    }
}
