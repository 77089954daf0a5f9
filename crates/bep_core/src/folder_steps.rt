//! The steps of one device within one of its folders.
ghost use Rattle.std.specs.Prelude.{◌≡◌, ◌≢◌, Err, IsErrOf};
ghost use Rattle.std.specs.List.{position};
ghost use Rattle.bep_machine.specs.Steps.{IsStep};
ghost use Rattle.bep_peer.specs.Member.{Remains};
ghost use Rattle.bep_peer.specs.PeerError.{Gives as GivesThere};
ghost use Rattle.bep_peer.specs.Unhidden.{IsUnrefusedWithin};
ghost use Rattle.bep_peer.specs.Within.{StepWithin, TellsFault};
ghost use Rattle.bep_peer.specs.declared.error.PeerError.TheVariants.{Stale};
ghost use Rattle.bep_peer.specs.network.Network.{cluster_of, failed_at, is_number};
ghost use Rattle.bep_core.specs.Counts.{IsCounted};
ghost use Rattle.bep_core.specs.Unhidden.{HidesNone, TestsWithin};
ghost use Rattle.bep_core.specs.inner.Within.{row_of, step_of};
ghost use Rattle.bep_core.specs.Why.{Gives, answer_of};

use crate::{Cluster, Why};
use bep_machine::{Moved, Refusal};
use bep_peer::{Peer, PeerError};
use bep_record::{DeviceId, FolderName, Name, Node};
use bep_store::Store;

// What a device does within a folder.
#[derive(Drop)]
pub(crate) enum Within {
    // a user puts the node at the name
    Edit(Name, Node),
    // a user removes what stands at the name
    Remove(Name),
    // the device compares the name with its own record
    Scan(Name),
    // a user lets the device's own content win
    Override(Name),
    // a user takes a local change back
    Revert(Name),
    // the device begins to pull the record that it wants of the name
    Pull(Name),
    // the device ends the name's pull
    Finish(Name),
}

impl<S: Store> Cluster<S> {
    // Where the device of this number stands.
    pub(crate) fn device_place(&self, device: DeviceId) -> Option<usize>
        ensures { result ≡ position (is_number device) self.now.members }
    {
        self.peers.iter().position(|peer| peer.number() == device)
    }

    // The device makes the step within the folder.
    pub(crate) fn within(
        &mut self,
        device: DeviceId,
        folder: FolderName,
        step: Within,
    ) -> Result<Moved, Why>
        ensures step { Gives (IsStep (step_of step device folder) (failed_at self.new.members device) (cluster_of self.old)) (cluster_of self.new) result }
        ensures counts { IsCounted (step_of step device folder) self.old self.new result }
        ensures unhidden { HidesNone (step_of step device folder) (failed_at self.new.members device) (cluster_of self.old) result }
    {
        let Some(place) = self.device_place(device) else {
            return Err(Why::Refused(Refusal::NotShared));
        };
        answered(make(&mut self.peers[place], &folder, step))
    }
}

// The device makes the step.
fn make<S: Store>(peer: &mut Peer<S>, folder: &FolderName, step: Within) -> Result<Moved, PeerError>
    ensures step { GivesThere (StepWithin folder.now (row_of step peer.old.number peer.new.trace.failed) peer.old) peer.new result }
    ensures unhidden { IsErrOf result PeerError.Memory → TestsWithin step → IsUnrefusedWithin folder.now (row_of step peer.old.number peer.new.trace.failed) peer.old }
    ensures rest { Remains peer.old peer.new }
    ensures fault { TellsFault peer.new result }
{
    match step {
        Within::Edit(name, node) => peer.edit(folder, &name, &node),
        Within::Remove(name) => peer.remove(folder, &name),
        Within::Scan(name) => peer.scan(folder, &name),
        Within::Override(name) => peer.override_one(folder, &name),
        Within::Revert(name) => peer.revert_one(folder, &name),
        Within::Pull(name) => peer.pull(folder, &name),
        Within::Finish(name) => peer.finish(folder, &name),
    }
}

// What a device answered; a step never answers `Stale`.
pub(crate) fn answered(answer: Result<Moved, PeerError>) -> Result<Moved, Why>
    requires { answer ≢ Err Stale }
    ensures { result ≡ answer_of answer }
{
    match answer {
        Ok(moved) => Ok(moved),
        Err(PeerError::Refused(refusal)) => Err(Why::Refused(refusal)),
        Err(PeerError::Stale) => unreachable!(),
        Err(PeerError::Memory) => Err(Why::Memory),
    }
}
