//! The steps of one device over its link with another one.
ghost use Rattle.std.specs.Prelude.{◌≡◌, ◌≢◌, ◌⊎◌, Some, None, IfSome, IfNone, IsErrOf, option_map};
ghost use Rattle.std.specs.List.{position};
ghost use Rattle.bep_machine.specs.Steps.{IsStep};
ghost use Rattle.bep_peer.specs.Lent.{StepOver};
ghost use Rattle.bep_model.specs.Tables.{Device};
ghost use Rattle.bep_peer.specs.Member.{Remains, untold};
ghost use Rattle.bep_peer.specs.PeerError.{Gives as GivesThere};
ghost use Rattle.bep_peer.specs.Unhidden.{IsUnrefused};
ghost use Rattle.bep_peer.specs.network.Network.{cluster_of, failed_at, in_order, is_between, is_number, member_at};
ghost use Rattle.bep_core.specs.Counts.{IsCounted};
ghost use Rattle.bep_core.specs.inner.Over.{TellsOver, row_of, shares_of, step_of};
ghost use Rattle.bep_core.specs.Unhidden.{HidesNone};
ghost use Rattle.bep_core.specs.Why.{Gives};

use crate::folder_steps::answered;
use crate::{Cluster, Why};
use bep_links::Link;
use bep_machine::{Moved, Refusal};
use bep_peer::{Peer, PeerError};
use bep_record::{DeviceId, FolderName, Name};
use bep_store::Store;

// What a device does over its link with another one.
#[derive(Drop)]
pub(crate) enum Over {
    // it begins a session
    Begin,
    // it takes the first message that came from the other one
    Deliver,
    // it sends what comes next of the folder's index
    Announce(FolderName),
    // it asks for the next block of the name's pull
    Ask(FolderName, Name),
}

impl<S: Store> Cluster<S> {
    // Where the link between the two stands, whichever is named first.
    fn place_between(&self, device: DeviceId, other: DeviceId) -> Option<usize>
        ensures { result ≡ position (is_between (in_order device other).0 (in_order device other).1) self.now.links }
    {
        if device < other {
            self.link_place(device, other)
        } else {
            self.link_place(other, device)
        }
    }

    // Where the device stands, and its link with the other one, if there is one.
    fn places(&self, device: DeviceId, other: DeviceId) -> Option<(usize, usize)>
        ensures device { IfSome result (λ places. position (is_number device) self.now.members ≡ Some places.0) }
        ensures link { IfSome result (λ places. position (is_between (in_order device other).0 (in_order device other).1) self.now.links ≡ Some places.1) }
        ensures none { IfNone result ((position (is_number device) self.now.members ≡ None) ⊎ (position (is_between (in_order device other).0 (in_order device other).1) self.now.links ≡ None)) }
    {
        let place = self.device_place(device)?;
        let between = self.place_between(device, other)?;
        Some((place, between))
    }

    // Nothing is told of the device's last action any more, if the device is there; all else stays.
    fn tell_nothing(&mut self, device: DeviceId)
        ensures same { cluster_of self.new ≡ cluster_of self.old }
        ensures untold { member_at self.new.members device ≡ option_map untold (member_at self.old.members device) }
        ensures others { (other : Device) → other ≢ device → member_at self.new.members other ≡ member_at self.old.members other }
    {
        let Some(place) = self.device_place(device) else {
            return;
        };
        let _told = self.peers[place].take_trace();
    }

    // The device makes the step over its link with the other one.
    pub(crate) fn over(
        &mut self,
        device: DeviceId,
        other: DeviceId,
        step: Over,
    ) -> Result<Moved, Why>
        ensures step { Gives (IsStep (step_of step device other) (failed_at self.new.members device) (cluster_of self.old)) (cluster_of self.new) result }
        ensures counts { IsCounted (step_of step device other) self.old self.new result }
        ensures unhidden { HidesNone (step_of step device other) (failed_at self.new.members device) (cluster_of self.old) result }
    {
        let Some((place, between)) = self.places(device, other) else {
            self.tell_nothing(device);
            return Err(Why::Refused(Refusal::NotShared));
        };
        answered(act(&mut self.peers[place], &mut self.links[between], step))
    }
}

// The device makes the step over the link.
fn act<S: Store>(peer: &mut Peer<S>, link: &mut Link, step: Over) -> Result<Moved, PeerError>
    ensures step { GivesThere (StepOver (row_of step peer.new.trace.failed) (shares_of step) (record { member = peer.old; link = link.old })) (record { member = peer.new; link = link.new }) result }
    ensures unhidden { IsErrOf result PeerError.Memory → IsUnrefused (row_of step peer.new.trace.failed) (shares_of step) (record { member = peer.old; link = link.old }) }
    ensures rest { Remains peer.old peer.new }
    ensures fault { TellsOver step peer.new.trace result }
{
    match step {
        Over::Begin => peer.begin(link),
        Over::Deliver => peer.deliver(link),
        Over::Announce(folder) => peer.announce(link, &folder),
        Over::Ask(folder, name) => peer.ask(link, &folder, &name),
    }
}
