//! A device that starts again: its links are lost.
ghost use Rattle.std.specs.Prelude.{◌≡◌, map};
ghost use Rattle.bep_machine.specs.Link.{lost};
ghost use Rattle.bep_machine.specs.declared.step.Step.TheVariants.{Restart};
ghost use Rattle.bep_machine.specs.Steps.{IsStep};
ghost use Rattle.bep_peer.specs.network.Network.{cluster_of, failed_at};
ghost use Rattle.bep_core.specs.Counts.{IsCounted};
ghost use Rattle.bep_core.specs.Why.{Gives};
ghost use Rattle.bep_core.specs.inner.Restart.{left_by};

use crate::{Cluster, Why};
use bep_links::Link;
use bep_machine::{Moved, Refusal};
use bep_record::DeviceId;
use bep_store::Store;

impl<S: Store> Cluster<S> {
    // The device starts again, and all its links are lost.
    pub(crate) fn restart(&mut self, device: DeviceId) -> Result<Moved, Why>
        ensures step { Gives (IsStep (Restart device) (failed_at self.new.members device) (cluster_of self.old)) (cluster_of self.new) result }
        ensures counts { IsCounted (Restart device) self.old self.new result }
    {
        let Some(place) = self.device_place(device) else {
            return Err(Why::Refused(Refusal::NotShared));
        };
        self.peers[place].restart();
        lose_links(&mut self.links, device);
        Ok(Moved::Changed)
    }
}

// Each link of the device is lost.
pub(crate) fn lose_links(links: &mut Vec<Link>, device: DeviceId)
    ensures { links.new.items ≡ map (left_by device) links.old.items }
{
    for link in links.iter_mut() {
        leave(link, device);
    }
}

// The link is lost, if the device is at one of its ends.
fn leave(link: &mut Link, device: DeviceId)
    ensures { link.new ≡ left_by device link.old }
{
    let (lower, upper) = link.ends();
    if lower == device || upper == device {
        lose_if_up(link);
    }
}

// The link is down then, with nothing on its way.
fn lose_if_up(link: &mut Link)
    ensures { link.new ≡ record link.old { link = lost link.old.link } }
{
    if link.is_up() {
        let _lost = link.lose();
    }
}
