//! The steps of a cluster's links: they come up and go down.
ghost use Rattle.std.specs.Prelude.{◌≡◌, None};
ghost use Rattle.std.specs.List.{position};
ghost use Rattle.bep_machine.specs.Steps.{IsStep};
ghost use Rattle.bep_core.specs.inner.Between.{row_of, step_of};
ghost use Rattle.bep_core.specs.Counts.{IsCounted};
ghost use Rattle.bep_peer.specs.network.Network.{cluster_of, is_between};
ghost use Rattle.bep_core.specs.Why.{Gives};

use crate::{Cluster, Why};
use bep_links::{Link, LinkError};
use bep_machine::{Moved, Refusal};
use bep_record::DeviceId;
use bep_store::Store;

// What becomes of the link between two devices.
#[derive(Drop)]
pub(crate) enum Between {
    // it comes up
    Connect,
    // it goes down
    Lose,
}

impl<S: Store> Cluster<S> {
    // Where the link between the two stands, the smaller first.
    pub(crate) fn link_place(&self, lower: DeviceId, upper: DeviceId) -> Option<usize>
        ensures { result ≡ position (is_between lower upper) self.now.links }
    {
        self.links
            .iter()
            .position(|link| link.ends() == (lower, upper))
    }

    // The link between the two makes the step.
    pub(crate) fn between(
        &mut self,
        lower: DeviceId,
        upper: DeviceId,
        step: Between,
    ) -> Result<Moved, Why>
        ensures step { Gives (IsStep (step_of step lower upper) None (cluster_of self.old)) (cluster_of self.new) result }
        ensures counts { IsCounted (step_of step lower upper) self.old self.new result }
    {
        let Some(place) = self.link_place(lower, upper) else {
            return Err(Why::Refused(Refusal::NotShared));
        };
        turn(&mut self.links[place], step)
    }
}

// The link makes the step.
fn turn(link: &mut Link, step: Between) -> Result<Moved, Why>
    ensures row { Gives (row_of step link.old.link) link.new.link result }
    ensures ends { link.new.ends ≡ link.old.ends }
{
    match step {
        Between::Connect => match link.connect() {
            Ok(()) => Ok(Moved::Changed),
            Err(LinkError::NothingToDo) => Err(Why::Refused(Refusal::NothingToDo)),
            Err(LinkError::EpochFull) => Err(Why::Refused(Refusal::EpochFull)),
            Err(_) => unreachable!(),
        },
        Between::Lose => match link.lose() {
            Ok(()) => Ok(Moved::Changed),
            Err(LinkError::LinkDown) => Err(Why::Refused(Refusal::LinkDown)),
            Err(_) => unreachable!(),
        },
    }
}
