//! The steps of a cluster, one after the other.
ghost use Rattle.std.specs.Prelude.{◌≡◌, ◌≢◌, None, OnErr, Err};
ghost use Rattle.bep_store.specs.Sure.{NeverFails};
ghost use Rattle.bep_machine.specs.Laws.{IsSoundStep};
ghost use Rattle.bep_machine.specs.Steps.{IsStep};
ghost use Rattle.bep_machine.specs.Undone.{LeavesAll};
ghost use Rattle.bep_core.specs.Applying.{failed_by, failed_in, maker_of};
ghost use Rattle.bep_core.specs.Counts.{IsCounted};
ghost use Rattle.bep_peer.specs.network.Network.{cluster_of};
ghost use Rattle.bep_core.specs.Reached.{IsReached};
ghost use Rattle.bep_core.specs.Unhidden.{HidesNone};
ghost use Rattle.bep_core.specs.Why.{Gives};
ghost use Rattle.bep_core.specs.declared.why.Why.TheVariants.{ConfigBad};

use crate::folder_steps::Within;
use crate::link_steps::Between;
use crate::session_steps::Over;
use crate::{Cluster, Why};
use bep_machine::{Moved, Step, undone_steps_leave_all};
use bep_record::DeviceId;
use bep_store::Store;

impl<S: Store> Cluster<S> {
    /// Makes the step, and answers what it did. Refuses `NotShared` where something that the step names isn't there, and
    /// then what the table of steps has for it; else only for want of memory. After an error all is as before, save that
    /// the end of a pull may have kept a conflict copy. A call of a store is told to have failed exactly where the count of
    /// faults of one of the device's stores rose in this step, and exactly where that is answered, by `StoreFault` or by the
    /// response to a request; no other device is touched. Where no store of the kind ever fails, no call of one failed. What
    /// an edit puts is a node, as its type keeps. A step over a link and the beginning of a pull are refused wherever a
    /// refusal is due: want of memory hides none.
    ///
    /// BEP v1; the steps are this project's profile.
    pub fn apply(&mut self, step: Step) -> Result<Moved, Why>
        ensures step { Gives (IsStep step (failed_by step self.new.members) (cluster_of self.old)) (cluster_of self.new) result }
        ensures counts { IsCounted step self.old self.new result }
        ensures unhidden { HidesNone step (failed_by step self.new.members) (cluster_of self.old) result }
        ensures err { OnErr result (LeavesAll step (cluster_of self.old) (cluster_of self.new)) }
        ensures only { result ≢ Err ConfigBad }
        ensures node { IsSoundStep step }
        ensures sure { NeverFails S.faults → failed_by step self.new.members ≡ None }

        ensures reached { IsReached (cluster_of self.old) → IsReached (cluster_of self.new) }
    {
        undone_steps_leave_all();
        puts_a_node(&step);
        let maker = maker_of(&step);
        let made = self.make(step);
        let _failed = self.failed_in(maker);
        made
    }

    // Which call of its store failed in the last action of this device.
    fn failed_in(&self, maker: Option<DeviceId>) -> Option<u32>
        ensures value { result ≡ failed_in maker self.now.members }
        ensures sure { NeverFails S.faults → result ≡ None }
    {
        self.peer(maker?)?.failed()
    }

    // Makes the step.
    fn make(&mut self, step: Step) -> Result<Moved, Why>
        ensures step { Gives (IsStep step (failed_by step self.new.members) (cluster_of self.old)) (cluster_of self.new) result }
        ensures counts { IsCounted step self.old self.new result }
        ensures unhidden { HidesNone step (failed_by step self.new.members) (cluster_of self.old) result }
    {
        match step {
            Step::Edit(device, folder, name, node) => self.within(
                device,
                folder,
                Within::Edit(name, node),
            ),
            Step::Remove(device, folder, name) => self.within(device, folder, Within::Remove(name)),
            Step::Scan(device, folder, name) => self.within(device, folder, Within::Scan(name)),
            Step::Override(device, folder, name) => self.within(
                device,
                folder,
                Within::Override(name),
            ),
            Step::Revert(device, folder, name) => self.within(device, folder, Within::Revert(name)),
            Step::Connect(lower, upper) => self.between(lower, upper, Between::Connect),
            Step::Lose(lower, upper) => self.between(lower, upper, Between::Lose),
            Step::Begin(device, other) => self.over(device, other, Over::Begin),
            Step::Deliver(device, other) => self.over(device, other, Over::Deliver),
            Step::Announce(device, other, folder) => self.over(
                device,
                other,
                Over::Announce(folder),
            ),
            Step::StartPull(device, folder, name) => self.within(
                device,
                folder,
                Within::Pull(name),
            ),
            Step::Ask(device, other, folder, name) => self.over(
                device,
                other,
                Over::Ask(folder, name),
            ),
            Step::Finish(device, folder, name) => self.within(device, folder, Within::Finish(name)),
            Step::Restart(device) => self.restart(device),
            Step::Reset(device, id) => self.reset(device, id),
        }
    }
}

// The device that makes the step, if one does.
fn maker_of(step: &Step) -> Option<DeviceId>
    ensures { result ≡ maker_of step.now }
{
    match step {
        Step::Edit(device, _, _, _)
        | Step::Remove(device, _, _)
        | Step::Scan(device, _, _)
        | Step::Override(device, _, _)
        | Step::Revert(device, _, _)
        | Step::Begin(device, _)
        | Step::Deliver(device, _)
        | Step::Announce(device, _, _)
        | Step::StartPull(device, _, _)
        | Step::Ask(device, _, _, _)
        | Step::Finish(device, _, _)
        | Step::Restart(device)
        | Step::Reset(device, _) => Some(*device),
        Step::Connect(_, _) | Step::Lose(_, _) => None,
    }
}

// What a user gives a name is a node, as the type of nodes keeps it.
fn puts_a_node(step: &Step)
    ensures { IsSoundStep step.now }
{
    if let Step::Edit(_, _, _, node) = step {
        let _parts = node.parts();
    }
}
