//! What a device does over a link, as a step.
ghost use Rattle.std.specs.Prelude.{◌≡◌, true, IfOk, OnOk, IsErr};
ghost use Rattle.bep_links.specs.Link.{IsLink};
ghost use Rattle.bep_links.specs.Side.{end_at};
ghost use Rattle.bep_log.specs.Over.{doing_of, other_end, ready_for, taken_by};
ghost use Rattle.bep_machine.specs.Link.{end_of};
ghost use Rattle.bep_peer.specs.Lent.{StepOver};
ghost use Rattle.bep_peer.specs.Member.{Remains, tables_of};
ghost use Rattle.bep_peer.specs.PeerError.{Gives};

use crate::ready::Ready;
use bep_links::{Link, Side};
use bep_machine::{Message, Moved, Step};
use bep_peer::{Peer, PeerError};
use bep_record::{DeviceId, FolderName, Name};
use bep_store::Store;
use std::alloc::{AllocError, Global};

// An action over a link.
#[derive(Drop)]
pub(crate) enum Over<'a> {
    Begin,
    Deliver,
    Announce(&'a FolderName),
    Ask(&'a FolderName, &'a Name),
}

impl Over<'_> {
    // The step that it is, or want of memory.
    fn step(&self, alloc: Global, device: DeviceId, other: DeviceId) -> Result<Step, AllocError>
        ensures { IfOk result (λ step. step ≡ (doing_of self.now).step device other) }
    {
        Ok(match self {
            Over::Begin => Step::Begin(device, other),
            Over::Deliver => Step::Deliver(device, other),
            Over::Announce(folder) => Step::Announce(device, other, folder.copy(alloc)?),
            Over::Ask(folder, name) => {
                let folder = folder.copy(alloc)?;
                Step::Ask(device, other, folder, name.copy(alloc)?)
            }
        })
    }

    // What is ready for one of the two logs before the action is made, or want of memory.
    pub(crate) fn ready(
        &self,
        alloc: Global,
        device: DeviceId,
        link: &Link,
    ) -> Result<Ready, AllocError>
        ensures ready { IfOk result (λ ready. ready ≡ ready_for (doing_of self.now) device link.now) }
        ensures a_link { OnOk result (IsLink link.now) }
    {
        let step = self.step(alloc, device, other_end(link.ends(), device))?;
        let taken = self.taken(alloc, device, link)?;
        Ok(Ready {
            step,
            epoch: link.epoch(),
            taken,
        })
    }

    // A copy of the message that it takes, if it takes one, or want of memory.
    fn taken(
        &self,
        alloc: Global,
        device: DeviceId,
        link: &Link,
    ) -> Result<Option<Message>, AllocError>
        ensures { IfOk result (λ taken. taken ≡ taken_by (doing_of self.now).takes device link.now) }
    {
        match self {
            Over::Deliver => first_waiting(alloc, device, link),
            _ => Ok(None),
        }
    }

    // The device makes it.
    pub(crate) fn make<S: Store>(
        self,
        peer: &mut Peer<S>,
        link: &mut Link,
    ) -> Result<Moved, PeerError>
        ensures step { Gives (StepOver ((doing_of self.entry).row peer.new.trace.failed) (doing_of self.entry).shares (record { member = peer.old; link = link.old })) (record { member = peer.new; link = link.new }) result }
        ensures rest { Remains peer.old peer.new }
        ensures same { IsErr result → tables_of peer.new ≡ tables_of peer.old }
        ensures unmoved { IsErr result → link.new ≡ link.old }
    {
        match self {
            Over::Begin => peer.begin(link),
            Over::Deliver => peer.deliver(link),
            Over::Announce(folder) => peer.announce(link, folder),
            Over::Ask(folder, name) => peer.ask(link, folder, name),
        }
    }
}

// A copy of the first message that waits for the device, if one waits.
fn first_waiting(
    alloc: Global,
    device: DeviceId,
    link: &Link,
) -> Result<Option<Message>, AllocError>
    ensures { IfOk result (λ first. first ≡ taken_by true device link.now) }
{
    let side = side_of(device, other_end(link.ends(), device));
    match link.waiting(side, 0) {
        Some(message) => Ok(Some(message.copy(alloc)?)),
        None => Ok(None),
    }
}

// The end of the device, of a link with the other one.
fn side_of(device: DeviceId, other: DeviceId) -> Side
    ensures { end_at result ≡ end_of device other }
{
    if device < other {
        Side::Lower
    } else {
        Side::Upper
    }
}

// The end of the two that isn't the device's.
fn other_end(ends: (DeviceId, DeviceId), device: DeviceId) -> DeviceId
    ensures { result ≡ other_end ends device }
{
    let (lower, upper) = ends;
    if lower == device { upper } else { lower }
}
