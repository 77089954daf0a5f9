//! Links, which deliver in order.
ghost use Rattle.std.specs.Prelude.{◌≡◌, ◌⊎◌, ◌↔◌, ◌<◌, ◌≤◌, ◌++◌, ◌∷◌, [], true, false, length, drop, nat_le, slice_get, SomeIff, IfOk, IfErr, OnOk, OnErr, IsErrOf};
ghost use Rattle.std.specs.Option.{option_copied};
ghost use Rattle.bep_record.specs.declared.limits.TheConstants.{MAX_MESSAGES};
ghost use Rattle.bep_machine.specs.declared.limits.TheConstants.{MAX_EPOCH};
ghost use Rattle.bep_machine.specs.Link.{connected, lost, queue_to, first_of_queue};
ghost use Rattle.bep_machine.specs.Sound.{IsSoundLink};
ghost use Rattle.bep_machine.specs.Steps.{ConnectRow, LoseRow};
ghost use Rattle.bep_links.specs.Link.{IsLink, new_link, with_queue_to};
ghost use Rattle.bep_links.specs.LinkError.{answer_of};
ghost use Rattle.bep_links.specs.Side.{end_at};
ghost use Rattle.bep_links.specs.declared.error.LinkError.TheVariants.{Memory};

use crate::queue::Queue;
use crate::{LinkError, Side};
use bep_machine::{MAX_EPOCH, Message};
use bep_record::DeviceId;
use std::alloc::{AllocError, Global};
use std::marker::Model;

/// A link between two devices. It comes up and goes down; what is on its way arrives in order, or is lost with the link.
///
/// BEP v1; epochs, and at most 1024 messages on their way to each end, are this project's profile.
pub struct Link {
    lower: DeviceId,
    upper: DeviceId,
    up: bool,
    epoch: u64,
    to_lower: Queue,
    to_upper: Queue,
}

// By hand: a caller's proof then sees one call where it lets go of one, and not each field (docs/developing.md).
impl Drop for Link {
    fn drop(self) {
        let Link {
            lower: _,
            upper: _,
            up: _,
            epoch: _,
            to_lower: _,
            to_upper: _,
        } = self;
    }
}

impl Model for Link {
    ghost use Rattle.bep_links.specs.Link.{LinkBetween};

    ghost Value = { LinkBetween };

    ghost use Rattle.bep_links.specs.Link.{IsLink};

    ghost view = { λ inside. record { ends = (inside.lower, inside.upper); link = record { up = inside.up; epoch = inside.epoch; to_lower = inside.to_lower; to_upper = inside.to_upper } } };

    ghost invariant = { λ inside. IsLink (record { ends = (inside.lower, inside.upper); link = record { up = inside.up; epoch = inside.epoch; to_lower = inside.to_lower; to_upper = inside.to_upper } }) };
}

impl Link {
    /// The link between two devices, the smaller first, which never was up; `None` where they are equal or the other way
    /// round. It takes no memory.
    pub fn new(alloc: Global, lower: DeviceId, upper: DeviceId) -> Option<Self>
        ensures { SomeIff result (lower < upper) (new_link lower upper) }
    {
        if lower >= upper {
            return None;
        }
        Some(Link {
            lower,
            upper,
            up: false,
            epoch: 0,
            to_lower: Queue::new(alloc),
            to_upper: Queue::new(alloc),
        })
    }

    /// The two devices, the smaller first.
    pub fn ends(&self) -> (DeviceId, DeviceId)
        ensures value { result ≡ self.now.ends }
        ensures a_link { IsLink self.now }
    {
        (self.lower, self.upper)
    }

    /// Whether the link is up.
    pub fn is_up(&self) -> bool
        ensures value { result ≡ self.now.link.up }
        ensures a_link { IsLink self.now }
    {
        self.up
    }

    /// How often the link came up.
    pub fn epoch(&self) -> u64
        ensures value { result ≡ self.now.link.epoch }
        ensures a_link { IsLink self.now }
    {
        self.epoch
    }

    /// The link is sound: at most 1024 messages are on their way to each end, and none while it is down; those with
    /// records have batches of well-formed ones. It does nothing.
    pub fn link_is_sound(&self)
        ensures { IsSoundLink self.now.link }
    {
        self.to_lower.queue_is_sound();
        self.to_upper.queue_is_sound();
    }

    /// The message at this place, from 0, among those on their way to this end.
    pub fn waiting(&self, side: Side, place: usize) -> Option<&Message>
        ensures value { option_copied result ≡ slice_get (queue_to (end_at side) self.now.link) place }
        ensures a_link { IsLink self.now }
    {
        match side {
            Side::Lower => self.to_lower.get(place),
            Side::Upper => self.to_upper.get(place),
        }
    }

    /// Whether no message more can be sent to this end.
    pub fn is_full(&self, side: Side) -> bool
        ensures value { result ≡ nat_le MAX_MESSAGES (length (queue_to (end_at side) self.now.link)) }
        ensures a_link { IsLink self.now }
    {
        match side {
            Side::Lower => self.to_lower.is_full(),
            Side::Upper => self.to_upper.is_full(),
        }
    }

    /// The link comes up: in the next epoch, with nothing on its way. Refuses `NothingToDo` exactly where it is up, then
    /// `EpochFull` exactly at epoch 9223372036854775807; then all is as before. It takes no memory.
    pub fn connect(&mut self) -> Result<(), LinkError>
        ensures row { ConnectRow self.old.link self.new.link (answer_of result) }
        ensures ok { OnOk result (self.new ≡ record self.old { link = connected self.old.link }) }

        ensures up { IsErrOf result LinkError.NothingToDo ↔ (self.old.link.up ≡ true) }
        ensures last { IsErrOf result LinkError.EpochFull ↔ ((self.old.link.up ≡ false) × (self.old.link.epoch ≡ MAX_EPOCH)) }
        ensures only { IfErr result (λ e. (e ≡ LinkError.NothingToDo) ⊎ (e ≡ LinkError.EpochFull)) }
        ensures err { OnErr result (self.new ≡ self.old) }
    {
        if self.up {
            return Err(LinkError::NothingToDo);
        }
        if self.epoch >= MAX_EPOCH {
            return Err(LinkError::EpochFull);
        }
        self.up = true;
        self.epoch += 1;
        Ok(())
    }

    /// The link goes down, and what was on its way is lost. Refuses `LinkDown` exactly where it is down; then all is as
    /// before. It takes no memory.
    pub fn lose(&mut self) -> Result<(), LinkError>
        ensures row { LoseRow self.old.link self.new.link (answer_of result) }
        ensures ok { OnOk result (self.new ≡ record self.old { link = lost self.old.link }) }

        ensures down { IsErrOf result LinkError.LinkDown ↔ (self.old.link.up ≡ false) }
        ensures only { IfErr result (λ e. e ≡ LinkError.LinkDown) }
        ensures err { OnErr result (self.new ≡ self.old) }
    {
        if !self.up {
            return Err(LinkError::LinkDown);
        }
        self.up = false;
        self.to_lower.clear();
        self.to_upper.clear();
        Ok(())
    }

    /// Sends the message to this end: it will arrive after all that is on its way there. Refuses `LinkDown` exactly where
    /// the link is down, then `LinkFull` exactly where 1024 messages are on their way to this end; after an error all is
    /// as before.
    pub fn push(&mut self, side: Side, message: Message) -> Result<(), LinkError>
        ensures ok { OnOk result (self.new ≡ record self.old { link = with_queue_to (end_at side) (queue_to (end_at side) self.old.link ++ message ∷ []) self.old.link }) }

        ensures down { IsErrOf result LinkError.LinkDown ↔ (self.old.link.up ≡ false) }
        ensures full { IsErrOf result LinkError.LinkFull ↔ ((self.old.link.up ≡ true) × (MAX_MESSAGES ≤ length (queue_to (end_at side) self.old.link))) }
        ensures only { IfErr result (λ e. (e ≡ LinkError.LinkDown) ⊎ (e ≡ LinkError.LinkFull) ⊎ (e ≡ LinkError.Memory)) }
        ensures err { OnErr result (self.new ≡ self.old) }
    {
        if !self.up {
            return Err(LinkError::LinkDown);
        }
        match side {
            Side::Lower => self.to_lower.push(message),
            Side::Upper => self.to_upper.push(message),
        }
    }

    /// Takes the first message on its way to this end, if there is one. It takes no memory.
    pub fn pop(&mut self, side: Side) -> Option<Message>
        ensures first { result ≡ first_of_queue (queue_to (end_at side) self.old.link) }
        ensures rest { self.new ≡ record self.old { link = with_queue_to (end_at side) (drop 1 (queue_to (end_at side) self.old.link)) self.old.link } }
    {
        match side {
            Side::Lower => self.to_lower.pop(),
            Side::Upper => self.to_upper.pop(),
        }
    }

    /// An equal link of its own, or want of memory.
    pub fn copy(&self, alloc: Global) -> Result<Self, AllocError>
        ensures { IfOk result (λ made. made ≡ self.now) }
    {
        Ok(Link {
            lower: self.lower,
            upper: self.upper,
            up: self.up,
            epoch: self.epoch,
            to_lower: self.to_lower.copy(alloc)?,
            to_upper: self.to_upper.copy(alloc)?,
        })
    }
}
