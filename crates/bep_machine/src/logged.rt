//! What is logged of a step.
ghost use Rattle.std.specs.Prelude.{◌≡◌, IfOk};
ghost use Rattle.std.specs.Option.{option_copied};

use crate::{Message, Step};
use std::alloc::{AllocError, Global};

/// What an action did to the link that it was lent.
#[derive(Debug, Drop)]
pub enum Exchanged {
    /// It sent a message.
    Sent(Message),
    /// It took the first message that was on its way, and maybe answered it.
    Took(Message, Option<Message>),
    /// It took the first message that was on its way, and lost the link.
    Broke(Message),
}

impl Exchanged {
    /// An equal one of its own, or want of memory.
    pub fn copy(&self, alloc: Global) -> Result<Self, AllocError>
        ensures { IfOk result (λ made. made ≡ self.now) }
    {
        Ok(match self {
            Exchanged::Sent(message) => Exchanged::Sent(message.copy(alloc)?),
            Exchanged::Took(message, None) => Exchanged::Took(message.copy(alloc)?, None),
            Exchanged::Took(message, Some(answer)) => {
                let message = message.copy(alloc)?;
                Exchanged::Took(message, Some(answer.copy(alloc)?))
            }
            Exchanged::Broke(message) => Exchanged::Broke(message.copy(alloc)?),
        })
    }
}

/// In which epoch of the link an action was made, and what it did to the link.
#[derive(Debug)]
pub struct Traffic {
    /// The link's epoch.
    pub epoch: u64,
    /// What was done to the link.
    pub done: Exchanged,
}

// By hand: a caller's proof then sees one call where it lets go of one, and not each field (docs/developing.md).
impl Drop for Traffic {
    fn drop(self) {
        let Traffic { epoch: _, done: _ } = self;
    }
}

impl Traffic {
    /// An equal one of its own, or want of memory.
    pub fn copy(&self, alloc: Global) -> Result<Self, AllocError>
        ensures { IfOk result (λ made. made ≡ self.now) }
    {
        Ok(Traffic {
            epoch: self.epoch,
            done: self.done.copy(alloc)?,
        })
    }
}

/// An event of a log: a step that was made.
///
/// This project's profile.
#[derive(Debug)]
pub struct Logged {
    /// The step.
    pub step: Step,
    /// Which of its calls of the store failed, counted from 1, where one that it makes failed and it was yet made.
    pub failed: Option<u32>,
    /// Whether it wrote a conflict copy and then failed.
    pub kept: bool,
    /// What it did over a link.
    pub traffic: Option<Traffic>,
}

// By hand: a caller's proof then sees one call where it lets go of one, and not each field (docs/developing.md).
impl Drop for Logged {
    fn drop(self) {
        let Logged {
            step: _,
            failed: _,
            kept: _,
            traffic: _,
        } = self;
    }
}

impl Logged {
    /// An equal event of its own, or want of memory.
    pub fn copy(&self, alloc: Global) -> Result<Self, AllocError>
        ensures { IfOk result (λ made. made ≡ self.now) }
    {
        let step = self.step.copy(alloc)?;
        let traffic = copy_traffic(alloc, self.traffic.as_ref())?;
        Ok(Logged {
            step,
            failed: self.failed,
            kept: self.kept,
            traffic,
        })
    }
}

fn copy_traffic(alloc: Global, traffic: Option<&Traffic>) -> Result<Option<Traffic>, AllocError>
    ensures { IfOk result (λ made. made ≡ option_copied traffic.entry) }
{
    match traffic {
        Some(traffic) => Ok(Some(traffic.copy(alloc)?)),
        None => Ok(None),
    }
}
