//! Events with their tickets.
ghost use Rattle.std.specs.Prelude.{◌≡◌, IfOk};

use bep_machine::Logged;
use bep_record::Same;
use std::alloc::{AllocError, Global};

/// An event of a log, and the ticket under which it was made. Tickets order the events of all logs of a run.
#[derive(Debug)]
pub struct Stamped {
    /// The ticket.
    pub ticket: u64,
    /// The event.
    pub event: Logged,
}

// By hand: a caller's proof then sees one call where it lets go of one, and not each field (docs/developing.md).
impl Drop for Stamped {
    fn drop(self) {
        let Stamped {
            ticket: _,
            event: _,
        } = self;
    }
}

impl Stamped {
    /// An equal one of its own, or want of memory.
    pub fn copy(&self, alloc: Global) -> Result<Self, AllocError>
        ensures { IfOk result (λ made. made ≡ self.now) }
    {
        Ok(Stamped {
            ticket: self.ticket,
            event: self.event.copy(alloc)?,
        })
    }
}

impl Same for Stamped {
    fn same(&self, other: &Stamped) -> bool {
        self.ticket == other.ticket && self.event.same(&other.event)
    }
}
