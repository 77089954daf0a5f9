//! The log of a device or a link.
ghost use Rattle.std.specs.Prelude.{◌≡◌, ◌↔◌, ◌<◌, ◌≤◌, [], true, length, IsTrue, IfErr, OnOk};
ghost use Rattle.bep_log.specs.History.{IsHistory, MayLog, last_with, with_event, with_events};
ghost use Rattle.bep_log.specs.Ticket.{WhyNotOpen};
ghost use Rattle.bep_log.specs.declared.limits.TheConstants.{MAX_EVENTS};

use crate::{LogError, MAX_EVENTS};
use bep_fit::Stamped;
use bep_machine::Logged;
use std::alloc::{AllocError, Global};
use std::marker::Model;

// The events of a log by rising ticket, in which round they were made, and the last ticket that was taken.
pub(crate) struct History {
    log: Vec<Stamped>,
    round: u64,
    last: u64,
}

// By hand: a caller's proof then sees one call where it lets go of one, and not each field (docs/developing.md).
impl Drop for History {
    fn drop(self) {
        let History {
            log: _,
            round: _,
            last: _,
        } = self;
    }
}

impl Model for History {
    ghost use Rattle.std.specs.Prelude.{length, nat_lt};
    ghost use Rattle.std.specs.Vec.{vec_capacity};
    ghost use Rattle.bep_log.specs.History.{History, IsHistory};

    ghost Value = { History };

    ghost view = { λ inside. record { log = inside.log.items; round = inside.round; last = inside.last; room = nat_lt (length inside.log.items) (vec_capacity inside.log) } };

    ghost invariant = { λ inside. IsHistory inside.log.items inside.last };
}

impl History {
    // The empty log of this round. It takes no memory.
    pub(crate) fn new(alloc: Global, round: u64) -> Self
        ensures log { result.log ≡ [] }
        ensures round { result.round ≡ round }
        ensures last { result.last ≡ 0 }
    {
        History {
            log: Vec::new(alloc),
            round,
            last: 0,
        }
    }

    // The history that has these events, which it takes. It takes no memory.
    pub(crate) fn of(log: Vec<Stamped>, round: u64, last: u64) -> Self
        requires { IsHistory log.items last }
        ensures log { result.log ≡ log.items }
        ensures round { result.round ≡ round }
        ensures last { result.last ≡ last }
    {
        History { log, round, last }
    }

    // The events, by rising ticket.
    pub(crate) fn log(&self) -> &[Stamped]
        ensures value { result.now ≡ self.now.log }
        ensures a_history { IsHistory self.now.log self.now.last }
    {
        self.log.as_slice()
    }

    // The events, by rising ticket, for those who take the log apart.
    pub(crate) fn into_log(self) -> Vec<Stamped>
        ensures value { result.items ≡ self.log }
        ensures a_history { IsHistory self.log self.last }
    {
        let History {
            log,
            round: _,
            last: _,
        } = self;
        log
    }

    // The round in which they were made.
    pub(crate) fn round(&self) -> u64
        ensures { result ≡ self.now.round }
    {
        self.round
    }

    // The last ticket that was taken, 0 before the first.
    pub(crate) fn last(&self) -> u64
        ensures { result ≡ self.now.last }
    {
        self.last
    }

    // Whether the ticket is above the last one.
    pub(crate) fn is_below(&self, ticket: u64) -> bool
        ensures { IsTrue result ↔ (self.now.last < ticket) }
    {
        self.last < ticket
    }

    // Whether the log has 65536 events.
    pub(crate) fn is_full(&self) -> bool
        ensures { IsTrue result ↔ (MAX_EVENTS ≤ length self.now.log) }
    {
        self.log.len() >= MAX_EVENTS
    }

    // Gets memory for one event more, or answers want of memory.
    pub(crate) fn reserve(&mut self) -> Result<(), AllocError>
        ensures room { OnOk result (self.new.room ≡ true) }
        ensures same { self.new ≡ record self.old { room = self.new.room } }
    {
        self.log.reserve(1)?;
        Ok(())
    }

    // Whether an event can be made under the ticket, and memory for it. Refuses `TicketOld` exactly where the ticket isn't
    // above the last one, then `LogFull` exactly where the log has 65536 events; else only for want of memory.
    pub(crate) fn open(&mut self, ticket: u64) -> Result<(), LogError>
        ensures open { OnOk result (MayLog ticket self.old.log self.old.last) }
        ensures room { OnOk result (self.new.room ≡ true) }
        ensures why { IfErr result (λ e. WhyNotOpen ticket self.old.log self.old.last e) }
        ensures same { self.new ≡ record self.old { room = self.new.room } }
    {
        if !self.is_below(ticket) {
            return Err(LogError::TicketOld);
        }
        if self.is_full() {
            return Err(LogError::LogFull);
        }
        self.reserve()?;
        Ok(())
    }

    // The event was made under the ticket. There is memory for it.
    pub(crate) fn tell(&mut self, ticket: u64, event: Logged)
        requires open { MayLog ticket self.old.log self.old.last }
        requires room { self.old.room ≡ true }
        ensures log { self.new.log ≡ with_event self.old.log ticket event }
        ensures round { self.new.round ≡ self.old.round }
        ensures last { self.new.last ≡ ticket }
    {
        match self.log.push(Stamped { ticket, event }) {
            Ok(()) => {}
            Err(_) => unreachable!(),
        }
        self.last = ticket;
    }

    // The event was made under the ticket, if there is one.
    pub(crate) fn tell_of(&mut self, ticket: u64, event: Option<Logged>)
        requires open { MayLog ticket self.old.log self.old.last }
        requires room { self.old.room ≡ true }
        ensures log { self.new.log ≡ with_events self.old.log ticket event }
        ensures round { self.new.round ≡ self.old.round }
        ensures last { self.new.last ≡ last_with self.old.last ticket event }
    {
        if let Some(event) = event {
            self.tell(ticket, event);
        }
    }

    // Empties the log, for this round. The last ticket stays. It takes no memory.
    pub(crate) fn restart(&mut self, round: u64)
        ensures log { self.new.log ≡ [] }
        ensures round { self.new.round ≡ round }
        ensures last { self.new.last ≡ self.old.last }
    {
        self.log.clear();
        self.round = round;
    }
}
