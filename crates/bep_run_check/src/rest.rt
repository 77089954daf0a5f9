//! A log, and what is left of it on the walk.
ghost use Rattle.std.specs.Prelude.{◌≡◌, ◌↔◌, IsTrue};
ghost use Rattle.bep_fit.specs.Logs.{touches};
ghost use Rattle.bep_fit.specs.Walk.{ComesNext, past};
ghost use Rattle.bep_run_check.specs.inner.Rest.{is_at, left_of};

use crate::ObjectLog;
use crate::guards::touches;
use bep_fit::Stamped;
use bep_record::Same;

// A log, and what is left of its events.
#[derive(Clone, Copy)]
pub(crate) struct Rest<'a> {
    pub(crate) log: &'a ObjectLog,
    pub(crate) events: &'a [Stamped],
}

impl<'a> Rest<'a> {
    // All of the log.
    pub(crate) fn of(log: &'a ObjectLog) -> Self
        ensures { left_of result ≡ record { log = log.now; events = log.now.events } }
    {
        Rest {
            log,
            events: log.events(),
        }
    }

    // Whether what comes next has the ticket.
    pub(crate) fn is_at(&self, ticket: u64) -> bool
        ensures { result ≡ is_at ticket self.now.events.now }
    {
        match self.events {
            [] => false,
            [next, ..] => next.ticket == ticket,
        }
    }

    // What comes next is past, if it has the ticket.
    pub(crate) fn pass(&mut self, ticket: u64)
        ensures { left_of self.new ≡ record { log = self.old.log.now; events = past ticket self.old.events.now } }
    {
        if self.is_at(ticket) {
            self.events = &self.events[1..];
        }
    }

    // Whether the event comes next, where it touches the log; else whether what comes next has another ticket.
    pub(crate) fn agrees(&self, event: &Stamped) -> bool
        ensures { IsTrue result ↔ ComesNext event.now (touches event.now self.now.log.now) self.now.events.now }
    {
        comes_next(event, touches(event, self.log), self.events)
    }
}

fn comes_next(event: &Stamped, touched: bool, events: &[Stamped]) -> bool
    ensures { IsTrue result ↔ ComesNext event.now touched events.now }
{
    match (touched, events) {
        (true, []) => false,
        (true, [next, ..]) => next.same(event),
        (false, []) => true,
        (false, [next, ..]) => next.ticket != event.ticket,
    }
}
