//! A link with its log.
ghost use Rattle.std.specs.Prelude.{◌≡◌, [], IfOk, OnOk, OnErr};
ghost use Rattle.bep_log.specs.History.{IsHistory};
ghost use Rattle.bep_log.specs.LoggedLink.{IsLinkReplayed, LinkLogs};
ghost use Rattle.bep_machine.specs.declared.step.Step.TheVariants as Step;
ghost use Rattle.bep_machine.specs.Steps.{ConnectRow, LoseRow};

use crate::LogError;
use crate::event::event_in_folder;
use crate::history::History;
use bep_fit::Stamped;
use bep_links::Link;
use bep_machine::{Step, actions_are_told};
use std::alloc::{AllocError, Global};
use std::marker::Model;

/// A link with its log: what it was when the log began, and each event since, under a ticket. What it is now is what the
/// events make of what it was.
///
/// The link is changed by the calls of this crate alone, and can't be taken out. This project's profile.
pub struct LoggedLink {
    pub(crate) link: Link,
    pub(crate) base: Link,
    pub(crate) history: History,
    pub(crate) alloc: Global,
}

// By hand: a caller's proof then sees one call where it lets go of one, and not each field (docs/developing.md).
impl Drop for LoggedLink {
    fn drop(self) {
        let LoggedLink {
            link: _,
            base: _,
            history: _,
            alloc: _,
        } = self;
    }
}

impl Model for LoggedLink {
    ghost use Rattle.bep_links.specs.contracts.link.Link as between;
    ghost use Rattle.bep_fit.specs.contracts.stamped.Stamped as stamped;
    ghost use Rattle.bep_log.specs.LoggedLink.{IsLinkReplayed, LoggedBetween, logged_link_code};

    ghost Value = { LoggedBetween };

    ghost coded = { logged_link_code between.the_row.coded stamped.the_row.coded };

    ghost view = { λ inside. record { now = inside.link; base = inside.base; log = inside.history.log; round = inside.history.round; last = inside.history.last } };

    ghost invariant = { λ inside. IsLinkReplayed inside.link inside.base inside.history.log };
}

impl LoggedLink {
    /// The link with an empty log, in round 0: it is its own base. It is taken for good, after a refusal too, which is want
    /// of memory.
    pub fn new(alloc: Global, link: Link) -> Result<Self, AllocError>
        ensures { IfOk result (λ made. made ≡ record { now = link; base = link; log = []; round = 0; last = 0 }) }
    {
        let base = link.copy(alloc)?;
        Ok(LoggedLink {
            link,
            base,
            history: History::new(alloc, 0),
            alloc,
        })
    }

    /// The link as it is.
    pub fn link(&self) -> &Link
        ensures { result.now ≡ self.now.now }
    {
        &self.link
    }

    /// The link as it was when the log began.
    pub fn base(&self) -> &Link
        ensures { result.now ≡ self.now.base }
    {
        &self.base
    }

    /// The events since, by rising ticket.
    pub fn log(&self) -> &[Stamped]
        ensures value { result.now ≡ self.now.log }
        ensures a_history { IsHistory self.now.log self.now.last }
    {
        self.history.log()
    }

    /// The round in which the log began.
    pub fn round(&self) -> u64
        ensures { result ≡ self.now.round }
    {
        self.history.round()
    }

    /// The ticket of the last event that was logged, in whatever round; 0 before the first.
    pub fn last(&self) -> u64
        ensures { result ≡ self.now.last }
    {
        self.history.last()
    }

    /// The link is what its events make of what it was, and each event touches it. It does nothing.
    pub fn log_replays(&self)
        ensures { IsLinkReplayed self.now.now self.now.base self.now.log }
    {
        self.history.last();
    }

    /// The link as it is becomes its base, and its log is empty, in this round. The last ticket stays. It fails only for want
    /// of memory, and nothing changed then.
    pub fn rebase(&mut self, round: u64) -> Result<(), AllocError>
        ensures rebased { OnOk result (self.new ≡ record self.old { base = self.old.now; log = []; round = round }) }
        ensures err { OnErr result (self.new ≡ self.old) }
    {
        self.base = self.link.copy(self.alloc)?;
        self.history.restart(round);
        Ok(())
    }

    // What it holds, for copies that are taken apart.
    pub(crate) fn into_parts(self) -> (Link, Link, History)
        ensures now { result.0 ≡ self.now }
        ensures base { result.1 ≡ self.base }
        ensures log { result.2.log ≡ self.log }
        ensures round { result.2.round ≡ self.round }
        ensures last { result.2.last ≡ self.last }
        ensures replays { IsLinkReplayed self.now self.base self.log }
    {
        let LoggedLink {
            link,
            base,
            history,
            alloc: _,
        } = self;
        (link, base, history)
    }

    /// The link comes up, as `Link::connect` does, under a ticket. Refuses `TicketOld` where the ticket isn't above the last
    /// one, then `LogFull` where the log has 65536 events, then what the link refuses. What is done adds one event to the
    /// log; anything else changes nothing.
    pub fn connect(&mut self, ticket: u64) -> Result<(), LogError>
        ensures logs { LinkLogs (Step.Connect self.old.now.ends.0 self.old.now.ends.1) ConnectRow ticket self.old self.new result }
    {
        // the event that is logged makes the step that was made
        actions_are_told();
        self.history.open(ticket)?;
        let (lower, upper) = self.link.ends();
        self.link.connect()?;
        let event = event_in_folder(Step::Connect(lower, upper), None, false);
        self.history.tell(ticket, event);
        Ok(())
    }

    /// The link goes down, and what was on its way is lost, as `Link::lose` does, under a ticket. Refuses `TicketOld` where
    /// the ticket isn't above the last one, then `LogFull` where the log has 65536 events, then what the link refuses. What
    /// is done adds one event to the log; anything else changes nothing.
    pub fn lose(&mut self, ticket: u64) -> Result<(), LogError>
        ensures logs { LinkLogs (Step.Lose self.old.now.ends.0 self.old.now.ends.1) LoseRow ticket self.old self.new result }
    {
        // the event that is logged makes the step that was made
        actions_are_told();
        self.history.open(ticket)?;
        let (lower, upper) = self.link.ends();
        self.link.lose()?;
        let event = event_in_folder(Step::Lose(lower, upper), None, false);
        self.history.tell(ticket, event);
        Ok(())
    }
}
