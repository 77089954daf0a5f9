//! A link behind its lock.
ghost use Rattle.std.specs.Prelude.{◌≡◌, ℕ, [], IfErr, IfOk, Some, true};
ghost use Rattle.bep_fit.specs.declared.object.Object.TheVariants as objects;
ghost use Rattle.bep_history.specs.Chair.{IsNamed};
ghost use Rattle.bep_log.specs.LoggedLink.{LinkLogs};
ghost use Rattle.bep_machine.specs.declared.step.Step.TheVariants as Step;
ghost use Rattle.bep_machine.specs.Steps.{ConnectRow, LoseRow};
ghost use Rattle.bep_run.specs.inner.Kept.{IsSeated};
ghost use Rattle.bep_run.specs.inner.Tickets.{IsNew, IsNotOld};
ghost use Rattle.bep_run.specs.Origin.{at_place, links_in};
ghost use Rattle.bep_run.specs.Quiet.{quiet_log};
ghost use Rattle.bep_run.specs.Why.{IsOfPlaces};

use crate::Origin;
use bep_history::{Chair, History};
use bep_links::Link;
use bep_log::{LinkCopy, LogError, LoggedLink};
use bep_machine::Refusal;
use std::alloc::{AllocError, Global};
use std::marker::Model;
use std::sync::Wait;

/// A link with its log, its place among the links of its cluster, and its seat of the cluster's history, if there is one.
/// Contracts see the link with its log.
///
/// Where it is known how the cluster began, what the link was when its log began is what stood at that place, and no event is
/// a local step or a reset. Where there is a history, the log has just those of its events that touch the link.
pub(crate) struct KeptLink<O: Origin> {
    place: usize,
    pub(crate) logged: LoggedLink,
    pub(crate) seat: Chair<O>,
}

// By hand: a caller's proof then sees one call where it lets go of one, and not each field (docs/developing.md).
impl<O: Origin> Drop for KeptLink<O> {
    fn drop(self) {
        let KeptLink {
            place: _,
            logged: _,
            seat: _,
        } = self;
    }
}

impl<O: Origin> Model for KeptLink<O> {
    ghost use Rattle.bep_links.specs.contracts.link.Link as between;
    ghost use Rattle.bep_fit.specs.contracts.stamped.Stamped as stamped;
    ghost use Rattle.bep_log.specs.LoggedLink.{LoggedBetween, logged_link_code};
    ghost use Rattle.bep_run.specs.inner.Kept.{IsKeptLink};

    ghost Value = { LoggedBetween };

    ghost coded = { logged_link_code between.the_row.coded stamped.the_row.coded };

    ghost view = { λ inside. inside.logged };

    ghost invariant = { λ inside. IsKeptLink O.start O.table inside.place inside.logged inside.seat };
}

impl<O: Origin> KeptLink<O> {
    // The link, which stands at this place, with an empty log.
    pub(crate) fn new(
        alloc: Global,
        place: usize,
        link: Link,
        seat: Chair<O>,
    ) -> Result<Self, AllocError>
        requires stands { at_place (links_in O.start) place link ≡ Some link }
        requires seated { IsSeated O.table (objects.Link link.ends.0 link.ends.1) 0 [] seat }
    {
        let logged = LoggedLink::new(alloc, link)?;
        Ok(KeptLink {
            place,
            logged,
            seat,
        })
    }

    // The link comes up.
    pub(crate) fn connect<R: Wait>(&mut self, rt: &R, history: &History) -> Result<(), LogError>
        requires { IsNamed O.table history.now.table.shared.table_id }
        ensures logs { (ticket : ℕ) × IsNew O.table self.old.last ticket × LinkLogs (Step.Connect self.old.now.ends.0 self.old.now.ends.1) ConnectRow ticket self.old self.new result }
        ensures only { IfErr result (IsNotOld O.table) }
    {
        let ticket = self.seat.draw(rt, history);
        let before = self.logged.log().len();
        let answer = self.logged.connect(ticket);
        self.seat.tell(history, self.logged.log().get(before));
        answer
    }

    // The link goes down.
    pub(crate) fn lose<R: Wait>(&mut self, rt: &R, history: &History) -> Result<(), LogError>
        requires { IsNamed O.table history.now.table.shared.table_id }
        ensures logs { (ticket : ℕ) × IsNew O.table self.old.last ticket × LinkLogs (Step.Lose self.old.now.ends.0 self.old.now.ends.1) LoseRow ticket self.old self.new result }
        ensures only { IfErr result (IsNotOld O.table) }
    {
        let ticket = self.seat.draw(rt, history);
        let before = self.logged.log().len();
        let answer = self.logged.lose(ticket);
        self.seat.tell(history, self.logged.log().get(before));
        answer
    }

    // A copy of it; or `NotShared` if it stands at another place.
    pub(crate) fn copy(&self, place: usize) -> Result<LinkCopy, LogError>
        ensures began { IfOk result (λ copy. at_place (links_in O.start) place copy.base ≡ Some copy.base) }
        ensures quiet { IfOk result (λ copy. quiet_log O.start copy.log ≡ true) }
        ensures only { IfErr result IsOfPlaces }
    {
        if self.place != place {
            return Err(LogError::Refused(Refusal::NotShared));
        }
        Ok(self.logged.copy()?)
    }

    // A copy of it, as `copy` makes it, and its seat, which knows the copy's log.
    pub(crate) fn into_copy(self, place: usize) -> Result<(LinkCopy, Chair<O>), LogError>
        ensures began { IfOk result (λ end. at_place (links_in O.start) place end.0.base ≡ Some end.0.base) }
        ensures quiet { IfOk result (λ end. quiet_log O.start end.0.log ≡ true) }
        ensures seated { IfOk result (λ end. IsSeated O.table (objects.Link end.0.now.ends.0 end.0.now.ends.1) end.0.round end.0.log end.1) }
        ensures only { IfErr result IsOfPlaces }
    {
        if self.place != place {
            return Err(LogError::Refused(Refusal::NotShared));
        }
        let KeptLink {
            place: _,
            logged,
            seat,
        } = self;
        let copy = logged.copy()?;
        Ok((copy, seat))
    }
}
