//! The walk along the logs, by rising ticket.
ghost use Rattle.std.specs.Prelude.{◌≡◌, ◌≤◌, ◌↔◌, All, IsTrue, option_map};
ghost use Rattle.std.specs.List.{find};
ghost use Rattle.std.specs.Option.{option_copied};
ghost use Rattle.bep_fit.specs.Fit.{AreOfOneRound, IsRunVerdict};
ghost use Rattle.bep_fit.specs.Walk.{AgreesNext, after, start};
ghost use Rattle.bep_run_check.specs.inner.Rest.{Agrees, IsMisfitAt, IsSomeAt, is_at, lefts};
ghost use Rattle.bep_run_check.specs.declared.rest.Rest.{Rest as RestOf};

use crate::ObjectLog;
use crate::guards::{are_both, guards_of};
use crate::log::all_are_logged;
use crate::named::named_have_logs;
use crate::next::next_event;
use crate::rest::Rest;
use bep_fit::{Object, RunVerdict, Stamped, walk_finds_verdict};

// The verdict on logs of one round. At each step the walk goes past the events of the least ticket that is left.
pub(crate) fn walk_along<'a>(logs: &'a [ObjectLog], walk: &mut [Rest<'a>]) -> RunVerdict
    requires begun { lefts walk.old ≡ start logs.now }
    requires rounds { AreOfOneRound logs.now }
    ensures { IsRunVerdict logs.now result }
{
    walk_finds_verdict();
    all_are_logged(logs);
    let mut count = 0;
    while let Some(event) = next_event(walk) {
        if !agrees_next(logs, walk, event) {
            return misfit_at(walk, event.ticket);
        }
        pass(walk, event.ticket);
        count += 1;
    }
    RunVerdict::Fits(count)
}

// Whether the event comes next in each log that it touches, and no other has its ticket next; and what it names has a log.
fn agrees_next(logs: &[ObjectLog], walk: &[Rest<'_>], event: &Stamped) -> bool
    ensures { IsTrue result ↔ AgreesNext logs.now (lefts walk.now) event.now }
{
    let next = all_agree(walk, event);
    let there = named_have_logs(logs, guards_of(&event.event.step));
    are_both(next, there)
}

fn all_agree(walk: &[Rest<'_>], event: &Stamped) -> bool
    ensures { IsTrue result ↔ All (Agrees event.now) walk.now }
{
    walk.iter().all(|one| one.agrees(event))
}

// The walk goes past the ticket in each log.
fn pass(walk: &mut [Rest<'_>], ticket: u64)
    ensures past { lefts walk.new ≡ after ticket (lefts walk.old) }
    ensures bound { ticket ≤ u64.MAX }
{
    for one in walk.iter_mut() {
        one.pass(ticket);
    }
}

// The misfit at this ticket: its object is the first one in whose log the ticket comes next.
#[tactic(auto, using(crate::proofs::WalkLists::first_found, crate::proofs::WalkLists::some_found))]
fn misfit_at(walk: &[Rest<'_>], ticket: u64) -> RunVerdict
    requires { IsSomeAt ticket (lefts walk.now) }
    ensures { IsMisfitAt ticket (lefts walk.now) result }
{
    match first_at(walk, ticket) {
        Some(object) => RunVerdict::Misfit(object, ticket),
        None => unreachable!(),
    }
}

// The object of the first log in which the ticket comes next.
fn first_at(walk: &[Rest<'_>], ticket: u64) -> Option<Object>
    ensures { result ≡ option_map (λ (one : RestOf). one.log.now.object) (find (λ (one : RestOf). is_at ticket one.events.now) walk.now) }
{
    Some(place_at(walk, ticket)?.log.object())
}

fn place_at<'w, 'a>(walk: &'w [Rest<'a>], ticket: u64) -> Option<&'w Rest<'a>>
    ensures { option_copied result ≡ find (λ (one : RestOf). is_at ticket one.events.now) walk.now }
{
    walk.iter().find(|one| one.is_at(ticket))
}
