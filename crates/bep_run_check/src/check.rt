//! The run check.
ghost use Rattle.std.specs.Prelude.{◌≡◌, ◌<◌, ◌≤◌, length, set, take};
ghost use Rattle.bep_fit.specs.Fit.{AreOfOneRound, IsRunVerdict};
ghost use Rattle.bep_fit.specs.Walk.{start};
ghost use Rattle.bep_run_check.specs.inner.Rest.{lefts, whole};
ghost use Rattle.bep_run_check.specs.declared.limits.TheConstants.{MAX_OBJECTS};

use crate::rest::Rest;
use crate::rounds::first_of_other_round;
use crate::walk::walk_along;
use crate::{MAX_OBJECTS, ObjectLog};
use bep_fit::RunVerdict;

/// Whether the logs are those of one run. They stand in the order of their objects: devices, then links, each rising.
///
/// They fit where all bases have one round, and no event is at fault. An event is at fault in each of these cases:
///
/// - the entry before it has a ticket that isn't below its own;
/// - an object that it touches doesn't have it under its ticket;
/// - an object has a different event under its ticket;
/// - an object that it doesn't touch has an event under its ticket.
///
/// If the rounds differ, the misfit is the first object whose round isn't that of the first, with ticket 0. If they are
/// equal, it is the least ticket at fault, and the first object whose event under it is at fault. This project's profile.
///
/// It takes no memory: one walk along all logs, with a place in each.
#[tactic(auto, using(crate::proofs::WalkLists::first_of_other, crate::proofs::WalkLists::of_one_round))]
pub fn check_logs(logs: &[ObjectLog]) -> RunVerdict
    requires { length logs.now ≤ MAX_OBJECTS }
    ensures { IsRunVerdict logs.now result }
{
    match first_of_other_round(logs) {
        Some(log) => RunVerdict::Misfit(log.object(), 0),
        None => check_one_round(logs),
    }
}

// The same, of logs of one round.
fn check_one_round(logs: &[ObjectLog]) -> RunVerdict
    requires few { length logs.now ≤ MAX_OBJECTS }
    requires rounds { AreOfOneRound logs.now }
    ensures { IsRunVerdict logs.now result }
{
    let Some(first) = logs.first() else {
        return walk_along(logs, &mut []);
    };
    let mut walk = [Rest::of(first); MAX_OBJECTS];
    begin(&mut walk, logs);
    walk_along(logs, &mut walk[..logs.len()])
}

// The walk begins before all events.
fn begin<'a>(walk: &mut [Rest<'a>], logs: &'a [ObjectLog])
    requires { length logs.now ≤ length walk.old }
    ensures long { length walk.new ≡ length walk.old }
    ensures begun { take (length logs.now) (lefts walk.new) ≡ start logs.now }
{
    for place in 0..logs.len() {
        put_at(walk, place, &logs[place]);
    }
}

// All of the log is left, at its place in the walk.
#[tactic(auto, using(crate::proofs::WalkLists::lefts_set))]
fn put_at<'a>(walk: &mut [Rest<'a>], place: usize, log: &'a ObjectLog)
    requires { place < length walk.old }
    ensures long { length walk.new ≡ length walk.old }
    ensures put { lefts walk.new ≡ set (lefts walk.old) place (whole log.now) }
{
    walk[place] = Rest::of(log);
}
