//! Threads that make turns.
ghost use Rattle.std.specs.Prelude.{◌≡◌, ◌++◌, ℕ, [], All, IfErr, IfOk, Some};
ghost use Rattle.bep_fit.specs.Fit.{Fits};
ghost use Rattle.bep_fit.specs.Replayed.{AreQuietLogs, AreResetOf};
ghost use Rattle.bep_peer.specs.network.Network.{cluster_of};
ghost use Rattle.bep_history.specs.View.{AreDistinct, beginning};
ghost use Rattle.bep_run.specs.inner.Kept.{objects_of_links, objects_of_peers};
ghost use Rattle.bep_run.specs.Settling.{StaysSettled};
ghost use Rattle.bep_run.specs.Why.{IsOfCopies, IsOfTurns};
ghost use Rattle.bep_run_cut.specs.OneRun.{IsRunOf};
ghost use Rattle.bep_run_cut.specs.RunCut.{AreTheSame};

use crate::{Locked, Origin};
use bep_blocks::Gate;
use bep_core::Cluster;
use bep_fit::{Object, fitting_logs_are_one_run};
use bep_history::{Chair, History, Place};
use bep_log::LogError;
use bep_machine::{settled_stays_put, settled_stays_settled};
use bep_record::DeviceId;
use bep_run_cut::RunCut;
use bep_store::Store;
use std::alloc::{AllocError, Global};
use std::marker::Brand;
use std::sync::Wait;
use std::thread;
use std::thread::Threads;

// What a thread does over and over.
#[derive(Clone, Copy, Debug, PartialEq, Eq)]
pub(crate) enum Job {
    Scan(DeviceId),
    Pull(DeviceId),
    Exchange(DeviceId, DeviceId),
}

/// Runs the cluster: for each device a scanner and a puller, and for each end of a link a session, each in a thread of its
/// own where one can be made and else in the caller's. Each makes this many turns. All have ended when the call answers how
/// many actions answered Ok. Fails only for want of memory, which ends the worker that met it alone. May wait.
pub fn run_workers<R: Threads + Wait + Sync, S: Store + Send, O: Origin, G: Gate + Sync>(
    rt: &R,
    shared: &Locked<S, O>,
    gate: &G,
    turns: u32,
) -> Result<u64, LogError>
    ensures only { IfErr result (IsOfTurns O.table) }
{
    let jobs = shared.jobs()?;
    let answers = thread::map_vec(rt, jobs, &|job| shared.make_turns(rt, gate, job, turns))?;
    total::<O>(answers)
}

// How many actions answered Ok in all, or why the first of these workers ended that didn't make all of its turns.
fn total<O: Origin>(answers: Vec<Result<u64, LogError>>) -> Result<u64, LogError>
    requires { All (λ answer. IfErr answer (IsOfTurns O.table)) answers.items }
    ensures only { IfErr result (IsOfTurns O.table) }
{
    let mut done = 0u64;
    for answer in answers {
        done = done.saturating_add(answer?);
    }
    Ok(done)
}

/// Runs the cluster by threads, each for so many turns, as `run_workers` does, and answers a cut of it then. What its devices
/// and links were when their logs began is the cluster that was handed over, no event in the logs is a local step or a reset,
/// and the logs fit: so they are one run, which leads from that cluster to the devices and links as they are. If that cluster
/// is settled, so are these, and every store holds what it held. The cluster is used up, after a refusal too. Refuses what
/// `Locked::new` and `take_cut` refuse; else only for want of memory, which may be that of one worker. May wait.
#[tactic(auto, using(crate::proofs::Begins::same_cluster_of, crate::proofs::Handed::one_run_of, crate::proofs::Settling::settled_of))]
pub fn run_turns<R: Threads + Wait + Sync, S: Store + Send, G: Gate + Sync>(
    rt: &R,
    alloc: Global,
    cluster: Cluster<S>,
    gate: &G,
    turns: u32,
) -> Result<RunCut, LogError>
    ensures begins { IfOk result (λ run. AreTheSame run.bases cluster.members cluster.links) }
    ensures from { IfOk result (λ run. cluster_of run.bases ≡ cluster_of cluster) }
    ensures quiet { IfOk result (λ run. AreQuietLogs run.logs) }
    ensures no_reset { IfOk result (λ run. AreResetOf run.logs []) }
    ensures fit { IfOk result (λ run. (count : ℕ) × Fits run.logs count) }
    ensures one_run { IfOk result (λ run. (count : ℕ) × IsRunOf run count) }
    ensures settled { IfOk result (λ run. StaysSettled (cluster_of cluster) (cluster_of run.present)) }
    ensures only { IfErr result (IsOfCopies S.faults) }
{
    let objects = objects_of(alloc, &cluster)?;
    let (history, place) = History::begin(alloc, &objects)?;
    let run = run_from::<R, S, Brand, G>(rt, alloc, cluster, history, place, gate, turns)?;
    // these are called for what they say of the logs, and of runs
    run.logs();
    fitting_logs_are_one_run();
    settled_stays_put();
    settled_stays_settled();
    Ok(run)
}

// The same, where the type `O` says that all began as this cluster, and names this history.
#[tactic(auto, using(crate::proofs::Still::still_where_known, crate::proofs::Handed::named_as, crate::proofs::Handed::about_these, crate::proofs::Handed::first_seat_of, crate::proofs::Handed::fit_where_known, crate::proofs::Failing::turns_where_known, crate::proofs::Failing::stores_of_copies))]
fn run_from<R: Threads + Wait + Sync, S: Store + Send, O: Origin, G: Gate + Sync>(
    rt: &R,
    alloc: Global,
    cluster: Cluster<S>,
    history: History,
    place: Place,
    gate: &G,
    turns: u32,
) -> Result<RunCut, LogError>
    requires start { O.start ≡ Some cluster }
    requires table { O.table ≡ Some history.table.shared.table_id }
    requires about { history.table.shared.key.items ≡ objects_of_peers cluster.members ++ objects_of_links cluster.links }
    requires place { (place.table_id ≡ history.table.shared.table_id) × (place.me ≡ (beginning history.table.shared.key.items, [])) }
    ensures begins { IfOk result (λ run. AreTheSame run.bases cluster.members cluster.links) }
    ensures quiet { IfOk result (λ run. AreQuietLogs run.logs) }
    ensures no_reset { IfOk result (λ run. AreResetOf run.logs []) }
    ensures fit { IfOk result (λ run. (count : ℕ) × Fits run.logs count) }
    ensures only { IfErr result (IsOfCopies S.faults) }
{
    let shared = Locked::<S, O>::of(alloc, cluster, history, Chair::of(place))?;
    run_workers(rt, &shared, gate, turns)?;
    shared.into_cut()
}

// The cluster's devices and links.
#[tactic(auto, using(crate::proofs::Distinct::distinct_objects))]
fn objects_of<S: Store>(alloc: Global, cluster: &Cluster<S>) -> Result<Vec<Object>, AllocError>
    ensures objects { IfOk result (λ objects. objects.items ≡ objects_of_peers cluster.now.members ++ objects_of_links cluster.now.links) }
    ensures distinct { IfOk result (λ objects. AreDistinct objects.items) }
{
    let mut objects = Vec::new(alloc);
    for peer in cluster.peers() {
        objects.push(Object::Device(peer.number()))?;
    }
    for link in cluster.links() {
        let (lower, upper) = link.ends();
        objects.push(Object::Link(lower, upper))?;
    }
    Ok(objects)
}

impl<S: Store, O: Origin> Locked<S, O> {
    // A job for each device's scanner and puller, and for each end of each link.
    fn jobs(&self) -> Result<Vec<Job>, AllocError> {
        let mut jobs = Vec::new(self.alloc);
        for held in self.devices.iter() {
            jobs.push(Job::Scan(held.number))?;
            jobs.push(Job::Pull(held.number))?;
        }
        for joint in self.links.iter() {
            jobs.push(Job::Exchange(joint.lower, joint.upper))?;
            jobs.push(Job::Exchange(joint.upper, joint.lower))?;
        }
        Ok(jobs)
    }

    // Makes the job's turns.
    fn make_turns<R: Threads + Wait + Sync, G: Gate + Sync>(
        &self,
        rt: &R,
        gate: &G,
        job: Job,
        turns: u32,
    ) -> Result<u64, LogError>
        ensures only { IfErr result (IsOfTurns O.table) }
    {
        let mut done = 0u64;
        for _ in 0..turns {
            done = done.saturating_add(self.make_turn(rt, gate, job)?);
        }
        Ok(done)
    }

    // Makes one turn.
    fn make_turn<R: Threads + Wait + Sync, G: Gate + Sync>(
        &self,
        rt: &R,
        gate: &G,
        job: Job,
    ) -> Result<u64, LogError>
        ensures only { IfErr result (IsOfTurns O.table) }
    {
        match job {
            Job::Scan(device) => self.scanner_turn(rt, device, gate),
            Job::Pull(device) => self.puller_turn(rt, device),
            Job::Exchange(device, other) => self.session_turn(rt, device, other, gate),
        }
    }
}
