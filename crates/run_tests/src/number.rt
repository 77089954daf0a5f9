//! That each worker makes as many turns as it is told.
use crate::made::{cluster, device, docs, file, hello, shared};
use crate::seen::next_cut;
use bep_blocks::OpenGate;
use bep_fit::RunVerdict;
use bep_log::LogError;
use bep_machine::Step;
use bep_run::{run_turns, run_workers};
use bep_run_cut::check_run;
use std::alloc::Global;
use std::sync::Wait;
use std::thread::Threads;

// A file is put at device 1, and workers make so many turns over a link that is down: how many actions answered Ok, and how many
// events there are beside the edit.
fn worked<R: Threads + Wait + Sync>(
    rt: &R,
    alloc: Global,
    turns: u32,
) -> Option<(Result<u64, LogError>, u64)> {
    let shared = shared(alloc)?;
    let node = file(alloc, 3)?;
    shared
        .edit(rt, device(1)?, &docs(alloc)?, &hello(alloc)?, &node)
        .ok()?;
    let done = run_workers(rt, &shared, &OpenGate, turns);
    let (_, count) = next_cut(rt, &shared)?;
    Some((done, count.checked_sub(1)?))
}

// The same of a cluster that is handed over.
fn handed<R: Threads + Wait + Sync>(rt: &R, alloc: Global, turns: u32) -> Option<RunVerdict> {
    let mut cluster = cluster(alloc)?;
    let edit = Step::Edit(device(1)?, docs(alloc)?, hello(alloc)?, file(alloc, 3)?);
    cluster.apply(edit).ok()?;
    let run = run_turns(rt, alloc, cluster, &OpenGate, turns).ok()?;
    Some(check_run(&run))
}

// Nothing is done but a scan in each turn of device 1's scanner.
#[test]
fn each_worker_makes_as_many_turns_as_it_is_told(rt: HostRuntime) {
    assert_eq!(rt; worked(&rt, rt.alloc(), 0), Some((Ok(0), 0)));
    assert_eq!(rt; worked(&rt, rt.alloc(), 1), Some((Ok(1), 1)));
    assert_eq!(rt; worked(&rt, rt.alloc(), 7), Some((Ok(7), 7)));
    assert_eq!(rt; handed(&rt, rt.alloc(), 7), Some(RunVerdict::Fits(7)));
}
