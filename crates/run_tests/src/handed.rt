//! That logs begin at the cluster which is handed to threads, and that these make turns.
use crate::made::{cluster, device, docs, file, hello};
use crate::seen::{Held, held, held_in};
use bep_blocks::OpenGate;
use bep_fit::RunVerdict;
use bep_machine::Step;
use bep_run::run_turns;
use bep_run_cut::check_run;
use std::alloc::Global;
use std::sync::Wait;
use std::thread::Threads;

// A file is put at device 1, and threads make a turn each. What device 1 has of it where the logs begin and in the cut then,
// and whether the logs fit.
fn handed_over<R: Threads + Wait + Sync>(rt: &R, alloc: Global) -> Option<(Held, Held, bool)> {
    let (one, docs_at, hello_at) = (device(1)?, docs(alloc)?, hello(alloc)?);
    let mut cluster = cluster(alloc)?;
    let edit = Step::Edit(one, docs(alloc)?, hello(alloc)?, file(alloc, 3)?);
    cluster.apply(edit).ok()?;
    let run = run_turns(rt, alloc, cluster, &OpenGate, 1).ok()?;
    let fits = matches!(check_run(&run), RunVerdict::Fits(_));
    let was = held_in(run.base(), 1, &docs_at, &hello_at);
    Some((was, held(&run, 1, &docs_at, &hello_at), fits))
}

// The scanner's turn records the file, which had no record before.
#[test]
fn threads_run_the_cluster_that_is_handed_over(rt: HostRuntime) {
    let seen = ((Some(3), None), (Some(3), Some(false)), true);
    assert_eq!(rt; handed_over(&rt, rt.alloc()), Some(seen));
}
