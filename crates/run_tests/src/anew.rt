//! That logs begin anew under all guards: each cut fits, whatever goes on meanwhile.
use crate::made::{RING, device, three};
use crate::seen::next_cut;
use bep_run::Shared;
use bep_store::MemStore;
use std::alloc::Global;
use std::sync::Wait;
use std::thread;
use std::thread::Threads;

// How many rounds each thread makes.
const ROUNDS: u64 = 100;

// What the thread of this number does in this round: a device starts again, or all logs begin anew, or a cut is taken.
fn act<R: Wait>(rt: &R, shared: &Shared<MemStore>, thread: usize, round: u64) -> Option<()> {
    match thread {
        0 => shared.restart(rt, device(1)?).ok(),
        1 => shared.restart(rt, device(2)?).ok(),
        2 => shared.restart(rt, device(3)?).ok(),
        3 => shared.rebase_all(rt, round).ok(),
        _ => next_cut(rt, shared).map(|_| ()),
    }
}

// In how many rounds of how many threads nothing went wrong.
fn went<R: Threads + Wait + Sync>(rt: &R, alloc: Global) -> Option<u64> {
    let shared = three(alloc, &RING)?;
    let counts = thread::map_indices(
        rt,
        alloc,
        6,
        &|thread| {
            let mut count = 0u64;
            for round in 1..=ROUNDS {
                if act(rt, &shared, thread, round).is_some() {
                    count = count.saturating_add(1);
                }
            }
            count
        },
    )
    .ok()?;
    let mut all = 0u64;
    for count in counts {
        all = all.saturating_add(count);
    }
    Some(all)
}

#[test]
fn cuts_fit_while_logs_begin_anew(rt: HostRuntime) {
    assert_eq!(rt; went(&rt, rt.alloc()), Some(6 * ROUNDS));
}
