//! That a puller leaves no pull of what nobody wants any more.
use crate::made::{device, docs, file, hello, shared};
use crate::seen::{next_cut, pulls};
use bep_blocks::OpenGate;
use bep_log::LogError;
use bep_run::Shared;
use bep_store::MemStore;
use std::alloc::Global;
use std::sync::Wait;
use std::thread::Threads;

// A session's turn of each device, device 1's first, so many times.
fn exchange<R: Wait>(rt: &R, shared: &Shared<MemStore>, times: u32) -> Option<()> {
    let (one, two) = (device(1)?, device(2)?);
    for _ in 0..times {
        shared.session_turn(rt, one, two, &OpenGate).ok()?;
        shared.session_turn(rt, two, one, &OpenGate).ok()?;
    }
    Some(())
}

// Device 2 begins a pull of a file of device 1. That is removed, and device 2 takes the record of it, of which it wants none.
fn removed<R: Threads + Wait + Sync>(rt: &R, alloc: Global) -> Option<Shared<MemStore>> {
    let (one, two) = (device(1)?, device(2)?);
    let (docs, name) = (docs(alloc)?, hello(alloc)?);
    let shared = shared(alloc)?;
    shared.edit(rt, one, &docs, &name, &file(alloc, 5)?).ok()?;
    shared.scanner_turn(rt, one, &OpenGate).ok()?;
    shared.connect(rt, one, two).ok()?;
    exchange(rt, &shared, 3)?;
    shared.puller_turn(rt, two).ok()?;
    shared.remove(rt, one, &docs, &name).ok()?;
    shared.scanner_turn(rt, one, &OpenGate).ok()?;
    exchange(rt, &shared, 4)?;
    Some(shared)
}

// How many pulls device 2 has before a turn of its puller and after it, and what that turn and the next one answered.
type Turns = (usize, Result<u64, LogError>, usize, Result<u64, LogError>);

fn turns<R: Threads + Wait + Sync>(rt: &R, alloc: Global) -> Option<Turns> {
    let two = device(2)?;
    let docs = docs(alloc)?;
    let shared = removed(rt, alloc)?;
    let (before, _) = next_cut(rt, &shared)?;
    let first = shared.puller_turn(rt, two);
    let (after, _) = next_cut(rt, &shared)?;
    let second = shared.puller_turn(rt, two);
    Some((
        pulls(&before, 2, &docs)?,
        first,
        pulls(&after, 2, &docs)?,
        second,
    ))
}

#[test]
fn a_pull_that_is_not_wanted_any_more_is_ended(rt: HostRuntime) {
    assert_eq!(rt; turns(&rt, rt.alloc()), Some((1, Ok(1), 0, Ok(0))));
}
