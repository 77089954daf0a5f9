//! What a device of three does over both of its links.
use crate::made::{RING, device, docs, file, hello, three};
use crate::seen::next_cut;
use bep_blocks::OpenGate;
use bep_index::IndexId;
use bep_log::LogError;
use bep_run::Shared;
use bep_store::MemStore;
use std::alloc::Global;
use std::sync::Wait;
use std::thread::Threads;

// Three devices whose links are all up.
fn linked<R: Wait>(rt: &R, alloc: Global) -> Option<Shared<MemStore>> {
    let shared = three(alloc, &RING)?;
    for (lower, upper) in RING {
        shared.connect(rt, device(lower)?, device(upper)?).ok()?;
    }
    Some(shared)
}

// Which links are up, and how many events there are.
type Up = ([Option<bool>; 3], u64);

fn up<R: Wait>(rt: &R, shared: &Shared<MemStore>) -> Option<Up> {
    let (run, count) = next_cut(rt, shared)?;
    let links = run.cut().links();
    let is_up = |at: usize| links.get(at).map(|link| link.up);
    Some(([is_up(0), is_up(1), is_up(2)], count))
}

// Which links are up once the device started again, and once it was reset in another such cluster.
fn lost<R: Wait>(rt: &R, alloc: Global, number: u64) -> Option<[Up; 2]> {
    let restarted = linked(rt, alloc)?;
    restarted.restart(rt, device(number)?).ok()?;
    let reset = linked(rt, alloc)?;
    reset.reset(rt, device(number)?, IndexId::read(21)?).ok()?;
    Some([up(rt, &restarted)?, up(rt, &reset)?])
}

#[test]
fn a_restart_and_a_reset_end_each_link_of_the_device_and_no_other(rt: HostRuntime) {
    let (is, not) = (Some(true), Some(false));
    let [first, second, third] = [
        ([not, not, is], 4),
        ([not, is, not], 4),
        ([is, not, not], 4),
    ];
    assert_eq!(rt; lost(&rt, rt.alloc(), 1), Some([first, first]));
    assert_eq!(rt; lost(&rt, rt.alloc(), 2), Some([second, second]));
    assert_eq!(rt; lost(&rt, rt.alloc(), 3), Some([third, third]));
}

// A session's turn of each end of each link, so many times.
fn exchange<R: Wait>(rt: &R, shared: &Shared<MemStore>, times: u32) -> Option<()> {
    for _ in 0..times {
        for (lower, upper) in RING {
            let (lower, upper) = (device(lower)?, device(upper)?);
            shared.session_turn(rt, lower, upper, &OpenGate).ok()?;
            shared.session_turn(rt, upper, lower, &OpenGate).ok()?;
        }
    }
    Some(())
}

// What a turn of device 3's puller answers where devices 1 and 2 both have a file of two blocks.
fn asked<R: Threads + Wait + Sync>(rt: &R, alloc: Global) -> Option<Result<u64, LogError>> {
    let shared = linked(rt, alloc)?;
    let (one, node) = (device(1)?, file(alloc, 131073)?);
    shared
        .edit(rt, one, &docs(alloc)?, &hello(alloc)?, &node)
        .ok()?;
    shared.scanner_turn(rt, one, &OpenGate).ok()?;
    for _ in 0..8 {
        exchange(rt, &shared, 1)?;
        shared.puller_turn(rt, device(2)?).ok()?;
    }
    exchange(rt, &shared, 2)?;
    Some(shared.puller_turn(rt, device(3)?))
}

// It begins a pull, and asks for a block over each of its links.
#[test]
fn a_puller_asks_over_each_link(rt: HostRuntime) {
    assert_eq!(rt; asked(&rt, rt.alloc()), Some(Ok(3)));
}
