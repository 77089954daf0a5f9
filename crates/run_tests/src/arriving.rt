//! That threads bring each device's file to all others: each kind of worker is there, at each device and each end of a link.
use crate::made::{ROW, device, docs, file, three};
use crate::seen::{held, next_cut};
use bep_blocks::OpenGate;
use bep_record::Name;
use bep_run::{Shared, run_workers};
use bep_store::MemStore;
use std::alloc::Global;
use std::sync::Wait;
use std::thread::Threads;

// How many times the workers are begun, and how many turns each makes then.
const TIMES: u32 = 30;

const TURNS: u32 = 10;

// The name of this device's file.
fn name_of(alloc: Global, number: u64) -> Option<Name> {
    let number = u8::try_from(number).ok()?;
    Name::read(alloc, &[b'0'.saturating_add(number)]).ok()
}

// How many devices have the files of how many devices, recorded.
fn arrived<R: Wait>(rt: &R, alloc: Global, shared: &Shared<MemStore>) -> Option<u64> {
    let (run, _) = next_cut(rt, shared)?;
    let docs = docs(alloc)?;
    let mut count = 0u64;
    for from in 1..=3u64 {
        let name = name_of(alloc, from)?;
        for at in 1..=3u64 {
            if held(&run, at, &docs, &name) == (Some(3), Some(false)) {
                count = count.saturating_add(1);
            }
        }
    }
    Some(count)
}

// A file is put at each of three devices in a row, and workers run until all have all, or the limit is reached.
fn brought<R: Threads + Wait + Sync>(rt: &R, alloc: Global) -> Option<u64> {
    let shared = three(alloc, &ROW)?;
    let docs = docs(alloc)?;
    for number in 1..=3u64 {
        let (name, node) = (name_of(alloc, number)?, file(alloc, 3)?);
        shared.edit(rt, device(number)?, &docs, &name, &node).ok()?;
    }
    for (lower, upper) in ROW {
        shared.connect(rt, device(lower)?, device(upper)?).ok()?;
    }
    let mut count = 0u64;
    for _ in 0..TIMES {
        if count < 9 {
            run_workers(rt, &shared, &OpenGate, TURNS).ok()?;
            count = arrived(rt, alloc, &shared)?;
        }
    }
    Some(count)
}

#[test]
fn each_file_arrives_at_each_device(rt: HostRuntime) {
    assert_eq!(rt; brought(&rt, rt.alloc()), Some(9));
}
