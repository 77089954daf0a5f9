//! That a round brings a file of three blocks, then a file again that grew, then its deletion; that the next device has it from
//! the one that was brought it; and what is answered where there is nothing to bring, or a store fails.
use crate::made::{cluster, put, remove, told, wanted};
use bep_machine::Refusal;
use bep_rounds::{RoundError, bring};
use bep_store::{FaultStore, MemStore};
use std::alloc::Global;

// Three blocks of 128 KiB, the last of one byte.
const SIZE: usize = 262145;

// What the second and the third device tell of the name after each round.
fn brought(alloc: Global) -> Option<[Option<Option<u64>>; 4]> {
    let store = || MemStore::new(alloc);
    let mut cluster = cluster(alloc, store(), store(), store())?;
    put(alloc, &mut cluster, SIZE)?;
    bring(&mut cluster, alloc, &wanted(alloc, 2, 1)?).ok()?;
    let first = told(alloc, &cluster, 2);
    bring(&mut cluster, alloc, &wanted(alloc, 3, 2)?).ok()?;
    let second = told(alloc, &cluster, 3);
    put(alloc, &mut cluster, 5)?;
    bring(&mut cluster, alloc, &wanted(alloc, 2, 1)?).ok()?;
    let third = told(alloc, &cluster, 2);
    remove(alloc, &mut cluster)?;
    bring(&mut cluster, alloc, &wanted(alloc, 2, 1)?).ok()?;
    Some([first, second, third, told(alloc, &cluster, 2)])
}

#[test]
fn rounds_bring_what_prevails(rt: HostRuntime) {
    let size = Some(Some(SIZE as u64));
    let all = Some([size, size, Some(Some(5)), Some(None)]);
    assert_eq!(rt; brought(rt.alloc()), all);
}

// What is answered where the owner has no record, where the device is there already, and where its store fails at this call.
fn refused(alloc: Global, call: u64) -> Option<[Result<(), RoundError>; 3]> {
    let store = |call| FaultStore::new(MemStore::new(alloc), call);
    let mut cluster = cluster(alloc, store(0), store(call), store(0))?;
    let none = bring(&mut cluster, alloc, &wanted(alloc, 2, 1)?);
    put(alloc, &mut cluster, SIZE)?;
    let failed = bring(&mut cluster, alloc, &wanted(alloc, 2, 1)?);
    let _again = bring(&mut cluster, alloc, &wanted(alloc, 2, 1)?);
    let there = bring(&mut cluster, alloc, &wanted(alloc, 2, 1)?);
    Some([none, failed, there])
}

#[test]
fn rounds_tell_why_they_end(rt: HostRuntime) {
    let none = Err(RoundError::Refused(Refusal::NotShared));
    let there = Err(RoundError::Refused(Refusal::NotNeeded));
    assert_eq!(rt;
        refused(rt.alloc(), 1),
        Some([none, Err(RoundError::StoreFault), there])
    );
}
