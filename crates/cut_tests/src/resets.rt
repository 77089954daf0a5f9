//! A settled cluster of three devices, two hundred steps without local edits, with resets and rescans among them, and stores
//! of which every seventh call fails.
use crate::cut::held;
use crate::made::{CALLS, cluster_over, copy_of, settled, started};
use bep_core::Cluster;
use bep_cut::{clusters_are_parts, cut_of};
use bep_index::IndexId;
use bep_machine::Step;
use bep_record::DeviceId;
use bep_store::{FaultStore, MemStore, Store};
use std::alloc::Global;

// Each device starts over, meets another one, and scans some of its files; others it doesn't, so these have no record until the
// next round or the one after it. Device 1 pulls a file that it holds and hasn't scanned yet, and once more when it has. The
// last reset of device 3 is to an id that it has already.
const ROUND: [&str; 40] = [
    "n1", "c12", "b12", "b21", "d12", "d21", "a21", "d12", "p1f", "q12f", "d21", "d12", "f1f",
    "s1f", "f1f", "a12", "d21", "n2", "s2f", "s2l", "c12", "b12", "b21", "d12", "d21", "a12",
    "d21", "n3", "c13", "b13", "b31", "d31", "d13", "a13", "d31", "p3d", "f3d", "s3d", "n3", "s1d",
];

// A store of which three calls fail: each layer counts the calls that the ones above it let through.
type Failing = FaultStore<FaultStore<FaultStore<MemStore>>>;

// The store whose calls 7, 14 and 21 after the start fail. The steps make 24 calls at most.
fn failing(alloc: Global, place: usize) -> Option<Failing> {
    let before = CALLS.get(place)?;
    let third = FaultStore::new(MemStore::new(alloc), before.saturating_add(21 - 2));
    let second = FaultStore::new(third, before.saturating_add(14 - 1));
    Some(FaultStore::new(second, before.saturating_add(7)))
}

// The settled cluster over such stores.
fn settled_failing(alloc: Global) -> Option<Cluster<Failing>> {
    let (first, second) = (failing(alloc, 0)?, failing(alloc, 1)?);
    started(
        alloc,
        cluster_over(alloc, first, second, failing(alloc, 2)?)?,
    )
}

// A reset is to this id.
fn step_of(alloc: Global, step: &str, id: u64) -> Option<Step> {
    match step.as_bytes() {
        [b'n', device] => {
            let device = DeviceId::read(u64::from(device.checked_sub(b'0')?))?;
            Some(Step::Reset(device, IndexId::read(id)?))
        }
        _ => copy_of(alloc, step),
    }
}

// How many steps were made, how many a store refused, and how many resets were to an old id.
type Counted = (u64, u64, u64);

fn round<S: Store>(
    alloc: Global,
    cluster: &mut Cluster<S>,
    id: u64,
    before: Counted,
) -> Option<Counted> {
    let (mut made, mut failed, mut old) = before;
    for step in ROUND {
        match cluster.apply(step_of(alloc, step, id)?) {
            Ok(_) => made = made.saturating_add(1),
            Err(why) => match why.number()? {
                131 => failed = failed.saturating_add(1),
                149 => old = old.saturating_add(1),
                _ => {}
            },
        }
    }
    Some((made, failed, old))
}

// How many nodes the stores hold in the end, and how many of them are what was put last at the name.
fn kept<S: Store>(alloc: Global, cluster: Cluster<S>) -> Option<(u64, u64)> {
    clusters_are_parts();
    let (mut peers, links) = cluster.into_parts();
    let cut = cut_of(alloc, peers.as_mut_slice(), links.as_slice()).ok()?;
    held(alloc, &cut)
}

// What so many rounds count, each with ids of its own, and what the stores hold then.
fn story<S: Store>(
    alloc: Global,
    cluster: Cluster<S>,
    rounds: u64,
) -> Option<(Counted, (u64, u64))> {
    let mut cluster = cluster;
    let mut counted = (0u64, 0u64, 0u64);
    for id in 0..rounds {
        counted = round(alloc, &mut cluster, id.saturating_add(11), counted)?;
    }
    Some((counted, kept(alloc, cluster)?))
}

// The second reading counts the same.
#[test]
fn resets_and_rescans_leave_the_stores(rt: HostRuntime) {
    let alloc = rt.alloc();
    let Some(cluster) = settled(alloc, [0; 3]) else {
        panic!(rt; "not settled");
    };
    assert_eq!(rt; story(alloc, cluster, 5), Some(((180, 0, 5), (9, 9))));
}

#[test]
fn they_leave_the_stores_where_every_seventh_call_fails(rt: HostRuntime) {
    let alloc = rt.alloc();
    let Some(cluster) = settled_failing(alloc) else {
        panic!(rt; "not settled");
    };
    assert_eq!(rt; story(alloc, cluster, 5), Some(((169, 6, 5), (9, 9))));
}
