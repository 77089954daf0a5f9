//! The steps by which the cluster is settled, where each call of each store fails in turn, and what a store refused is done
//! once more.
use crate::cut::{Seen, shown};
use crate::made::{CALLS, START, cluster, copy_of, made};
use bep_core::Cluster;
use bep_cut::{clusters_are_parts, cut_of};
use bep_store::{FaultStore, MemStore};
use std::alloc::Global;

// What asks once more for the block that a device couldn't read, so that its answer told a fault.
const AGAIN: [&str; 4] = ["q12f", "d21", "d12", "f1f"];

// How many of the steps a store refused, where each of them is made once more.
fn made_again(alloc: Global, cluster: &mut Cluster<FaultStore<MemStore>>) -> Option<u64> {
    let mut failed = 0u64;
    for step in START {
        let (_, refused) = made(alloc, cluster, &[step])?;
        if refused > 0 {
            failed = failed.saturating_add(refused);
            made(alloc, cluster, &[step])?;
        }
    }
    made(alloc, cluster, &AGAIN)?;
    Some(failed)
}

fn ended(alloc: Global, cluster: Cluster<FaultStore<MemStore>>) -> Option<Seen> {
    clusters_are_parts();
    let (mut peers, links) = cluster.into_parts();
    let taken = cut_of(alloc, peers.as_mut_slice(), links.as_slice());
    shown(alloc, taken)
}

// The same, and what the cut shows then, where this call of the store of the device at this place fails.
fn told(alloc: Global, place: usize, call: u64) -> Option<(u64, Seen)> {
    let mut calls = [0u64; 3];
    *calls.get_mut(place)? = call;
    let mut cluster = cluster(alloc, calls)?;
    let failed = made_again(alloc, &mut cluster)?;
    Some((failed, ended(alloc, cluster)?))
}

// The last call of device 2 reads the file of which device 1 asks for a block: the answer tells the fault, and no step is
// refused.
#[test]
fn what_a_store_refuses_is_done_the_second_time(rt: HostRuntime) {
    let seen = (9, 9, (3, true));
    for (place, last) in [(0, CALLS[0]), (1, CALLS[1]), (2, CALLS[2])] {
        for call in 0..=last {
            let failed = u64::from(call > 0 && (place, call) != (1, CALLS[1]));
            assert_eq!(rt;
                told(rt.alloc(), place, call),
                Some((failed, seen)),
                "call {call} at place {place}"
            );
        }
    }
}
