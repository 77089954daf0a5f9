//! A settled cluster of three devices, two hundred steps without local edits, and stores that fail in them.
use crate::cut::{Seen, shown};
use crate::device::{Late, late};
use crate::made::{copy_of, made, settled};
use bep_core::{Cluster, Why};
use bep_cut::{clusters_are_parts, cut_of};
use bep_machine::{Moved, Refusal};
use bep_peer::PeerError;
use bep_store::{FaultStore, MemStore};
use std::alloc::Global;

// Scans, requests and their answers, announcements, pulls and their ends, a lost link, a restart and new sessions; no local
// edit. Twice device 2 asks device 1 for the old bytes, which that one has no more. In the first round device 1 takes over
// the record of device 3, and then device 3 that of device 1.
const ROUND: [&str; 40] = [
    "s1f", "s1d", "s1l", "s2f", "s2l", "s3f", "s3d", "q21f", "d12", "d21", "q21f", "d12", "d21",
    "a31", "d13", "p1f", "f1f", "a13", "d31", "p3f", "f3f", "l12", "c12", "b12", "b21", "d12",
    "d21", "a21", "d12", "a23", "d32", "r3", "c13", "c23", "b13", "b31", "b23", "b32", "d13",
    "d31",
];

// What was made and what a store refused in as many rounds.
fn counted(
    alloc: Global,
    cluster: &mut Cluster<FaultStore<MemStore>>,
    rounds: u32,
) -> Option<(u64, u64)> {
    let mut all = (0u64, 0u64);
    for _round in 0..rounds {
        let (made, failed) = made(alloc, cluster, &ROUND)?;
        all = (all.0.saturating_add(made), all.1.saturating_add(failed));
    }
    Some(all)
}

// The answers where device 2 ends its pull, and does so once more.
type Dropped = [Result<Moved, Why>; 2];

fn dropped(alloc: Global, cluster: &mut Cluster<FaultStore<MemStore>>) -> Option<Dropped> {
    let first = cluster.apply(copy_of(alloc, "f2f")?);
    Some([first, cluster.apply(copy_of(alloc, "f2f")?)])
}

// What is seen of the cluster's cut, and what its first device answers then.
fn ended(alloc: Global, cluster: Cluster<FaultStore<MemStore>>) -> Option<(Seen, Late)> {
    clusters_are_parts();
    let (mut peers, links) = cluster.into_parts();
    let taken = cut_of(alloc, peers.as_mut_slice(), links.as_slice());
    let seen = shown(alloc, taken)?;
    Some((seen, late(alloc, peers.first_mut()?)?))
}

// What is counted, and what is said of the end.
type Told = ((u64, u64), Dropped, (Seen, Late));

// The same after as many rounds, where this call of each store fails in them.
fn story(alloc: Global, rounds: u32, call: u64) -> Option<Told> {
    let mut cluster = settled(alloc, [call, call, call])?;
    let counted = counted(alloc, &mut cluster, rounds)?;
    let dropped = dropped(alloc, &mut cluster)?;
    Some((counted, dropped, ended(alloc, cluster)?))
}

// The second reading counts the same. The seventh call of the store of device 1 answers a request, the tenth
// ends a pull; the others' are scans.
#[test]
fn quiet_steps_leave_a_settled_cluster_settled(rt: HostRuntime) {
    let dropped = [Ok(Moved::Dropped), Err(Why::Refused(Refusal::NotNeeded))];
    let end = ((9, 9, (3, true)), (3, Err(PeerError::Stale)));
    for (rounds, call, counted) in [
        (0, 0, (0, 0)),
        (5, 0, (154, 0)),
        (5, 7, (152, 2)),
        (5, 10, (155, 3)),
    ] {
        let told = story(rt.alloc(), rounds, call);
        assert_eq!(rt; told, Some((counted, dropped, end)));
    }
}
