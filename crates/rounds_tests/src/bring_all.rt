//! That all names come to all of three devices, a deletion among them; and what is answered where so many rounds are too few, where
//! nothing is behind, and where a store fails.
use crate::made::{cluster, put_at, remove_at, told_of};
use bep_core::Cluster;
use bep_rounds::{RoundError, Wanted, bring_all};
use bep_store::{FaultStore, MemStore, Store};
use std::alloc::Global;

// Each device has a name of its own, and the first one removed the song, which all had.
fn apart<S: Store>(alloc: Global, first: S, second: S, third: S) -> Option<Cluster<S>> {
    let mut cluster = cluster(alloc, first, second, third)?;
    put_at(alloc, &mut cluster, 3, b"song", 7)?;
    let left = bring_all(&mut cluster, alloc, 2).ok()?;
    if left.is_some() {
        return None;
    }
    remove_at(alloc, &mut cluster, 1, b"song")?;
    put_at(alloc, &mut cluster, 1, b"photo", 9)?;
    put_at(alloc, &mut cluster, 2, b"letter", 5)?;
    put_at(alloc, &mut cluster, 3, b"list", 0)?;
    Some(cluster)
}

// What the three devices tell of the name.
fn told<S: Store>(alloc: Global, cluster: &Cluster<S>, name: &[u8]) -> [Option<Option<u64>>; 3] {
    [
        told_of(alloc, cluster, 1, name),
        told_of(alloc, cluster, 2, name),
        told_of(alloc, cluster, 3, name),
    ]
}

// Whether something is left after so many rounds.
fn is_left<S: Store>(alloc: Global, cluster: &mut Cluster<S>, most: u64) -> Option<bool> {
    let left: Option<Wanted> = bring_all(cluster, alloc, most).ok()?;
    Some(left.is_some())
}

// What the devices tell of each name once all was brought. Two devices lack each of the four, so that is after eight rounds: seven
// leave something, one more leaves nothing, and then none is needed.
fn all_told(alloc: Global) -> Option<([bool; 3], [[Option<Option<u64>>; 3]; 4])> {
    let store = || MemStore::new(alloc);
    let mut cluster = apart(alloc, store(), store(), store())?;
    let left = [
        is_left(alloc, &mut cluster, 7)?,
        is_left(alloc, &mut cluster, 1)?,
        is_left(alloc, &mut cluster, 0)?,
    ];
    let names = [
        told(alloc, &cluster, b"photo"),
        told(alloc, &cluster, b"letter"),
        told(alloc, &cluster, b"list"),
        told(alloc, &cluster, b"song"),
    ];
    Some((left, names))
}

#[test]
fn all_come_to_all(rt: HostRuntime) {
    let names = [
        [Some(Some(9)); 3],
        [Some(Some(5)); 3],
        [Some(Some(0)); 3],
        [Some(None); 3],
    ];
    assert_eq!(rt; all_told(rt.alloc()), Some(([true, false, false], names)));
}

// What is answered where the third device's store fails at its first call, and whether something is left when all is tried again.
fn failed(alloc: Global) -> Option<(bool, bool)> {
    let store = |call| FaultStore::new(MemStore::new(alloc), call);
    let mut cluster = cluster(alloc, store(0), store(0), store(1))?;
    put_at(alloc, &mut cluster, 1, b"photo", 5)?;
    let fault = matches!(
        bring_all(&mut cluster, alloc, 9),
        Err(RoundError::StoreFault)
    );
    Some((fault, is_left(alloc, &mut cluster, 9)?))
}

#[test]
fn all_rounds_end_at_a_fault(rt: HostRuntime) {
    assert_eq!(rt; failed(rt.alloc()), Some((true, false)));
}
