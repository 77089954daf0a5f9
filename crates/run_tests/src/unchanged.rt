//! That a scanner hashes what changed, and leaves an event for each name all the same.
use crate::made::{cluster, device, docs, failing, file, hello};
use crate::seen::{held, next_cut};
use crate::waiting::{come, count};
use bep_blocks::{Gate, OpenGate, Place};
use bep_log::LogError;
use bep_record::Node;
use bep_run::Shared;
use bep_store::{MemStore, Store};
use std::alloc::Global;
use std::sync::Wait;
use std::sync::atomic::AtomicU64;
use std::thread::Threads;

// A gate that counts the pieces that are hashed, and the names that were hashed.
#[derive(Drop)]
struct Counting {
    pieces: AtomicU64,
    hashed: AtomicU64,
}

impl Gate for Counting {
    fn pass(&self, place: Place) {
        match place {
            Place::Piece(_) => {
                come(&self.pieces);
            }
            Place::Hashed(_) => {
                come(&self.hashed);
            }
            _ => {}
        }
    }
}

// Of a turn of device 1's scanner: what it answered, how many pieces it hashed, how many names it passed the gate for, and how
// many events the next cut has more.
type Turn = (Result<u64, LogError>, u64, u64, u64);

fn turn<R: Threads + Wait + Sync, S: Store + Send>(rt: &R, shared: &Shared<S>) -> Option<Turn> {
    let gate = Counting {
        pieces: AtomicU64::new(0),
        hashed: AtomicU64::new(0),
    };
    let (_, before) = next_cut(rt, shared)?;
    let answer = shared.scanner_turn(rt, device(1)?, &gate);
    let (_, after) = next_cut(rt, shared)?;
    let events = after.checked_sub(before)?;
    Some((answer, count(&gate.pieces), count(&gate.hashed), events))
}

// Puts a file of so many bytes at device 1.
fn put<R: Wait, S: Store>(rt: &R, alloc: Global, shared: &Shared<S>, len: usize) -> Option<()> {
    let (one, docs, name) = (device(1)?, docs(alloc)?, hello(alloc)?);
    let node = file(alloc, len)?;
    shared.edit(rt, one, &docs, &name, &node).ok()?;
    Some(())
}

// Turns over a new file, over the same one, over one that was changed, and over what was removed, twice.
fn turns<R: Threads + Wait + Sync, S: Store + Send>(
    rt: &R,
    alloc: Global,
    shared: Shared<S>,
) -> Option<[Turn; 5]> {
    put(rt, alloc, &shared, 3)?;
    let first = turn(rt, &shared)?;
    let again = turn(rt, &shared)?;
    put(rt, alloc, &shared, 4)?;
    let changed = turn(rt, &shared)?;
    shared
        .remove(rt, device(1)?, &docs(alloc)?, &hello(alloc)?)
        .ok()?;
    let removed = turn(rt, &shared)?;
    Some([first, again, changed, removed, turn(rt, &shared)?])
}

// Each name has its event in each turn, and the gate is passed for it; an unchanged file has no piece.
#[test]
fn an_unchanged_file_is_not_hashed_again(rt: HostRuntime) {
    let Some(cluster) = cluster(rt.alloc()) else {
        panic!(rt; "the cluster isn't made");
    };
    let Ok(shared) = Shared::new(rt.alloc(), cluster) else {
        panic!(rt; "the cluster isn't shared");
    };
    let (hashed, not) = ((Ok(1), 1, 1, 1), (Ok(1), 0, 1, 1));
    assert_eq!(rt;
        turns(&rt, rt.alloc(), shared),
        Some([hashed, not, hashed, not, not])
    );
}

// A store that lends no file: what is read of it is hashed in each turn, under no lock.
#[test]
fn a_file_that_is_not_lent_is_hashed_again(rt: HostRuntime) {
    let Some(cluster) = failing(rt.alloc(), [0, 0]) else {
        panic!(rt; "the cluster isn't made");
    };
    let Ok(shared) = Shared::new(rt.alloc(), cluster) else {
        panic!(rt; "the cluster isn't shared");
    };
    let (hashed, not) = ((Ok(1), 1, 1, 1), (Ok(1), 0, 1, 1));
    assert_eq!(rt;
        turns(&rt, rt.alloc(), shared),
        Some([hashed, hashed, hashed, not, not])
    );
}

// A gate that changes the file where a scanner has found it clean.
#[derive(Drop)]
struct Changing<'a, R: Wait + Drop> {
    rt: R,
    shared: &'a Shared<MemStore>,
    alloc: Global,
    node: Node,
}

impl<R: Wait + Drop> Changing<'_, R> {
    fn change(&self) -> Option<()> {
        let (one, docs, name) = (device(1)?, docs(self.alloc)?, hello(self.alloc)?);
        self.shared
            .edit(&self.rt, one, &docs, &name, &self.node)
            .ok()?;
        Some(())
    }
}

impl<R: Wait + Drop> Gate for Changing<'_, R> {
    fn pass(&self, place: Place) {
        if let Place::Hashed(_) = place {
            let _done = self.change();
        }
    }
}

// A turn in which the clean file of 3 bytes changes to one of 4; what it answers, how many events there are of the edit and the
// scan, and what the device has then.
fn overtaken<R: Threads + Wait + Sync + Copy + Drop>(
    rt: R,
    alloc: Global,
) -> Option<(Result<u64, LogError>, u64, Option<usize>)> {
    let shared = Shared::new(alloc, cluster(alloc)?).ok()?;
    put(&rt, alloc, &shared, 3)?;
    shared.scanner_turn(&rt, device(1)?, &OpenGate).ok()?;
    let (_, before) = next_cut(&rt, &shared)?;
    let gate = Changing {
        rt,
        shared: &shared,
        alloc,
        node: file(alloc, 4)?,
    };
    let answer = shared.scanner_turn(&rt, device(1)?, &gate);
    let (run, after) = next_cut(&rt, &shared)?;
    let (len, _) = held(&run, 1, &docs(alloc)?, &hello(alloc)?);
    Some((answer, after.checked_sub(before)?, len))
}

// It is passed over until the next turn, since it would be hashed under the device's lock.
#[test]
fn a_file_that_changes_once_it_was_found_clean_is_passed_over(rt: HostRuntime) {
    assert_eq!(rt; overtaken(rt, rt.alloc()), Some((Ok(0), 1, Some(4))));
}
