//! Block lists by several workers: the same list for every number of them, and that two hash at once.
use bep_blocks::{BlocksError, Gate, OpenGate, Place, blocks, blocks_by};
use bep_record::BlockSize;
use std::alloc::Global;
use std::sync::atomic::{AtomicU64, Ordering};
use std::thread;
use std::thread::Threads;
use std::time::{Clock, Duration};

// How often a thread that waits at the gate looks whether the other one has come, and how long it sleeps in between.
const TRIES: u32 = 20000;

const SLEEP: u64 = 100;

// A gate that holds each worker until two have come.
#[derive(Drop)]
struct TwoMeet<R: Clock + Drop> {
    rt: R,
    come: AtomicU64,
    given_up: AtomicU64,
}

impl<R: Clock + Drop> TwoMeet<R> {
    fn new(rt: R) -> Self {
        TwoMeet {
            rt,
            come: AtomicU64::new(0),
            given_up: AtomicU64::new(0),
        }
    }

    // How many came, and how many of them waited in vain.
    fn seen(&self) -> (u64, u64) {
        (
            self.come.load(Ordering::SeqCst),
            self.given_up.load(Ordering::SeqCst),
        )
    }
}

impl<R: Clock + Drop> Gate for TwoMeet<R> {
    fn pass(&self, place: Place) {
        let Place::Piece(_) = place else {
            return;
        };
        self.come.fetch_add(1, Ordering::SeqCst);
        for _ in 0..TRIES {
            if self.come.load(Ordering::SeqCst) >= 2 {
                return;
            }
            thread::sleep(&self.rt, Duration::from_micros(SLEEP));
        }
        self.given_up.fetch_add(1, Ordering::SeqCst);
    }
}

// Whether so many workers give the plain list of this many bytes, which aren't alike, and how many blocks it has.
fn is_plain<R: Threads + Sync>(
    rt: &R,
    alloc: Global,
    len: usize,
    workers: u32,
) -> Result<(bool, usize), BlocksError> {
    let mut bytes = vec![in alloc; 0u8; len]?;
    for k in 0..len {
        bytes[k] = (k / 1000 % 251) as u8;
    }
    let plain = blocks(alloc, &bytes, BlockSize::base())?;
    let made = blocks_by(rt, alloc, &OpenGate, &bytes, BlockSize::base(), workers)?;
    Ok((made.as_slice() == plain.as_slice(), made.as_slice().len()))
}

#[test]
fn any_number_of_workers_gives_the_plain_list(rt: HostRuntime) {
    for workers in [1, 2, 8] {
        assert_eq!(rt; is_plain(&rt, rt.alloc(), 0, workers), Ok((true, 1)));
        assert_eq!(rt; is_plain(&rt, rt.alloc(), 131073, workers), Ok((true, 2)));
        assert_eq!(rt; is_plain(&rt, rt.alloc(), 1048577, workers), Ok((true, 9)));
    }
}

// How many blocks so many workers make of so many zero bytes.
fn count<R: Threads + Sync>(
    rt: &R,
    alloc: Global,
    len: usize,
    workers: u32,
) -> Result<usize, BlocksError> {
    let bytes = vec![in alloc; 0u8; len]?;
    let made = blocks_by(rt, alloc, &OpenGate, &bytes, BlockSize::base(), workers)?;
    Ok(made.as_slice().len())
}

#[test]
fn workers_are_one_to_eight(rt: HostRuntime) {
    for workers in [0, 9] {
        let refused = Err(BlocksError::WorkersBad);
        assert_eq!(rt; count(&rt, rt.alloc(), 3, workers), refused);
        assert_eq!(rt; count(&rt, rt.alloc(), 16777217, workers), refused);
    }
    assert_eq!(rt; BlocksError::WorkersBad.number(), Some(111));
    assert_eq!(rt; count(&rt, rt.alloc(), 16777217, 8), Ok(129));
}

#[test]
fn two_workers_hash_at_once(rt: HostRuntime) {
    let gate = TwoMeet::new(rt);
    let bytes = match vec![in rt.alloc(); 7u8; 262144] {
        Ok(bytes) => bytes,
        Err(_) => panic!(rt; "out of memory"),
    };
    let made = blocks_by(&rt, rt.alloc(), &gate, &bytes, BlockSize::base(), 2);
    assert!(rt; made.is_ok());
    assert_eq!(rt; gate.seen(), (2, 0));
}
