//! The block list of bytes by two workers, asked for once more where memory was wanting.
use crate::telling::Told;
use crate::twice;
use bep_blocks::{BlocksError, Gate, Place, blocks, blocks_by};
use bep_lines::{Piece, push_pieces};
use bep_record::{Block, BlockSize, Items};
use std::alloc::{AllocError, Global};
use std::sync::atomic::{AtomicU64, Ordering};
use std::thread;
use std::thread::Threads;
use std::time::{Clock, Duration};

// How many microseconds the second worker stays at the gate.
const SLEEP: u64 = 1000;

// A gate that counts who comes and who goes, and lets the second worker go late.
#[derive(Drop)]
struct Counting<R: Clock + Drop> {
    rt: R,
    come: AtomicU64,
    gone: AtomicU64,
}

impl<R: Clock + Drop> Counting<R> {
    fn new(rt: R) -> Self {
        Counting {
            rt,
            come: AtomicU64::new(0),
            gone: AtomicU64::new(0),
        }
    }

    // Whether nobody is there.
    fn is_left(&self) -> bool {
        self.come.load(Ordering::SeqCst) == self.gone.load(Ordering::SeqCst)
    }
}

impl<R: Clock + Drop> Gate for Counting<R> {
    fn pass(&self, place: Place) {
        self.come.fetch_add(1, Ordering::SeqCst);
        if place == Place::Piece(1) {
            thread::sleep(&self.rt, Duration::from_micros(SLEEP));
        }
        self.gone.fetch_add(1, Ordering::SeqCst);
    }
}

/// Tells whether two workers make the list that one makes, and how many blocks it has.
pub(crate) fn tell_blocks<R: Threads + Clock + Sync + Copy + Drop>(
    rt: R,
    alloc: Global,
    bytes: &[u8],
    told: &mut Told,
) -> Result<(), AllocError> {
    let gate = Counting::new(rt);
    match hashed(&rt, alloc, &gate, bytes, told) {
        Ok(list) => compare(alloc, bytes, list.as_slice(), told),
        Err(_) => Err(AllocError),
    }
}

// The list by two workers. Each has ended once there is an answer.
fn hashed<R: Threads + Clock + Sync + Drop>(
    rt: &R,
    alloc: Global,
    gate: &Counting<R>,
    bytes: &[u8],
    told: &mut Told,
) -> Result<Items<Block>, BlocksError> {
    match blocks_by(rt, alloc, gate, bytes, BlockSize::base(), 2) {
        Err(BlocksError::Memory) => {
            told.is_twice = true;
            tell_workers(gate.is_left(), told)?;
            blocks_by(rt, alloc, gate, bytes, BlockSize::base(), 2)
        }
        answer => answer,
    }
}

fn tell_workers(is_left: bool, told: &mut Told) -> Result<(), AllocError> {
    if is_left {
        return Ok(());
    }
    twice!(told; told.text.extend_from_slice(b"a worker goes on\n"))
}

fn compare(alloc: Global, bytes: &[u8], list: &[Block], told: &mut Told) -> Result<(), AllocError> {
    match twice!(told; blocks(alloc, bytes, BlockSize::base())) {
        Ok(plain) => tell(list == plain.as_slice(), list.len(), told),
        Err(_) => Err(AllocError),
    }
}

fn tell(is_plain: bool, count: usize, told: &mut Told) -> Result<(), AllocError> {
    let word = if is_plain {
        " blocks, as by one\n"
    } else {
        " other blocks\n"
    };
    let pieces = [Piece::Number(count as u64), Piece::Text(word)];
    twice!(told; push_pieces(&mut told.text, &pieces))
}
