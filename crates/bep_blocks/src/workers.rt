//! The block list of bytes, made by several threads.
ghost use Rattle.std.specs.Prelude.{◌≡◌, ◌≢◌, ◌+◌, ◌++◌, ◌^◌, ◌<◌, ◌≤◌, ◌↔◌, length, IfOk, IfErr, IsErrOf, IsTrue, OnOk, MatchResult};
ghost use Rattle.bep_record.specs.Block.{block_count};
ghost use Rattle.bep_blocks.specs.Plain.{plain_blocks};
ghost use Rattle.bep_blocks.specs.Workers.{IsWorkerCount, run_blocks, run_start};

use crate::error::BlocksError;
use crate::gate::{Gate, Place};
use crate::plain::{bytes_of, cut_run};
use bep_record::{Block, BlockSize, Items, MAX_FILE_SIZE};
use std::alloc::{AllocError, Global};
use std::thread;
use std::thread::Threads;

/// The most workers that may hash one file.
pub const MAX_WORKERS: u32 = 8;

/// Whether so many workers may hash a file: 1 to 8.
pub fn is_worker_count(workers: u32) -> bool
    ensures { IsTrue result ↔ IsWorkerCount workers }
{
    (1..=MAX_WORKERS).contains(&workers)
}

/// The block list that `blocks` gives, hashed by this many workers, but by no more than there are blocks.
///
/// Each worker hashes a run of whole blocks, in a thread of its own where one can be made, and passes the gate at
/// `Piece` of its number first. All have ended when the call answers. Refused with `WorkersBad` where there are no
/// workers or more than 8, then with `FileTooLarge` where there are more than 536870912 bytes, and else only for want
/// of memory.
pub fn blocks_by<R: Threads + Sync, G: Gate + Sync>(
    rt: &R,
    alloc: Global,
    gate: &G,
    bytes: &[u8],
    size: BlockSize,
    workers: u32,
) -> Result<Items<Block>, BlocksError>
    ensures plain { IfOk result (λ list. list ≡ plain_blocks size bytes.now) }
    ensures workers_bad { IsErrOf result BlocksError.WorkersBad ↔ (¬ IsWorkerCount workers) }
    ensures too_large { IsErrOf result BlocksError.FileTooLarge ↔ (IsWorkerCount workers × (MAX_FILE_SIZE < length bytes.now)) }
    ensures or_memory { IfErr result (λ e. e ≢ BlocksError.WorkersBad → e ≢ BlocksError.FileTooLarge → e ≡ BlocksError.Memory) }
{
    if !is_worker_count(workers) {
        return Err(BlocksError::WorkersBad);
    }
    if bytes.len() as u64 > MAX_FILE_SIZE {
        return Err(BlocksError::FileTooLarge);
    }
    Ok(Items::new(cut_by(rt, alloc, gate, bytes, size, workers as usize)?))
}

// The plain block list of the bytes, each run of it by one worker.
fn cut_by<R: Threads + Sync, G: Gate + Sync>(
    rt: &R,
    alloc: Global,
    gate: &G,
    bytes: &[u8],
    size: BlockSize,
    workers: usize,
) -> Result<Vec<Block>, AllocError>
    requires workers { IsWorkerCount workers }
    requires small { length bytes.now ≤ MAX_FILE_SIZE }
    ensures { IfOk result (λ list. list.items ≡ plain_blocks size bytes.now) }
{
    let block_size = bytes_of(size);
    let count = size.block_count(bytes.len() as u64) as usize;
    let workers = workers.min(count);
    let runs = thread::map_indices(
        rt,
        alloc,
        workers,
        &|worker| run_of(alloc, gate, bytes, block_size, worker, workers, count),
    )?;
    let mut list = Vec::with_capacity(alloc, count)?;
    for worker in 0..workers {
        add_run(&mut list, &runs[worker])?;
    }
    Ok(list)
}

// Adds the blocks of a run, where its worker had memory for them.
fn add_run(list: &mut Vec<Block>, run: &Result<Vec<Block>, AllocError>) -> Result<(), AllocError>
    ensures { OnOk result (MatchResult run.now (λ blocks. list.new.items ≡ list.old.items ++ blocks.items) (λ _. ⊥)) }
{
    match run {
        Ok(blocks) => list.extend_from_slice(blocks.as_slice()),
        Err(_) => Err(AllocError),
    }
}

// The blocks of one worker's run, of this many blocks in all.
fn run_of<G: Gate>(
    alloc: Global,
    gate: &G,
    bytes: &[u8],
    block_size: usize,
    worker: usize,
    workers: usize,
    count: usize,
) -> Result<Vec<Block>, AllocError>
    requires worker { worker < workers }
    requires workers { workers ≤ MAX_WORKERS }
    requires small { (block_size < 2 ^ 32) × (length bytes.now ≤ MAX_FILE_SIZE) }
    requires count { count ≡ block_count block_size (length bytes.now) }
    ensures { IfOk result (λ list. list.items ≡ run_blocks block_size bytes.now workers count worker) }
{
    gate.pass(Place::Piece(worker as u32));
    let first = first_block(worker, workers, count);
    let next = first_block(worker + 1, workers, count);
    cut_run(alloc, bytes, block_size, first, next)
}

// The first block of this worker's run.
fn first_block(worker: usize, workers: usize, count: usize) -> usize
    requires { (0 < workers) × (worker ≤ MAX_WORKERS) × (count < 2 ^ 32) }
    ensures { result ≡ run_start workers count worker }
{
    worker * count / workers
}
