//! The block list of bytes, made piece by piece.
ghost use Rattle.std.specs.Prelude.{◌≡◌, ◌≢◌, ◌*◌, ◌-◌, ◌+◌, ◌<◌, ◌≤◌, ◌↔◌, ◌^◌, length, IfOk, IfErr, IsErrOf};
ghost use Rattle.bep_record.specs.Block.{block_count};
ghost use Rattle.bep_blocks.specs.Plain.{block_of, blocks_from, hash_of, piece_at, plain_block, plain_blocks};

use crate::error::BlocksError;
use bep_record::{Block, BlockSize, Items, MAX_FILE_SIZE};
use sha2::{Digest, Sha256};
use std::alloc::{AllocError, AllocFailed, Global};

/// The block list of a file with these bytes, cut from the front into blocks of this size.
///
/// BEP v1, 'BlockInfo'. The last block may be shorter; a file without bytes has one block, of size 0. It is the block list
/// that records have of the file if the size is that of the file's length (`BlockSize::of_length`). Refused with
/// `FileTooLarge` where there are more than 536870912 bytes, and else only for want of memory.
pub fn blocks(alloc: Global, bytes: &[u8], size: BlockSize) -> Result<Items<Block>, BlocksError>
    ensures plain { IfOk result (λ list. list ≡ plain_blocks size bytes.now) }
    ensures too_large { IsErrOf result BlocksError.FileTooLarge ↔ (MAX_FILE_SIZE < length bytes.now) }
    ensures or_memory { IfErr result (λ e. e ≢ BlocksError.FileTooLarge → e ≡ BlocksError.Memory) }
{
    if bytes.len() as u64 > MAX_FILE_SIZE {
        return Err(BlocksError::FileTooLarge);
    }
    Ok(Items::new(cut(alloc, bytes, size)?))
}

/// How many bytes each block but the last has, at least one.
pub(crate) fn bytes_of(size: BlockSize) -> usize
    ensures value { result ≡ size }
    ensures positive { 0 < result }
    ensures small { result < 2 ^ 32 }
{
    size.bytes() as usize
}

// The plain block list of the bytes.
fn cut(alloc: Global, bytes: &[u8], size: BlockSize) -> Result<Vec<Block>, AllocError>
    ensures { IfOk result (λ list. list.items ≡ plain_blocks size bytes.now) }
{
    let block_size = bytes_of(size);
    let count = size.block_count(bytes.len() as u64) as usize;
    cut_run(alloc, bytes, block_size, 0, count)
}

/// The blocks of pieces `first` to `next`, without the last.
pub(crate) fn cut_run(
    alloc: Global,
    bytes: &[u8],
    block_size: usize,
    first: usize,
    next: usize,
) -> Result<Vec<Block>, AllocError>
    requires small { block_size < 2 ^ 32 }
    requires order { first ≤ next }
    requires within { next ≤ block_count block_size (length bytes.now) }
    ensures { IfOk result (λ list. list.items ≡ blocks_from block_size bytes.now first (next - first)) }
{
    let mut list = Vec::with_capacity(alloc, next - first)?;
    for k in first..next {
        list.push(block_at(bytes, block_size, k))?;
    }
    Ok(list)
}

// The block of piece k of the bytes.
fn block_at(bytes: &[u8], block_size: usize, k: usize) -> Block
    requires small { block_size < 2 ^ 32 }
    requires within { k * block_size ≤ length bytes.now }
    ensures { result ≡ plain_block block_size bytes.now k }
{
    let offset = k * block_size;
    let size = block_size.min(bytes.len() - offset);
    block_from(offset, &bytes[offset..offset + size])
}

/// The block of these bytes, which begin at this place in their file.
pub(crate) fn block_from(offset: usize, piece: &[u8]) -> Block
    requires { length piece.now < 2 ^ 32 }
    ensures { result ≡ block_of offset piece.now }
{
    Block {
        offset: offset as u64,
        size: piece.len() as u32,
        hash: digest(piece),
    }
}

// The SHA-256 of the bytes.
fn digest(bytes: &[u8]) -> [u8; 32]
    ensures { result ≡ hash_of bytes.now }
{
    Sha256::digest(bytes)
}
