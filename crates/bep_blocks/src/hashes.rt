//! Block lists that are made from hashes.
ghost use Rattle.std.specs.Prelude.{◌≡◌, ◌*◌, ◌<◌, ◌≤◌, ◌^◌, ◌↔◌, map, length, IfOk, IfSome, IsSome};
ghost use Rattle.bep_record.specs.Block.{CutWhole, block_count, cut_at};

use crate::plain::bytes_of;
use bep_record::{Block, BlockSize, Items};
use std::alloc::{AllocError, Global};

/// The block list of a file of this length whose blocks, in order, have these hashes.
///
/// The blocks' places and sizes follow from the file's length and the block size. `None` if the file has another number
/// of blocks than there are hashes. A file without bytes has one block.
pub fn blocks_of_hashes(
    alloc: Global,
    hashes: &[[u8; 32]],
    len: u64,
    size: BlockSize,
) -> Result<Option<Items<Block>>, AllocError>
    ensures counted { IfOk result (λ found. IsSome found ↔ (length hashes.now ≡ block_count size len)) }
    ensures cut { IfOk result (λ found. IfSome found (λ list. CutWhole size len list)) }
    ensures hashes { IfOk result (λ found. IfSome found (λ list. map (λ b. b.hash) list ≡ hashes.now)) }
{
    if hashes.len() as u64 != size.block_count(len) {
        return Ok(None);
    }
    let file_len = len as usize;
    let block_size = bytes_of(size);
    let mut list = Vec::with_capacity(alloc, hashes.len())?;
    for (k, hash) in hashes.iter().enumerate() {
        list.push(block_with(file_len, block_size, k, *hash))?;
    }
    Ok(Some(Items::new(list)))
}

// Block k of a file of this length, with this hash.
fn block_with(len: usize, block_size: usize, k: usize, hash: [u8; 32]) -> Block
    requires small { block_size < 2 ^ 32 }
    requires within { k * block_size ≤ len }
    ensures cut { (result.offset, result.size) ≡ cut_at block_size len k }
    ensures hash { result.hash ≡ hash }
{
    let offset = k * block_size;
    Block {
        offset: offset as u64,
        size: block_size.min(len - offset) as u32,
        hash,
    }
}
