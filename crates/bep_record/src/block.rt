//! Blocks, and how they cut a file.
ghost use Rattle.std.specs.Prelude.{◌≡◌, ◌↔◌, ◌+◌, ◌*◌, ◌-◌, ◌<◌, ◌≤◌, ◌^◌, min, IsTrue, IfOk, IfErr, IsErrOf};
ghost use Rattle.bep_record.specs.Block.{base_block_size, block_size_of, IsBlockSize, CutWhole, cut_at, block_count};
ghost use Rattle.bep_record.specs.declared.error.RecordError.TheVariants.{FileTooLarge};

use crate::RecordError;
use crate::limits::{BASE_BLOCK_SIZE, BLOCK_SIZES, BLOCKS_AIMED_AT, MAX_BLOCK_SIZE, MAX_FILE_SIZE};
use std::marker::Model;

/// One block of a file: where its bytes are, and their SHA-256.
///
/// BEP v1, 'BlockInfo'.
#[derive(Clone, Copy, Debug, PartialEq, Eq)]
pub struct Block {
    /// The place of the block's first byte in the file.
    pub offset: u64,
    /// The number of the block's bytes.
    pub size: u32,
    /// The SHA-256 of those bytes (FIPS 180-4).
    pub hash: [u8; 32],
}

/// The number of bytes in each block of a file but the last: one of eight sizes.
///
/// BEP v1, 'FileInfo', field 'block_size'.
#[derive(Clone, Copy, Debug, PartialEq, Eq)]
pub struct BlockSize {
    bytes: u32,
}

impl Model for BlockSize {
    ghost use Rattle.std.specs.Prelude.{ℕ};
    ghost use Rattle.bep_record.specs.Block.{IsBlockSize};

    ghost Value = { ℕ };

    ghost view = { λ size. size.bytes };

    ghost invariant = { λ size. IsBlockSize size.bytes };

    ghost inverse = { λ bytes. record { bytes = bytes } };
}

impl BlockSize {
    /// The block size of small files, 131072 bytes.
    pub fn base() -> Self
        ensures { result ≡ base_block_size }
    {
        BlockSize {
            bytes: BASE_BLOCK_SIZE,
        }
    }

    /// The block size of a file of `len` bytes: the first of the eight of which the file has fewer than 2000, else the
    /// greatest. Refused with `FileTooLarge` above 536870912 bytes, and else never.
    ///
    /// BEP v1, 'FileInfo', field 'block_size'; the limit is this project's profile.
    pub fn of_length(len: u64) -> Result<Self, RecordError>
        ensures ok { IfOk result (λ size. size ≡ block_size_of len) }
        ensures too_large { IsErrOf result FileTooLarge ↔ (MAX_FILE_SIZE < len) }
        ensures only { IfErr result (λ e. e ≡ FileTooLarge) }
    {
        if len > MAX_FILE_SIZE {
            return Err(RecordError::FileTooLarge);
        }
        Ok(BlockSize {
            bytes: first_fitting(len),
        })
    }

    /// The size in bytes.
    pub fn bytes(self) -> u32
        ensures value { result ≡ self }
        ensures size { IsBlockSize self }
        ensures least { base_block_size ≤ self }
        ensures most { self ≤ MAX_BLOCK_SIZE }
    {
        self.bytes
    }

    /// The number of blocks of a file of `len` bytes; an empty file has one.
    pub fn block_count(self, len: u64) -> u64
        ensures { result ≡ block_count self len }
    {
        len.saturating_sub(1) / u64::from(self.bytes()) + 1
    }
}

// The first of the sizes of which a file of this length has fewer than 2000, else the greatest.
fn first_fitting(len: u64) -> u32
    ensures { result ≡ block_size_of len }
{
    for bytes in BLOCK_SIZES.iter() {
        if len < BLOCKS_AIMED_AT * u64::from(*bytes) {
            return *bytes;
        }
    }
    MAX_BLOCK_SIZE
}

/// Whether the blocks cut a file of `len` bytes whole, in order; their hashes aren't looked at.
pub fn cut_whole(blocks: &[Block], len: u64, size: BlockSize) -> bool
    ensures { IsTrue result ↔ CutWhole size len blocks.now }
{
    if blocks.len() as u64 != size.block_count(len) {
        return false;
    }
    for (place, block) in blocks.iter().enumerate() {
        if !is_cut_at(block, len, size, place as u64) {
            return false;
        }
    }
    true
}

// Whether the block begins and ends as the one at this place does.
fn is_cut_at(block: &Block, len: u64, size: BlockSize, place: u64) -> bool
    requires { place < block_count size len }
    ensures { IsTrue result ↔ ((block.now.offset, block.now.size) ≡ cut_at size len place) }
{
    let offset = place * u64::from(size.bytes());
    block.offset == offset && u64::from(block.size) == (len - offset).min(u64::from(size.bytes()))
}
