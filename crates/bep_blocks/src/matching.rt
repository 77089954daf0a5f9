//! Whether blocks match bytes.
ghost use Rattle.std.specs.Prelude.{◌≡◌, ◌↔◌, ◌<◌, ◌≤◌, ◌^◌, [], ◌∷◌, length, IsTrue};
ghost use Rattle.bep_blocks.specs.Matching.{BeginsRest, Matches, MatchesRest};
ghost use Rattle.bep_blocks.specs.Plain.{block_of};

use crate::plain::block_from;
use bep_record::Block;

/// Whether the blocks cut the bytes whole, in order, and each has the SHA-256 of its bytes.
///
/// The blocks may be of any sizes, but only a file without bytes has an empty one. Takes no memory.
pub fn matches(bytes: &[u8], blocks: &[Block]) -> bool
    ensures { IsTrue result ↔ Matches bytes.now blocks.now }
{
    match bytes {
        [] => match_nothing(blocks),
        _ => match_all(bytes, blocks),
    }
}

// Whether the blocks are those of a file without bytes.
fn match_nothing(blocks: &[Block]) -> bool
    ensures { IsTrue result ↔ (blocks.now ≡ block_of 0 [] ∷ []) }
{
    match blocks {
        [block] => is_block_from(block, 0, &[]),
        _ => false,
    }
}

// Whether the blocks, none of them empty, cut the bytes whole and have their hashes.
fn match_all(bytes: &[u8], blocks: &[Block]) -> bool
    ensures { IsTrue result ↔ MatchesRest 0 bytes.now blocks.now }
{
    let mut offset = 0;
    for block in blocks {
        if !begins_rest(block, offset, &bytes[offset..]) {
            return false;
        }
        offset += block.size as usize;
    }
    offset == bytes.len()
}

// Whether the block isn't empty, and is that of the bytes that come first in this rest of a file.
fn begins_rest(block: &Block, offset: usize, rest: &[u8]) -> bool
    ensures exact { IsTrue result ↔ BeginsRest offset rest.now block.now }
    ensures within { IsTrue result → block.now.size ≤ length rest.now }
{
    let size = block.size as usize;
    if size == 0 || size > rest.len() {
        return false;
    }
    is_block_from(block, offset, &rest[..size])
}

// Whether it is the block of these bytes at this place.
fn is_block_from(block: &Block, offset: usize, piece: &[u8]) -> bool
    requires { length piece.now < 2 ^ 32 }
    ensures { IsTrue result ↔ (block.now ≡ block_of offset piece.now) }
{
    *block == block_from(offset, piece)
}
