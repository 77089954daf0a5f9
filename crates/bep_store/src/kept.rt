//! The hashes that a store in memory keeps of ranges of its files.
ghost use Rattle.std.specs.Prelude.{◌≡◌, Option, IfSome, IfOk};
ghost use Rattle.std.specs.List.{All};
ghost use Rattle.std.specs.FinMap as map;
ghost use Rattle.bep_map.specs.NameMap.{ByName};
ghost use Rattle.bep_record.specs.declared.node.NodeParts.{NodeParts};
ghost use Rattle.bep_blocks.specs.Plain.{hash_of};
ghost use Rattle.bep_store.specs.Range.{HasRangeHash};
ghost use Rattle.bep_store.specs.Kept.{AreRanges, IsRange};

use bep_blocks::{blocks, plain_blocks_match};
use bep_map::NameMap;
use bep_record::{Block, BlockSize, Items, MAX_FILE_SIZE, Name};
use std::alloc::{AllocError, Global};

/// The hash that is kept of this range of the name's file, if there is one.
pub(crate) fn kept_hash(
    kept: &NameMap<Items<Block>>,
    name: &Name,
    offset: u64,
    size: u32,
) -> Option<[u8; 32]>
    ensures { IfSome result (λ hash. (nodes : ByName NodeParts) → AreRanges nodes kept.now → HasRangeHash (map.get nodes name.now) offset size hash) }
{
    found(kept.get(name)?.as_slice(), offset, size)
}

// The hash of the block that is this range, if it is among them.
fn found(blocks: &[Block], offset: u64, size: u32) -> Option<[u8; 32]>
    ensures { IfSome result (λ hash. (node : Option NodeParts) → All (IsRange node) blocks.now → HasRangeHash node offset size hash) }
{
    for block in blocks {
        if block.offset == offset && block.size == size {
            return Some(block.hash);
        }
    }
    None
}

/// Keeps the hash of one more range of the name's file. Where `most` are kept already, these are let go of. Without memory
/// fewer are kept.
pub(crate) fn keep(
    alloc: Global,
    kept: &mut NameMap<Items<Block>>,
    name: &Name,
    most: u64,
    block: Block,
) -> Result<(), AllocError>
    ensures { (nodes : ByName NodeParts) → IsRange (map.get nodes name.now) block → AreRanges nodes kept.old → AreRanges nodes kept.new }
{
    let key = name.copy(alloc)?;
    let blocks = with_block(alloc, kept.remove(name), most, block)?;
    kept.insert(key, blocks)?;
    Ok(())
}

// The blocks with one more; without the others, where they are `most` already.
fn with_block(
    alloc: Global,
    had: Option<Items<Block>>,
    most: u64,
    block: Block,
) -> Result<Items<Block>, AllocError>
    ensures { IfOk result (λ blocks. (node : Option NodeParts) → IfSome had (All (IsRange node)) → IsRange node block → All (IsRange node) blocks) }
{
    let mut blocks = match had {
        Some(had) => had.into_vec(),
        None => Vec::new(alloc),
    };
    if blocks.len() as u64 >= most {
        blocks.clear();
    }
    blocks.push(block)?;
    Ok(Items::new(blocks))
}

/// The SHA-256 of these bytes; none for want of memory, or where they are more than the greatest block of a file has.
pub(crate) fn hash_of(alloc: Global, bytes: &[u8]) -> Option<[u8; 32]>
    ensures { IfSome result (λ hash. hash_of bytes.now ≡ hash) }
{
    let size = BlockSize::of_length(MAX_FILE_SIZE).ok()?;
    if bytes.len() > size.bytes() as usize {
        return None;
    }
    let list = blocks(alloc, bytes, size).ok()?;
    // called for its clause `matching`
    plain_blocks_match();
    match list.as_slice() {
        [block] => Some(block.hash),
        _ => None,
    }
}
