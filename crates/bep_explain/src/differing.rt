//! The first block at which the files of a failure's details differ. No contract speaks of it.
use crate::detail::Detail;
use bep_blocks::blocks;
use bep_record::{Block, Items, Kind, Node};
use std::alloc::{AllocError, Global};

/// The blocks of the stored file that a detail tells of; none if what is stored is no file.
pub(crate) fn stored_blocks(
    alloc: Global,
    detail: &Detail<'_>,
) -> Result<Items<Block>, AllocError> {
    match detail.node {
        Some(node) => blocks_of_node(alloc, node),
        None => Ok(Items::new(Vec::new(alloc))),
    }
}

fn blocks_of_node(alloc: Global, node: &Node) -> Result<Items<Block>, AllocError> {
    let parts = node.parts();
    match parts.kind {
        Kind::File => match blocks(alloc, parts.bytes.as_slice(), node.block_size()) {
            Ok(list) => Ok(list),
            Err(_) => Err(AllocError),
        },
        _ => Ok(Items::new(Vec::new(alloc))),
    }
}

/// The first block at which one of these files differs from the first of them that has several blocks; 0 if none does.
/// `stored` has, for each detail, the blocks of the stored file that it tells of.
pub(crate) fn first_difference(details: &[Detail<'_>], stored: &[Items<Block>]) -> usize {
    let Some(first) = first_of_several(details, stored) else {
        return 0;
    };
    let mut least = None;
    for (detail, list) in details.iter().zip(stored.iter()) {
        let place = difference(first, blocks_told(detail, list.as_slice()));
        if is_less(place, least) {
            least = place;
        }
    }
    least.unwrap_or(0)
}

/// The blocks of the file of which the detail tells: its record's, or else what is stored.
pub(crate) fn blocks_told<'s>(detail: &'s Detail<'_>, stored: &'s [Block]) -> &'s [Block] {
    match detail.record {
        Some(record) => record.entry().blocks.as_slice(),
        None => stored,
    }
}

// The first of these lists of several blocks.
fn first_of_several<'s>(
    details: &'s [Detail<'_>],
    stored: &'s [Items<Block>],
) -> Option<&'s [Block]> {
    for (detail, list) in details.iter().zip(stored.iter()) {
        let told = blocks_told(detail, list.as_slice());
        if told.len() > 1 {
            return Some(told);
        }
    }
    None
}

// The first place at which both lists have a block, and another one.
fn difference(one: &[Block], other: &[Block]) -> Option<usize> {
    for (place, (block, against)) in one.iter().zip(other.iter()).enumerate() {
        if block.hash != against.hash {
            return Some(place);
        }
    }
    None
}

fn is_less(place: Option<usize>, least: Option<usize>) -> bool {
    match (place, least) {
        (None, _) => false,
        (Some(_), None) => true,
        (Some(place), Some(least)) => place < least,
    }
}
