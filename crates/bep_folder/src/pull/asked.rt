//! Which block of a file a request is about.
ghost use Rattle.std.specs.Prelude.{◌≡◌, ◌↔◌, IfSome, IfNone, IsTrue};
ghost use Rattle.bep_machine.specs.Exchange.{is_about, same_bytes};
ghost use Rattle.bep_folder.specs.Received.{IsAbout, IsAboutNone};

use bep_machine::Request;
use bep_record::{Block, Record};

/// The place, from 0, of the block of the record that the request is about. There is at most one, since each block begins
/// at another offset.
pub(crate) fn place_asked(target: &Record, request: &Request) -> Option<usize>
    ensures some { IfSome result (λ place. IsAbout request.now target.now.blocks place) }
    ensures none { IfNone result (IsAboutNone request.now target.now.blocks) }
{
    let place = (request.offset / u64::from(target.block_size().bytes())) as usize;
    if !is_about_block_at(request, target.entry().blocks.as_slice(), place) {
        return None;
    }
    Some(place)
}

// Whether there is a block at the place, and the request is about it.
fn is_about_block_at(request: &Request, blocks: &[Block], place: usize) -> bool
    ensures { IsTrue result ↔ IsAbout request.now blocks.now place }
{
    match blocks.get(place) {
        Some(block) => is_about(request, block),
        None => false,
    }
}

/// Whether the request is about this block of its file.
pub fn is_about(request: &Request, block: &Block) -> bool
    ensures { result ≡ is_about request.now block.now }
{
    request.offset == block.offset
        && request.size == block.size
        && same_bytes(&request.hash, &block.hash)
}

fn same_bytes(one: &[u8], other: &[u8]) -> bool
    ensures { result ≡ same_bytes one.now other.now }
{
    one.cmp(other).is_eq()
}
