//! Ranges of files.
ghost use Rattle.std.specs.Prelude.{◌≡◌, ◌^◌, ◌<◌, ◌+◌, ◌≤◌, length, take, drop, IfNone, IfSome};
ghost use Rattle.bep_store.specs.Range.{HasRange, range_of};

use bep_record::{Kind, Node};

/// So many of the node's bytes from this offset on, lent; none where the node isn't a file or ends before the range does.
pub fn range_of(node: &Node, offset: u64, size: u32) -> Option<&[u8]>
    ensures some { IfSome result (λ range. HasRange node.now offset size × (range.now ≡ range_of node.now offset size) × (length range.now < 2 ^ 32)) }
    ensures none { IfNone result (¬ HasRange node.now offset size) }
{
    let parts = node.parts();
    match parts.kind {
        Kind::File => within(parts.bytes.as_slice(), offset, size),
        Kind::Directory | Kind::Symlink => None,
    }
}

// So many of the bytes from this offset on, if there are so many.
fn within(bytes: &[u8], offset: u64, size: u32) -> Option<&[u8]>
    ensures some { IfSome result (λ range. (offset + size ≤ length bytes.now) × (range.now ≡ take size (drop offset bytes.now)) × (length range.now < 2 ^ 32)) }
    ensures none { IfNone result (length bytes.now < offset + size) }
{
    let len = bytes.len() as u64;
    if offset > len || u64::from(size) > len - offset {
        return None;
    }
    let start = offset as usize;
    Some(&bytes[start..start + size as usize])
}
