//! The node that a pull will write: it has no bytes at first, and then those that were received.
ghost use Rattle.std.specs.Prelude.{◌≡◌, ◌+◌, ◌≤◌, [], length, replicate, IfOk, IfSome, OnOk, OnErr};
ghost use Rattle.std.specs.Option.{option_copied};
ghost use lib.Seq.{paste};
ghost use Rattle.bep_record.specs.declared.kind.Kind.TheVariants.{File};
ghost use Rattle.bep_record.specs.declared.limits.TheConstants.{MAX_FILE_SIZE};
ghost use Rattle.bep_record.specs.Entry.{IsWellFormed};
ghost use Rattle.bep_record.specs.Node.{IsNode};
ghost use Rattle.bep_folder.specs.PullNode.{node_of, bytes_in, with_file, sized};

use bep_record::{Entry, Items, Node, NodeParts};
use std::alloc::{AllocError, Global};

/// The node of the record, without bytes; a deletion has none.
pub(crate) fn empty_node(alloc: Global, target: &Entry) -> Result<Option<Node>, AllocError>
    requires { IsWellFormed target.now }
    ensures { IfOk result (λ node. node ≡ node_of target.now []) }
{
    if target.deleted {
        return Ok(None);
    }
    Ok(Some(node_of_parts(NodeParts {
        kind: target.kind,
        bytes: Items::new(Vec::new(alloc)),
        target: target.target.copy(alloc)?,
        modified_s: target.modified_s,
        modified_ns: target.modified_ns,
    })))
}

/// Puts the bytes at this place into the file, which is given its size before the first of them.
pub(crate) fn put_bytes(
    node: &mut Option<Node>,
    alloc: Global,
    size: usize,
    offset: usize,
    piece: &[u8],
) -> Result<(), AllocError>
    requires a_file { IfSome node.old (λ held. held.kind ≡ File) }
    requires small { size ≤ MAX_FILE_SIZE }
    requires within { offset + length piece.now ≤ size }
    ensures ok { OnOk result (node.new ≡ with_file node.old (paste (sized size (bytes_in node.old)) offset piece.now (length piece.now))) }
    ensures err { OnErr result (node.new ≡ node.old) }
{
    make_room(node, alloc, size)?;
    *node = match node.take() {
        Some(held) => Some(with_piece(held, offset, piece)),
        None => None,
    };
    Ok(())
}

// Gives the file as many bytes as it is to have.
fn make_room(node: &mut Option<Node>, alloc: Global, size: usize) -> Result<(), AllocError>
    requires a_file { IfSome node.old (λ held. held.kind ≡ File) }
    requires small { size ≤ MAX_FILE_SIZE }
    ensures ok { OnOk result (node.new ≡ with_file node.old (sized size (bytes_in node.old))) }
    ensures err { OnErr result (node.new ≡ node.old) }
{
    if count_bytes(node.as_ref()) == size {
        return Ok(());
    }
    let zeros = vec![in alloc; 0; size]?;
    *node = match node.take() {
        Some(held) => Some(with_bytes(held, zeros)),
        None => None,
    };
    Ok(())
}

fn count_bytes(node: Option<&Node>) -> usize
    ensures { result ≡ length (bytes_in (option_copied node.entry)) }
{
    match node {
        Some(held) => held.parts().bytes.as_slice().len(),
        None => 0,
    }
}

// The file with these bytes.
fn with_bytes(node: Node, bytes: Vec<u8>) -> Node
    requires a_file { node.kind ≡ File }
    requires small { length bytes.items ≤ MAX_FILE_SIZE }
    ensures { result ≡ record node { bytes = bytes.items } }
{
    let mut parts = node.into_parts();
    parts.bytes = Items::new(bytes);
    node_of_parts(parts)
}

// The file with the bytes at this place.
fn with_piece(node: Node, offset: usize, piece: &[u8]) -> Node
    requires a_file { node.kind ≡ File }
    requires within { offset + length piece.now ≤ length node.bytes }
    ensures { result ≡ record node { bytes = paste node.bytes offset piece.now (length piece.now) } }
{
    let NodeParts {
        kind,
        bytes,
        target,
        modified_s,
        modified_ns,
    } = node.into_parts();
    let mut bytes = bytes.into_vec();
    bytes[offset..offset + piece.len()].copy_from_slice(piece);
    node_of_parts(NodeParts {
        kind,
        bytes: Items::new(bytes),
        target,
        modified_s,
        modified_ns,
    })
}

fn node_of_parts(parts: NodeParts) -> Node
    requires { IsNode parts }
    ensures { result ≡ parts }
{
    match Node::read(parts) {
        Ok(node) => node,
        Err(_) => unreachable!(),
    }
}

/// A copy of the node, if there is one, or want of memory.
pub(crate) fn copy_node(alloc: Global, node: Option<&Node>) -> Result<Option<Node>, AllocError>
    ensures { IfOk result (λ made. made ≡ option_copied node.entry) }
{
    match node {
        Some(node) => Ok(Some(node.copy(alloc)?)),
        None => Ok(None),
    }
}
