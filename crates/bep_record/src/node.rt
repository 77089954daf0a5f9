//! What a store holds at a name.
ghost use Rattle.std.specs.Prelude.{◌≡◌, ◌<◌, ◌≤◌, ◌↔◌, [], length, IsTrue, IsOk, IsErrOf, IfOk};
ghost use Rattle.bep_record.specs.Block.{block_size_of};
ghost use Rattle.bep_record.specs.Node.{FitsKind, IsNode};

use crate::limits::{MAX_FILE_SIZE, MAX_NANOSECONDS};
use crate::{BlockSize, Items, Kind, RecordError, Target};
use std::alloc::{AllocError, Global};
use std::marker::Model;

/// The parts of a node, which may fit together or not.
#[derive(Debug, Drop)]
pub struct NodeParts {
    /// What it is.
    pub kind: Kind,
    /// A file's bytes; empty for all else.
    pub bytes: Items<u8>,
    /// Where a symlink leads; empty for all else.
    pub target: Target,
    /// The time of the last change, in whole seconds since 1970.
    pub modified_s: i64,
    /// The nanoseconds of that time, below 1000000000.
    pub modified_ns: u32,
}

impl NodeParts {
    /// Equal parts of their own, or want of memory.
    pub fn copy(&self, alloc: Global) -> Result<Self, AllocError>
        ensures { IfOk result (λ parts. parts ≡ self.now) }
    {
        Ok(NodeParts {
            kind: self.kind,
            bytes: self.bytes.copy(alloc)?,
            target: self.target.copy(alloc)?,
            modified_s: self.modified_s,
            modified_ns: self.modified_ns,
        })
    }

    /// Whether the parts make a node.
    pub fn is_node(&self) -> bool
        ensures { IsTrue result ↔ IsNode self.now }
    {
        self.bytes.as_slice().len() as u64 <= MAX_FILE_SIZE
            && self.modified_ns <= MAX_NANOSECONDS
            && self.fits_kind()
    }

    // Whether only a file has bytes, and only a symlink a target.
    fn fits_kind(&self) -> bool
        ensures { IsTrue result ↔ FitsKind self.now.kind self.now }
    {
        let no_bytes = self.bytes.as_slice().is_empty();
        let no_target = self.target.as_bytes().is_empty();
        match self.kind {
            Kind::File => no_target,
            Kind::Directory => no_bytes && no_target,
            Kind::Symlink => no_bytes && !no_target,
        }
    }
}

/// What a store holds at a name: a file with its bytes, a directory, or a symlink with its target.
#[derive(Debug)]
pub struct Node {
    parts: NodeParts,
}

// By hand: a caller's proof then sees one call where it lets go of one, and not each field (docs/developing.md).
impl Drop for Node {
    fn drop(self) {
        let Node { parts: _ } = self;
    }
}

impl Model for Node {
    ghost use Rattle.bep_record.specs.declared.node.NodeParts.{NodeParts};
    ghost use Rattle.bep_record.specs.Node.{IsNode};

    ghost Value = { NodeParts };

    ghost view = { λ n. n.parts };

    ghost invariant = { λ n. IsNode n.parts };
}

impl Node {
    /// The node of these parts. `FileTooLarge` above 536870912 bytes; else `NodeBad` where there are bytes
    /// outside a file, a symlink without a target or a target outside a symlink, or 1000000000 nanoseconds or more. This
    /// project's profile.
    pub fn read(parts: NodeParts) -> Result<Self, RecordError>
        ensures is_node { IsOk result ↔ IsNode parts }
        ensures ok { IfOk result (λ node. node ≡ parts) }
        ensures too_large { IsErrOf result RecordError.FileTooLarge ↔ (MAX_FILE_SIZE < length parts.bytes) }
        ensures bad { IsErrOf result RecordError.NodeBad ↔ ((length parts.bytes ≤ MAX_FILE_SIZE) × ¬ IsNode parts) }
    {
        if parts.bytes.as_slice().len() as u64 > MAX_FILE_SIZE {
            return Err(RecordError::FileTooLarge);
        }
        if !parts.is_node() {
            return Err(RecordError::NodeBad);
        }
        Ok(Node { parts })
    }

    /// The parts.
    pub fn parts(&self) -> &NodeParts
        ensures value { result.now ≡ self.now }
        ensures is_node { IsNode self.now }
    {
        &self.parts
    }

    /// The parts, for a node made of them.
    pub fn into_parts(self) -> NodeParts
        ensures value { result ≡ self }
        ensures is_node { IsNode self }
    {
        let Node { parts } = self;
        parts
    }

    /// The block size of the node's file; of all else, which has no bytes, that of an empty file.
    pub fn block_size(&self) -> BlockSize
        ensures { result ≡ block_size_of (length self.now.bytes) }
    {
        match BlockSize::of_length(self.parts.bytes.as_slice().len() as u64) {
            Ok(size) => size,
            Err(_) => unreachable!(),
        }
    }

    /// An equal node of its own, or want of memory.
    pub fn copy(&self, alloc: Global) -> Result<Self, AllocError>
        ensures { IfOk result (λ node. node ≡ self.now) }
    {
        Ok(Node {
            parts: self.parts.copy(alloc)?,
        })
    }
}
