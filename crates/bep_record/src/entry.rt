//! The fields of a record, and whether they are well formed.
ghost use Rattle.std.specs.Prelude.{◌≡◌, ◌↔◌, ◌≤◌, [], ◌∷◌, map, IsTrue, IfOk};
ghost use Rattle.bep_record.specs.Block.{block_size_of};
ghost use Rattle.bep_record.specs.declared.limits.TheConstants.{MAX_FILE_SIZE};
ghost use Rattle.bep_record.specs.Entry.{HasNoBlocks, HasBlocks, HasBody, IsWellFormed};

use crate::limits::{HASH_OF_NOTHING, MAX_NANOSECONDS};
use crate::{Block, BlockSize, DeviceId, Items, Kind, Name, Target, Version, cut_whole};
use std::alloc::{AllocError, Global};

/// The fields of a record, well formed or not.
///
/// BEP v1, 'FileInfo'.
#[derive(Debug)]
pub struct Entry {
    /// What the record is about.
    pub name: Name,
    /// What stands there, or stood there before it was deleted.
    pub kind: Kind,
    /// The file's length in bytes.
    pub size: u64,
    /// The time of the last change, in whole seconds since 1970.
    pub modified_s: i64,
    /// The nanoseconds of that time, below 1000000000.
    pub modified_ns: u32,
    /// The device that made the change.
    pub modified_by: DeviceId,
    /// Nothing is there any more.
    pub deleted: bool,
    /// Others must not take the record: a local change of a receive-only folder has this mark.
    pub invalid: bool,
    /// Permissions aren't recorded; always set.
    pub no_permissions: bool,
    /// The changes that the record knows.
    pub version: Version,
    /// The record's number in its index, which orders an index's changes.
    pub sequence: u64,
    /// The bytes in each block but the last; 0 without blocks.
    pub block_size: u32,
    /// The blocks of a file, from its front.
    pub blocks: Items<Block>,
    /// Where a symlink leads; empty for all else.
    pub target: Target,
}

// By hand: a caller's proof then sees one call where it lets go of one, and not each field (docs/developing.md).
impl Drop for Entry {
    fn drop(self) {
        let Entry {
            name: _,
            kind: _,
            size: _,
            modified_s: _,
            modified_ns: _,
            modified_by: _,
            deleted: _,
            invalid: _,
            no_permissions: _,
            version: _,
            sequence: _,
            block_size: _,
            blocks: _,
            target: _,
        } = self;
    }
}

impl Entry {
    /// An equal entry of its own, or want of memory.
    pub fn copy(&self, alloc: Global) -> Result<Self, AllocError>
        ensures { IfOk result (λ entry. entry ≡ self.now) }
    {
        Ok(Entry {
            name: self.name.copy(alloc)?,
            kind: self.kind,
            size: self.size,
            modified_s: self.modified_s,
            modified_ns: self.modified_ns,
            modified_by: self.modified_by,
            deleted: self.deleted,
            invalid: self.invalid,
            no_permissions: self.no_permissions,
            version: self.version.copy(alloc)?,
            sequence: self.sequence,
            block_size: self.block_size,
            blocks: self.blocks.copy(alloc)?,
            target: self.target.copy(alloc)?,
        })
    }

    /// Whether the fields are well formed together.
    pub fn is_well_formed(&self) -> bool
        ensures { IsTrue result ↔ IsWellFormed self.now }
    {
        self.modified_ns <= MAX_NANOSECONDS && self.no_permissions && self.has_body()
    }

    fn has_body(&self) -> bool
        ensures { IsTrue result ↔ HasBody self.now.deleted self.now.kind self.now }
    {
        if self.deleted {
            return self.has_no_blocks() && self.target.as_bytes().is_empty();
        }
        match self.kind {
            Kind::File => self.has_blocks() && self.target.as_bytes().is_empty(),
            Kind::Directory => self.has_no_blocks() && self.target.as_bytes().is_empty(),
            Kind::Symlink => self.has_no_blocks() && !self.target.as_bytes().is_empty(),
        }
    }

    fn has_no_blocks(&self) -> bool
        ensures { IsTrue result ↔ HasNoBlocks self.now }
    {
        self.size == 0 && self.block_size == 0 && self.blocks.as_slice().is_empty()
    }

    fn has_blocks(&self) -> bool
        ensures { IsTrue result ↔ HasBlocks self.now }
    {
        match BlockSize::of_length(self.size) {
            Ok(size) => self.has_blocks_of(size),
            Err(_) => false,
        }
    }

    // Whether the blocks have this size, which is that of the file's length, and are those of a file of this length.
    fn has_blocks_of(&self, size: BlockSize) -> bool
        requires within { self.now.size ≤ MAX_FILE_SIZE }
        requires size { size ≡ block_size_of self.now.size }
        ensures { IsTrue result ↔ HasBlocks self.now }
    {
        let blocks = self.blocks.as_slice();
        self.block_size == size.bytes()
            && cut_whole(blocks, self.size, size)
            && (self.size != 0 || is_empty_block(blocks))
    }
}

// Whether there is one block, with the hash of nothing.
fn is_empty_block(blocks: &[Block]) -> bool
    ensures { IsTrue result ↔ (map (λ b. b.hash) blocks.now ≡ HASH_OF_NOTHING ∷ []) }
{
    match blocks {
        [only] => only.hash == HASH_OF_NOTHING,
        _ => false,
    }
}
