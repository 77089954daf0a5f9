//! A record that is being pulled, with the blocks of it that were received.
ghost use Rattle.std.specs.Prelude.{◌≡◌, ◌↔◌, ◌≤◌, true, false, [], length, replicate, Some, Contains, slice_get, IfOk, OnOk, OnErr, IsTrue};
ghost use Rattle.std.specs.Option.{option_copied};
ghost use Rattle.bep_record.specs.Entry.{IsWellFormed};
ghost use Rattle.bep_index.specs.declared.limits.TheConstants.{MAX_SEQUENCE};
ghost use Rattle.bep_machine.specs.Pull.{new_pull, written, IsMissingBlocks};
ghost use Rattle.bep_folder.specs.Pull.{AreOf, AreOfBlockAt, IsPull, IsReceivedAt, with_bytes};
ghost use Rattle.bep_folder.specs.PullNode.{node_of};

mod adopt;
mod asked;
mod chosen;
mod conflict;
mod finish;
mod node;
mod receive;
mod record;
mod start;
mod wanted;
mod writes;

pub use asked::is_about;
use bep_blocks::matches;
use bep_record::{Block, Duplicate, Entry, Node, Record};
use node::{copy_node, empty_node, put_bytes};
pub(crate) use record::merged;
use std::alloc::{AllocError, Global};
use std::marker::Model;
pub(crate) use writes::remove_node;

/// A record that is being pulled, with the bytes of each of its blocks that were received.
///
/// The bytes are kept in the node that the pull will write, so that a file is in memory once.
pub struct Pull {
    target: Record,
    node: Option<Node>,
    arrived: Vec<bool>,
    alloc: Global,
}

// By hand: a caller's proof then sees one call where it lets go of one, and not each field (docs/developing.md).
impl Drop for Pull {
    fn drop(self) {
        let Pull {
            target: _,
            node: _,
            arrived: _,
            alloc: _,
        } = self;
    }
}

impl Model for Pull {
    ghost use Rattle.bep_record.specs.contracts.entry.Entry as entry;
    ghost use Rattle.bep_machine.specs.Replica.{Pull};
    ghost use Rattle.bep_folder.specs.Pull.{pull_code};

    ghost Value = { Pull };

    ghost coded = { pull_code entry.the_row.coded };

    ghost use Rattle.bep_record.specs.Block.{block_size_of};
    ghost use Rattle.bep_folder.specs.PullNode.{bytes_in};
    ghost use Rattle.bep_folder.specs.Pull.{received_of, IsKept};

    ghost view = { λ pull. record { target = pull.target; received = received_of (block_size_of pull.target.size) pull.arrived.items (bytes_in pull.node) } };

    ghost invariant = { λ pull. IsKept pull.target pull.node pull.arrived.items };
}

impl Pull {
    /// The pull of this record, of which nothing was received yet, or want of memory. The caller sees to it that the
    /// record isn't invalid, and that it was one of an index.
    pub(crate) fn new(alloc: Global, target: Record) -> Result<Self, AllocError>
        requires valid { target.invalid ≡ false }
        requires within { target.sequence ≤ MAX_SEQUENCE }
        ensures { IfOk result (λ pull. pull ≡ new_pull target) }
    {
        let (node, arrived) = nothing_received(alloc, target.entry())?;
        Ok(Pull {
            target,
            node,
            arrived,
            alloc,
        })
    }

    /// The record that is being pulled.
    pub fn target(&self) -> &Record
        ensures value { result.now ≡ self.now.target }
        ensures a_pull { IsPull self.now }
    {
        &self.target
    }

    /// Whether some block wasn't received.
    pub fn is_missing_blocks(&self) -> bool
        ensures { IsTrue result ↔ IsMissingBlocks self.now }
    {
        is_any_missing(&self.arrived)
    }

    /// Whether the block at this place, from 0, was received.
    pub fn is_received(&self, place: usize) -> bool
        ensures { IsTrue result ↔ IsReceivedAt self.now.received place }
    {
        is_set(&self.arrived, place)
    }

    /// Whether there is a block at this place, from 0, and these are its bytes: as many, and with its SHA-256.
    pub(crate) fn is_block(&self, place: usize, bytes: &[u8]) -> bool
        ensures same { IsTrue result ↔ AreOfBlockAt self.now.target.blocks place bytes.now }
        ensures a_pull { IsPull self.now }
    {
        match self.target().entry().blocks.as_slice().get(place) {
            Some(block) => are_of(block, bytes),
            None => false,
        }
    }

    /// Receives the block at this place. If memory is wanting, it answers so and stays as before. A block that was
    /// received stays as it is. The caller sees to it that the bytes are the block's, as `is_block` tells.
    pub(crate) fn add(&mut self, place: usize, bytes: &[u8]) -> Result<(), AllocError>
        requires { AreOfBlockAt self.old.target.blocks place bytes.now }
        ensures ok { OnOk result (self.new ≡ with_bytes self.old place bytes.now) }
        ensures err { OnErr result (self.new ≡ self.old) }
    {
        if is_set(&self.arrived, place) {
            return Ok(());
        }
        let size = self.target.entry().size as usize;
        let offset = place * self.target.block_size().bytes() as usize;
        put_bytes(&mut self.node, self.alloc, size, offset, bytes)?;
        self.arrived[place] = true;
        Ok(())
    }

    /// The node that the record tells of, once no block is missing; a deletion has none.
    pub fn node(&self) -> Option<&Node>
        ensures { (¬ IsMissingBlocks self.now) → option_copied result ≡ written self.now }
    {
        self.node.as_ref()
    }

    /// An equal pull of its own, or want of memory.
    pub fn copy(&self, alloc: Global) -> Result<Self, AllocError>
        ensures { IfOk result (λ pull. pull ≡ self.now) }
    {
        let (node, arrived) = copy_received(alloc, self.node.as_ref(), self.arrived.as_slice())?;
        Ok(Pull {
            target: self.target.copy(alloc)?,
            node,
            arrived,
            alloc,
        })
    }
}

impl Duplicate for Pull {
    fn duplicate(&self, alloc: Global) -> Result<Self, AllocError> {
        self.copy(alloc)
    }
}

// The node of the record without bytes, and a flag for each of its blocks: none was received.
fn nothing_received(alloc: Global, target: &Entry) -> Result<(Option<Node>, Vec<bool>), AllocError>
    requires { IsWellFormed target.now }
    ensures node { IfOk result (λ made. made.0 ≡ node_of target.now []) }
    ensures flags { IfOk result (λ made. made.1.items ≡ replicate (length target.now.blocks) false) }
{
    let arrived = vec![in alloc; false; target.blocks.as_slice().len()]?;
    let node = empty_node(alloc, target)?;
    Ok((node, arrived))
}

// A copy of the node, if there is one, and of which blocks were received.
fn copy_received(
    alloc: Global,
    node: Option<&Node>,
    arrived: &[bool],
) -> Result<(Option<Node>, Vec<bool>), AllocError>
    ensures node { IfOk result (λ made. made.0 ≡ option_copied node.entry) }
    ensures flags { IfOk result (λ made. made.1.items ≡ arrived.now) }
{
    let arrived = Vec::from_slice(alloc, arrived)?;
    let node = copy_node(alloc, node)?;
    Ok((node, arrived))
}

// Whether a block's flag isn't set.
fn is_any_missing(flags: &[bool]) -> bool
    ensures { IsTrue result ↔ Contains flags.now false }
{
    flags.contains(&false)
}

// Whether there is a block at the place, and its flag is set.
fn is_set(flags: &[bool], place: usize) -> bool
    ensures { IsTrue result ↔ (slice_get flags.now place ≡ Some true) }
{
    match flags.get(place) {
        Some(flag) => *flag,
        None => false,
    }
}

// Whether the bytes are the block's. (The block's place in its file doesn't matter here.)
fn are_of(block: &Block, bytes: &[u8]) -> bool
    ensures { IsTrue result ↔ AreOf block.now bytes.now }
{
    matches(
        bytes,
        &[Block {
            offset: 0,
            size: block.size,
            hash: block.hash,
        }],
    )
}
