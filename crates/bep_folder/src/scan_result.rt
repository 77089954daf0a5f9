//! What a scan found at a name, with its blocks.
ghost use Rattle.std.specs.Prelude.{◌≡◌, ◌≢◌, ◌↔◌, IfOk, IfErr, IsErrOf};
ghost use Rattle.std.specs.Option.{option_copied};
ghost use Rattle.bep_blocks.specs.Plain.{file_blocks};
ghost use Rattle.bep_blocks.specs.Workers.{IsWorkerCount};
ghost use Rattle.bep_folder.specs.ScanResult.{blocks_found};
ghost use Rattle.bep_folder.specs.declared.error.FolderError.TheVariants.{Memory};

use crate::FolderError;
use bep_blocks::{BlocksError, Gate, blocks, blocks_by, is_worker_count};
use bep_record::{Block, Items, Kind, Name, Node};
use std::alloc::Global;
use std::marker::Model;
use std::thread::Threads;

/// What a scan found at a name: the node, if there was one, with the block list of its bytes.
///
/// The type keeps that the blocks are the node's, so that a file is hashed once, before its folder is touched.
#[derive(Debug)]
pub struct ScanResult {
    name: Name,
    node: Option<Node>,
    blocks: Items<Block>,
}

// By hand: a caller's proof then sees one call where it lets go of one, and not each field (docs/developing.md).
impl Drop for ScanResult {
    fn drop(self) {
        let ScanResult {
            name: _,
            node: _,
            blocks: _,
        } = self;
    }
}

impl Model for ScanResult {
    ghost use Rattle.std.specs.Prelude.{◌≡◌};
    ghost use Rattle.bep_folder.specs.ScanResult.{Scanned, blocks_found};

    ghost Value = { Scanned };

    ghost view = { λ scan. record { name = scan.name; node = scan.node } };

    ghost invariant = { λ scan. scan.blocks ≡ blocks_found scan.node };
}

impl ScanResult {
    /// What was found, hashed block by block in this thread; or want of memory.
    pub fn plain(alloc: Global, name: Name, node: Option<Node>) -> Result<Self, FolderError>
        ensures found { IfOk result (λ scan. scan ≡ record { name = name; node = node }) }
        ensures memory { IfErr result (λ e. e ≡ Memory) }
    {
        let blocks = blocks_of(alloc, node.as_ref())?;
        Ok(ScanResult { name, node, blocks })
    }

    /// What was found, its bytes hashed by this many workers, as `blocks_by` does, in threads of their own where these can
    /// be made. Its refusals are that call's: `WorkersBad` where there are no workers or more than 8, whatever was found, and
    /// else only want of memory. All workers have ended when the call answers.
    pub fn hash<R: Threads + Sync, G: Gate + Sync>(
        rt: &R,
        alloc: Global,
        gate: &G,
        name: Name,
        node: Option<Node>,
        workers: u32,
    ) -> Result<Self, BlocksError>
        ensures found { IfOk result (λ scan. scan ≡ record { name = name; node = node }) }
        ensures workers_bad { IsErrOf result BlocksError.WorkersBad ↔ (¬ IsWorkerCount workers) }
        ensures or_memory { IfErr result (λ e. e ≢ BlocksError.WorkersBad → e ≡ BlocksError.Memory) }
    {
        if !is_worker_count(workers) {
            return Err(BlocksError::WorkersBad);
        }
        let blocks = hashed(rt, alloc, gate, node.as_ref(), workers)?;
        Ok(ScanResult { name, node, blocks })
    }

    /// The name.
    pub fn name(&self) -> &Name
        ensures { result.now ≡ self.now.name }
    {
        &self.name
    }

    /// The node that was found there.
    pub fn node(&self) -> Option<&Node>
        ensures { option_copied result ≡ self.now.node }
    {
        self.node.as_ref()
    }

    /// The blocks of a file; none for all else.
    pub fn blocks(&self) -> &[Block]
        ensures { result.now ≡ blocks_found self.now.node }
    {
        self.blocks.as_slice()
    }

    // The parts, for a record made of them.
    pub(crate) fn into_parts(self) -> (Name, Option<Node>, Items<Block>)
        ensures { result ≡ (self.name, self.node, blocks_found self.node) }
    {
        let ScanResult { name, node, blocks } = self;
        (name, node, blocks)
    }
}

// The blocks of what was found.
fn blocks_of(alloc: Global, node: Option<&Node>) -> Result<Items<Block>, FolderError>
    ensures blocks { IfOk result (λ list. list ≡ blocks_found (option_copied node.entry)) }
    ensures memory { IfErr result (λ e. e ≡ Memory) }
{
    let Some(node) = node else {
        return Ok(Items::new(Vec::new(alloc)));
    };
    match node.parts().kind {
        Kind::File => file_blocks(alloc, node),
        Kind::Directory | Kind::Symlink => Ok(Items::new(Vec::new(alloc))),
    }
}

// The blocks of what was found, by so many workers.
fn hashed<R: Threads + Sync, G: Gate + Sync>(
    rt: &R,
    alloc: Global,
    gate: &G,
    node: Option<&Node>,
    workers: u32,
) -> Result<Items<Block>, BlocksError>
    requires { IsWorkerCount workers }
    ensures blocks { IfOk result (λ list. list ≡ blocks_found (option_copied node.entry)) }
    ensures memory { IfErr result (λ e. e ≡ BlocksError.Memory) }
{
    let Some(node) = node else {
        return Ok(Items::new(Vec::new(alloc)));
    };
    match node.parts().kind {
        Kind::File => {
            let bytes = node.parts().bytes.as_slice();
            blocks_by(rt, alloc, gate, bytes, node.block_size(), workers)
        }
        Kind::Directory | Kind::Symlink => Ok(Items::new(Vec::new(alloc))),
    }
}

// The block list of the node's bytes.
fn file_blocks(alloc: Global, node: &Node) -> Result<Items<Block>, FolderError>
    ensures blocks { IfOk result (λ list. list ≡ file_blocks node.now.bytes) }
    ensures memory { IfErr result (λ e. e ≡ Memory) }
{
    match blocks(alloc, node.parts().bytes.as_slice(), node.block_size()) {
        Ok(list) => Ok(list),
        Err(BlocksError::Memory) => Err(FolderError::Memory),
        Err(BlocksError::FileTooLarge | BlocksError::WorkersBad) => unreachable!(),
    }
}
