//! A store in memory.
ghost use Rattle.std.specs.Prelude.{◌≡◌, ◌≤◌, [], IfOk, OnOk, OnErr};
ghost use Rattle.std.specs.Option.{option_copied};
ghost use Rattle.std.specs.FinMap as map;
ghost use Rattle.bep_store.specs.Store.{at_time, with_time};

use crate::kept::{hash_of, keep, kept_hash};
use crate::{Store, StoreError, StoreFault, range_of};
use bep_map::NameMap;
use bep_record::{Block, BlockSize, Items, Kind, MAX_NANOSECONDS, Name, Node, NodeParts, Target};
use std::alloc::{AllocError, Global};
use std::marker::Model;

/// A store in memory, which never fails.
///
/// It keeps the hash of each range of a file that was asked for (`hash_at_hand`), until something else is written at the
/// name. There are at most as many as the file has blocks of 131072 bytes.
pub struct MemStore {
    nodes: NameMap<Node>,
    kept: NameMap<Items<Block>>,
    alloc: Global,
}

// By hand: a caller's proof then sees one call where it lets go of one, and not each field (docs/developing.md).
impl Drop for MemStore {
    fn drop(self) {
        let MemStore {
            nodes: _,
            kept: _,
            alloc: _,
        } = self;
    }
}

impl Model for MemStore {
    ghost use Rattle.std.specs.FinMap as map;
    ghost use Rattle.std.specs.Coded.{coded_ℕ, coded_list};
    ghost use Rattle.bep_map.specs.NameMap.{ByName};
    ghost use Rattle.bep_record.specs.declared.node.NodeParts.{NodeParts};
    ghost use Rattle.bep_record.specs.contracts.node.NodeParts as parts;

    ghost Value = { ByName NodeParts };

    ghost coded = { map.code (coded_list coded_ℕ) parts.the_row.coded };

    ghost view = { λ store. store.nodes };

    ghost use Rattle.bep_store.specs.Kept.{IsStore};

    ghost invariant = { λ store. IsStore store.nodes store.kept };
}

impl MemStore {
    /// The store that holds nothing.
    pub fn new(alloc: Global) -> Self
        ensures { result ≡ map.empty }
    {
        MemStore {
            nodes: NameMap::new(alloc),
            kept: NameMap::new(alloc),
            alloc,
        }
    }

    /// Gives the name this node, in place of the one that it has; unlike `write` it makes no copies. Without memory the
    /// store is as before.
    pub fn put(&mut self, name: Name, node: Node) -> Result<(), AllocError>
        ensures ok { OnOk result (self.new ≡ map.insert self.old name node) }
        ensures err { OnErr result (self.new ≡ self.old) }
    {
        // `parts` is called for its clause `is_node`
        let _parts = node.parts();
        self.kept.remove(&name);
        self.nodes.insert(name, node)?;
        Ok(())
    }

    /// All that the store holds.
    pub fn into_nodes(self) -> NameMap<Node>
        ensures { result ≡ self }
    {
        let MemStore {
            nodes,
            kept: _,
            alloc: _,
        } = self;
        nodes
    }
}

impl Store for MemStore {
    ghost contents = { λ store. store };

    ghost faults = { λ _. 0 };

    fn names(&mut self, alloc: Global) -> Result<Vec<Name>, StoreError> {
        Ok(names_of(alloc, &self.nodes)?)
    }

    fn read(&mut self, alloc: Global, name: &Name) -> Result<Option<Node>, StoreError> {
        match self.nodes.get(name) {
            Some(node) => Ok(Some(node.copy(alloc)?)),
            None => Ok(None),
        }
    }

    /// Every node is at hand.
    fn at_hand(&self, name: &Name) -> Option<&Node>
        ensures exact { option_copied result ≡ map.get self.now name.now }
    {
        self.nodes.get(name)
    }

    /// A range that was asked for is hashed once, until its name's node changes in more than its time.
    fn hash_at_hand(&mut self, name: &Name, offset: u64, size: u32) -> Option<[u8; 32]> {
        let node = self.nodes.get(name)?;
        let range = range_of(node, offset, size)?;
        if let Some(hash) = kept_hash(&self.kept, name, offset, size) {
            return Some(hash);
        }
        let hash = hash_of(self.alloc, range)?;
        let most = BlockSize::base().block_count(node.parts().bytes.as_slice().len() as u64);
        let block = Block { offset, size, hash };
        let _kept = keep(self.alloc, &mut self.kept, name, most, block);
        Some(hash)
    }

    fn write(&mut self, name: &Name, node: &Node) -> Result<(), StoreError> {
        // `parts` is called for its clause `is_node`
        let _parts = node.parts();
        let key = name.copy(self.alloc)?;
        let copy = node.copy(self.alloc)?;
        self.kept.remove(&key);
        self.nodes.insert(key, copy)?;
        Ok(())
    }

    fn set_time(&mut self, name: &Name, seconds: i64, nanoseconds: u32) -> Result<(), StoreFault> {
        if nanoseconds <= MAX_NANOSECONDS {
            set_node_time(&mut self.nodes, self.alloc, name, seconds, nanoseconds);
        }
        Ok(())
    }

    fn remove(&mut self, name: &Name) -> Result<(), StoreFault> {
        self.kept.remove(name);
        self.nodes.remove(name);
        Ok(())
    }

    fn faults(&self) -> u64 {
        let _ = &self.nodes;
        0
    }
}

// The map's names, in order.
fn names_of(alloc: Global, nodes: &NameMap<Node>) -> Result<Vec<Name>, AllocError>
    ensures { IfOk result (λ names. names.items ≡ map.keys nodes.now) }
{
    let mut names = Vec::new(alloc);
    for (name, _node) in nodes.iter() {
        names.push(name.copy(alloc)?)?;
    }
    Ok(names)
}

// Gives the name's node, if it has one, this time. While the node is changed an empty directory, which takes no memory,
// keeps its place.
#[tactic(auto, using(crate::proofs::InsertFacts::get_insert, crate::proofs::InsertFacts::insert_insert))]
fn set_node_time(
    nodes: &mut NameMap<Node>,
    alloc: Global,
    name: &Name,
    seconds: i64,
    nanoseconds: u32,
)
    requires { nanoseconds ≤ MAX_NANOSECONDS }
    ensures { nodes.new ≡ with_time nodes.old name.now (map.get nodes.old name.now) seconds nanoseconds }
{
    match nodes.replace(name, directory(alloc)) {
        Ok(node) => {
            let _directory = nodes.replace(name, node_at(node, seconds, nanoseconds));
        }
        Err(_directory) => {}
    }
}

// A directory, made without memory.
fn directory(alloc: Global) -> Node {
    let made = Node::read(NodeParts {
        kind: Kind::Directory,
        bytes: Items::new(Vec::new(alloc)),
        target: Target::empty(alloc),
        modified_s: 0,
        modified_ns: 0,
    });
    match made {
        Ok(node) => node,
        Err(_) => unreachable!(),
    }
}

// The node with this time.
fn node_at(node: Node, seconds: i64, nanoseconds: u32) -> Node
    requires { nanoseconds ≤ MAX_NANOSECONDS }
    ensures { result ≡ at_time node seconds nanoseconds }
{
    let mut parts = node.into_parts();
    parts.modified_s = seconds;
    parts.modified_ns = nanoseconds;
    match Node::read(parts) {
        Ok(node) => node,
        Err(_) => unreachable!(),
    }
}
