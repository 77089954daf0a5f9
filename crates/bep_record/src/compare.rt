//! How records are compared with each other, and with what a store holds.
ghost use Rattle.std.specs.Prelude.{◌≡◌, ◌↔◌, IsTrue, Some};
ghost use Rattle.std.specs.Option.{option_copied};
ghost use Rattle.bep_record.specs.Content.{content_of};
ghost use Rattle.bep_record.specs.Entry.{SameEntry, SameMarks, SameChange, SameBody};
ghost use Rattle.bep_record.specs.Node.{IsClean, LooksSame};

use crate::{Block, Entry, Kind, Node, NodeParts, Order, Record};

impl Record {
    /// Whether both records say the same of their names: the same kind with the same blocks or target, or
    /// a deletion on both sides.
    pub fn same_content(&self, other: &Record) -> bool
        ensures { IsTrue result ↔ (content_of self.now ≡ content_of other.now) }
    {
        self.entry().same_content(other.entry())
    }

    /// Whether the records are equal in all fields but the sequence.
    pub fn same_entry(&self, other: &Record) -> bool
        ensures { IsTrue result ↔ SameEntry self.now other.now }
    {
        self.entry().same_entry(other.entry())
    }

    /// Whether a scan would leave the record alone: a file of its size and time, a directory, a symlink of its
    /// target; nothing where the record is a deletion. Bytes aren't looked at.
    pub fn clean(&self, node: Option<&Node>) -> bool
        ensures { IsTrue result ↔ IsClean (option_copied node.entry) (Some self.now) }
    {
        let entry = self.entry();
        match node {
            None => entry.deleted,
            Some(node) => !entry.deleted && looks_same(node.parts(), entry),
        }
    }
}

/// Whether a scan would leave the device's own record alone, or find nothing where there is none.
pub fn is_clean(node: Option<&Node>, own: Option<&Record>) -> bool
    ensures { IsTrue result ↔ IsClean (option_copied node.entry) (option_copied own.entry) }
{
    match own {
        None => node.is_none(),
        Some(own) => own.clean(node),
    }
}

// Whether the node has the entry's kind, and what a scan compares of it.
fn looks_same(node: &NodeParts, entry: &Entry) -> bool
    ensures { IsTrue result ↔ ((node.now.kind ≡ entry.now.kind) × LooksSame node.now.kind node.now entry.now) }
{
    match (node.kind, entry.kind) {
        (Kind::File, Kind::File) => {
            node.bytes.as_slice().len() as u64 == entry.size
                && node.modified_s == entry.modified_s
                && node.modified_ns == entry.modified_ns
        }
        (Kind::Directory, Kind::Directory) => true,
        (Kind::Symlink, Kind::Symlink) => node.target == entry.target,
        _ => false,
    }
}

impl Entry {
    fn same_content(&self, other: &Entry) -> bool
        ensures { IsTrue result ↔ (content_of self.now ≡ content_of other.now) }
    {
        if self.deleted || other.deleted {
            return self.deleted && other.deleted;
        }
        match (self.kind, other.kind) {
            (Kind::File, Kind::File) => same_blocks(
                self.blocks.as_slice(),
                other.blocks.as_slice(),
            ),
            (Kind::Directory, Kind::Directory) => true,
            (Kind::Symlink, Kind::Symlink) => self.target == other.target,
            _ => false,
        }
    }

    fn same_entry(&self, other: &Entry) -> bool
        ensures { IsTrue result ↔ SameEntry self.now other.now }
    {
        self.name == other.name
            && self.same_marks(other)
            && self.same_change(other)
            && self.same_body(other)
    }

    fn same_marks(&self, other: &Entry) -> bool
        ensures { IsTrue result ↔ SameMarks self.now other.now }
    {
        self.kind == other.kind
            && self.deleted == other.deleted
            && self.invalid == other.invalid
            && self.no_permissions == other.no_permissions
    }

    fn same_change(&self, other: &Entry) -> bool
        ensures { IsTrue result ↔ SameChange self.now other.now }
    {
        self.modified_s == other.modified_s
            && self.modified_ns == other.modified_ns
            && self.modified_by == other.modified_by
            && self.version.order(&other.version) == Order::Equal
    }

    fn same_body(&self, other: &Entry) -> bool
        ensures { IsTrue result ↔ SameBody self.now other.now }
    {
        self.size == other.size
            && self.block_size == other.block_size
            && same_blocks(self.blocks.as_slice(), other.blocks.as_slice())
            && self.target == other.target
    }
}

fn same_blocks(blocks: &[Block], others: &[Block]) -> bool
    ensures { IsTrue result ↔ (blocks.now ≡ others.now) }
{
    blocks == others
}
