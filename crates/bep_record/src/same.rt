//! Comparison of what holds memory, and of lists of it, in all that it holds.
ghost use Rattle.std.specs.Prelude.{◌≡◌, ◌↔◌, IsTrue};

use crate::{Items, Node, NodeParts, Record};

/// What can be compared in all that it holds.
pub trait Same {
    /// Whether both hold the same.
    fn same(&self, other: &Self) -> bool
        ensures { IsTrue result ↔ (self.now ≡ other.now) };
}

/// All fields are compared, the sequence too.
impl Same for Record {
    fn same(&self, other: &Record) -> bool {
        self.same_entry(other) && self.entry().sequence == other.entry().sequence
    }
}

impl Same for Node {
    fn same(&self, other: &Node) -> bool {
        self.parts().same(other.parts())
    }
}

impl Same for NodeParts {
    fn same(&self, other: &NodeParts) -> bool {
        self.kind == other.kind
            && self.bytes.as_slice() == other.bytes.as_slice()
            && self.target == other.target
            && self.modified_s == other.modified_s
            && self.modified_ns == other.modified_ns
    }
}

impl<T: Same> Same for Items<T> {
    fn same(&self, other: &Items<T>) -> bool {
        are_same(self.as_slice(), other.as_slice())
    }
}

// Whether both lists have one length and the same elements at each place.
fn are_same<T: Same>(items: &[T], others: &[T]) -> bool
    ensures { IsTrue result ↔ (items.now ≡ others.now) }
{
    items.len() == others.len()
        && items
            .iter()
            .zip(others)
            .all(|(item, other)| item.same(other))
}
