//! Nodes: what a store holds at a name.
ghost use Rattle.bep_json.specs.Nodes.{is_node, read_node};

use crate::Shaped;
use bep_record::{Name, NodeParts};

/// A name and what a store holds there, whether the parts fit together or not.
#[derive(Debug, Drop)]
pub struct NamedParts {
    /// The name.
    pub name: Name,
    /// What stands there.
    pub parts: NodeParts,
}

// A node, whether it fits its kind or not.
impl Shaped for NamedParts {
    ghost has_shape = { λ _. is_node };

    ghost reads = { read_node };
}
