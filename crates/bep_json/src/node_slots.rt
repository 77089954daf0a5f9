//! Nodes, whose members are read as a walk along a document's text comes to them.
ghost use Rattle.std.specs.Prelude.{◌≡◌};
ghost use Rattle.bep_json.specs.inner.Nodes.{node_names, node_slots, body_told, tells_due_target, node_things, node_of, node_told};

use crate::texts::{HexBytes, TextBytes};
use crate::{
    DocVersion, Misread, NamedParts, Nanoseconds, Slots, Taken, Told, Whole, both, due, due_or,
    fill_leaf, fill_object,
};
use bep_record::{Items, Kind, Name, NodeParts, Target};
use bep_tree::{Reader, WalkError};
use std::alloc::Global;

// The things that the members say.
type NodeThings = (Name, (Kind, (i64, (Nanoseconds, (Items<u8>, Target)))));

// What is told of the members of a node.
#[derive(Drop)]
pub(crate) struct NodeSlots {
    name: Option<Told<Name>>,
    kind: Option<Told<Kind>>,
    modified_s: Option<Told<i64>>,
    modified_ns: Option<Told<Nanoseconds>>,
    text: Option<Told<TextBytes>>,
    hex: Option<Told<HexBytes>>,
    target: Option<Told<Target>>,
}

impl Slots for NodeSlots {
    ghost names = { node_names };

    ghost known = { node_slots };

    fn none() -> Self {
        NodeSlots {
            name: None,
            kind: None,
            modified_s: None,
            modified_ns: None,
            text: None,
            hex: None,
            target: None,
        }
    }

    fn take(
        &mut self,
        alloc: Global,
        version: DocVersion,
        key: &str,
        reader: &mut Reader<'_>,
        depth: usize,
    ) -> Result<bool, WalkError> {
        match key {
            "name" => fill_leaf(&mut self.name, alloc, version, reader, depth),
            "type" => fill_leaf(&mut self.kind, alloc, version, reader, depth),
            "modified_s" => fill_leaf(&mut self.modified_s, alloc, version, reader, depth),
            "modified_ns" => fill_leaf(&mut self.modified_ns, alloc, version, reader, depth),
            "text" => fill_leaf(&mut self.text, alloc, version, reader, depth),
            "hex" => fill_leaf(&mut self.hex, alloc, version, reader, depth),
            "target" => fill_leaf(&mut self.target, alloc, version, reader, depth),
            _ => Ok(false),
        }
    }
}

impl Taken for NamedParts {
    fn take(
        alloc: Global,
        version: DocVersion,
        reader: &mut Reader<'_>,
        depth: usize,
    ) -> Result<Told<Self>, WalkError> {
        let mut slots = NodeSlots::none();
        if !fill_object(&mut slots, alloc, version, reader, depth)? {
            return Ok(Err(Misread::Shape));
        }
        Ok(node_told(alloc, slots))
    }
}

// What is told of a node, by what is told of its members.
fn node_told(alloc: Global, slots: NodeSlots) -> Told<NamedParts>
    ensures { result ≡ node_told slots }
{
    if !tells_due_target(&slots) {
        return Err(Misread::Shape);
    }
    match things_told(alloc, slots) {
        Ok(things) => Ok(node_of(things)),
        Err(misread) => Err(misread),
    }
}

// Whether a symlink says where it leads.
fn tells_due_target(slots: &NodeSlots) -> bool
    ensures { result ≡ tells_due_target slots.now }
{
    match slots.kind {
        Some(Ok(Kind::Symlink)) => slots.target.is_some(),
        _ => true,
    }
}

// What is told of all members.
fn things_told(alloc: Global, slots: NodeSlots) -> Told<NodeThings>
    ensures { result ≡ node_things slots }
{
    let NodeSlots {
        name,
        kind,
        modified_s,
        modified_ns,
        text,
        hex,
        target,
    } = slots;
    let bytes = body_told(alloc, text, hex);
    let target = due_or(target, Target::empty(alloc));
    let modified_ns = due_or(modified_ns, Whole::new(0));
    both(
        due(name),
        both(
            due(kind),
            both(due(modified_s), both(modified_ns, both(bytes, target))),
        ),
    )
}

// What is told of the bytes, which are written as a text or in hexadecimal digits.
fn body_told(
    alloc: Global,
    text: Option<Told<TextBytes>>,
    digits: Option<Told<HexBytes>>,
) -> Told<Items<u8>>
    ensures { result ≡ body_told text digits }
{
    match text {
        None => digits_told(alloc, digits),
        Some(text) => match digits {
            None => Ok(text?.into_items()),
            Some(_) => Err(Misread::Shape),
        },
    }
}

// What is told of the bytes where no text says them.
fn digits_told(alloc: Global, digits: Option<Told<HexBytes>>) -> Told<Items<u8>>
    ensures { result ≡ body_told None digits }
{
    match digits {
        None => Ok(Items::new(Vec::new(alloc))),
        Some(digits) => Ok(digits?.into_items()),
    }
}

// The node that has these things.
fn node_of(things: NodeThings) -> NamedParts
    ensures { result ≡ node_of things }
{
    let (name, (kind, (modified_s, (modified_ns, (bytes, target))))) = things;
    let parts = NodeParts {
        kind,
        bytes,
        target,
        modified_s,
        modified_ns: modified_ns.number() as u32,
    };
    NamedParts { name, parts }
}
