//! The tree of a document's bytes.
ghost use Rattle.std.specs.Prelude.{◌≡◌};
ghost use Rattle.json.specs.Json.{if_last};
ghost use Rattle.json.specs.Value.{value_view, items_view, members_view};
ghost use Rattle.bep_tree.specs.Read.{Gives, tree_of};
ghost use Rattle.bep_tree.specs.inner.InRange.{is_in_range, items_in_range, members_in_range};
ghost use Rattle.bep_tree.specs.inner.Text.{GivesJson, json_of};

use crate::number::is_in_range;
use crate::{Scratch, Tree, TreeError};
use json::{Error, Reader};
use std::alloc::Global;

/// How deep `serde_json` lets arrays and objects nest.
pub const MAX_DEPTH: usize = 127;

/// The tree of these bytes: what it holds is what `serde_json` reads in them. Refuses `NotJson` where that reads nothing;
/// `Memory` may come in place of any answer. Texts with escapes are written into the scratch.
pub fn read_tree<'a>(
    alloc: Global,
    bytes: &'a [u8],
    scratch: &'a mut Scratch,
) -> Result<Tree<'a>, TreeError>
    ensures { Gives result (tree_of bytes.now) }
{
    match std::str::from_utf8(bytes) {
        Ok(text) => read_text(alloc, text, scratch),
        Err(_) => Err(TreeError::NotJson),
    }
}

// The tree of this text.
fn read_text<'a>(
    alloc: Global,
    text: &'a str,
    scratch: &'a mut Scratch,
) -> Result<Tree<'a>, TreeError>
    ensures { Gives result (tree_of text.now) }
{
    let tree = value_in(alloc, text, scratch)?;
    if are_in_range(&tree) {
        Ok(tree)
    } else {
        Err(TreeError::NotJson)
    }
}

// The one value in this text, its numbers in range or not.
fn value_in<'a>(
    alloc: Global,
    text: &'a str,
    scratch: &'a mut Scratch,
) -> Result<Tree<'a>, TreeError>
    ensures { GivesJson result (json_of text.now) }
{
    let mut reader = Reader::new(text, scratch)?;
    match Tree::read(alloc, &mut reader, MAX_DEPTH) {
        Ok(tree) => if_last(tree, reader),
        Err(Error::OutOfMemory) => Err(TreeError::Memory),
        Err(_) => Err(TreeError::NotJson),
    }
}

// The value, if nothing comes after it.
fn if_last<'a>(tree: Tree<'a>, mut reader: Reader<'a>) -> Result<Tree<'a>, TreeError>
    ensures { GivesJson result (if_last (value_view tree.entry) reader.entry) }
{
    match reader.next() {
        None => Ok(tree),
        Some(_) => Err(TreeError::NotJson),
    }
}

// Whether each number in the tree is in range.
#[cycle(in_range)]
fn are_in_range(tree: &Tree<'_>) -> bool
    ensures { result ≡ is_in_range (value_view tree.now) }
{
    match tree {
        Tree::Number(text) => is_in_range(*text),
        Tree::Array(items) => items_are_in_range(items),
        Tree::Object(members) => members_are_in_range(members),
        _ => true,
    }
}

#[cycle(in_range)]
fn items_are_in_range(items: &Vec<Tree<'_>>) -> bool
    ensures { result ≡ items_in_range (items_view items.now.items) }
{
    for item in items {
        if !are_in_range(item) {
            return false;
        }
    }
    true
}

#[cycle(in_range)]
fn members_are_in_range(members: &Vec<(&str, Tree<'_>)>) -> bool
    ensures { result ≡ members_in_range (members_view members.now.items) }
{
    for member in members {
        if !are_in_range(&member.1) {
            return false;
        }
    }
    true
}
