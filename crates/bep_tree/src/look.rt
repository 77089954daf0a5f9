//! Looking into a tree.
ghost use Rattle.std.specs.Prelude.{◌≡◌, option_map};
ghost use Rattle.serde_json.specs.Find.{as_array, as_bool, as_str, at, get};
ghost use Rattle.bep_tree.specs.View.{view, items_view};

use crate::Tree;

/// The text, where the tree is one.
pub fn as_str<'a>(tree: &Tree<'a>) -> Option<&'a str>
    ensures { option_map (λ text. text.now) result ≡ as_str (view tree.now) }
{
    tree.as_str()
}

/// Which of `true` and `false` the tree is, where it is one of them.
pub fn as_bool(tree: &Tree<'_>) -> Option<bool>
    ensures { result ≡ as_bool (view tree.now) }
{
    tree.as_bool()
}

/// The items, in order, where the tree is a list.
pub fn as_array<'t, 'a>(tree: &'t Tree<'a>) -> Option<&'t [Tree<'a>]>
    ensures { option_map (λ items. items_view items.now) result ≡ as_array (view tree.now) }
{
    match tree {
        Tree::Array(items) => Some(items.as_slice()),
        _ => None,
    }
}

/// The item at this place, from 0, where the tree is a list that has one.
pub fn at<'t, 'a>(tree: &'t Tree<'a>, place: usize) -> Option<&'t Tree<'a>>
    ensures { option_map (λ found. view found.now) result ≡ at place (view tree.now) }
{
    tree.at(place)
}

/// The member of this name, where the tree is an object that has one; the last of them, where it stands twice.
pub fn get<'t, 'a>(tree: &'t Tree<'a>, name: &str) -> Option<&'t Tree<'a>>
    ensures { option_map (λ found. view found.now) result ≡ get name.now (view tree.now) }
{
    tree.get(name)
}
