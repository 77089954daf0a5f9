//! Documents' bytes as JSON trees, or as a text to walk along: what they hold is what `serde_json` reads in the same bytes.
//!
//! A tree is a value of `json`: texts are lent from the document, numbers stay texts, and members stay a list. So it takes less
//! time and memory than a tree of `serde_json`, but where the same member comes very often. `json` and `serde_json` differ in
//! four points, which are settled here as `serde_json` settles them. `read_tree` refuses what nests too deep, and a number
//! that is too large for a float. The calls on a tree take the last of members that come twice, and `-0` for no whole number.
//!
//! A walk along a document's text needs no tree: `json_text` says whether `read_tree` would make one, and which whole number
//! stands at one member. `enter`, `next_key`, `pass`, `pass_items` and `pass_members` then go from value to value.
//!
//! ```rust
//! let mut scratch = Scratch::new(alloc);
//! let tree = read_tree(alloc, bytes, &mut scratch)?;
//! let epoch = match get(&tree, "epoch") { Some(epoch) => as_u64(epoch), None => None };
//! ```
#![tactic(auto)]

mod document;
mod error;
mod look;
mod number;
mod numbered;
mod ranged;
mod read;
mod walk;

pub use document::json_text;
pub use error::TreeError;
pub use json::{Reader, Scratch};
pub use look::{as_array, as_bool, as_str, at, get};
pub use number::{as_i64, as_u64};
pub use read::{MAX_DEPTH, read_tree};
pub use walk::{Entered, WalkError, enter, next_key, pass, pass_items, pass_members};

/// A JSON tree over a document's text.
pub type Tree<'a> = json::Value<'a>;
