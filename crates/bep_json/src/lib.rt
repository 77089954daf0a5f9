//! Readers of numbers, texts, lists, records and nodes in JSON, along a document's text, and writers of them; a number or a text
//! is read in a tree of `bep_tree`, too.
//!
//! Each thing is read where a reader of the text's tokens comes to it. What is told of an object's members is kept in slots
//! until all have come; what is told of a list's items is kept as a list, or as a tuple where each has its own place. A
//! caller reads a list of records so:
//!
//!     let told = <Items<Entry>>::take(alloc, version, &mut reader, depth)?;
//!
//! and a list of a device and a folder so:
//!
//!     let Some(inside) = enter_list(&mut reader, depth)? else { .. };
//!     let told = <(DeviceId, (FolderName, ()))>::take_items(alloc, version, &mut reader, inside)?;
//!
//! What is written stands behind what a writer of tokens has written before, so that no tree of the whole is made:
//!
//!     add_text(&mut out, "folder", folder.as_str())?;
//!     out.key("record")?;
//!     write_record(alloc, &mut out, &record)?;
#![tactic(auto)]

mod added;
mod digits;
mod error;
mod items;
mod laws;
mod leaves;
mod lists;
mod node_slots;
mod nodes;
mod numbers;
mod pairs;
mod readable;
mod record_slots;
mod records;
mod slots;
mod taken;
mod texts;
mod told;
mod tuples;
mod version;
mod writing;

pub use added::{
    add_flag, add_number, add_signed, add_text, text_of, write_null, write_number, write_text,
};
pub use error::ReadError;
pub use laws::{device_is_told, hashes_make_blocks, texts_are_told};
pub use lists::enter_list;
pub use nodes::NamedParts;
pub use numbers::{Nanoseconds, Sequence, Whole};
pub use readable::{Readable, Shaped};
pub(crate) use slots::fill_object;
pub use slots::{Slots, fill, fill_leaf, take_object};
pub use taken::{Leaf, Taken, enter_leaf, take_leaf};
pub use told::{Misread, Told, both, due, due_or, noted};
pub use tuples::Tuple;
pub use version::DocVersion;
pub use writing::{write_hashes, write_node, write_record};
