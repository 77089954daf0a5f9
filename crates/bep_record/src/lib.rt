//! Records of the Block Exchange Protocol: devices, version vectors, names, block lists, nodes, and the file
//! information that devices exchange about each name.
//!
//! ```rust
//! // What a device that deleted the name puts into its index, in place of its own record.
//! let mut entry = own.entry().copy(alloc)?;
//! let mut version = entry.version.vector();
//! version.bump(device)?;
//! entry.version = Version::of(alloc, &version)?;
//! entry.modified_by = device;
//! entry.deleted = true;
//! entry.size = 0;
//! entry.block_size = 0;
//! entry.blocks = Items::new(Vec::new(alloc));
//! entry.target = Target::empty(alloc);
//! let deletion = Record::read(alloc, entry)?; // None where a deletion has a block or a target
//! ```
#![tactic(auto)]

mod block;
mod compare;
mod conflict;
mod content;
mod device;
mod duplicate;
mod entry;
mod error;
mod folder;
mod folder_kind;
mod items;
mod kind;
mod laws;
mod limits;
mod name;
mod node;
mod record;
mod same;
mod target;
mod text;
mod vector;
mod version;

pub use block::{Block, BlockSize, cut_whole};
pub use compare::is_clean;
pub use conflict::conflict_name;
pub use content::Content;
pub use device::DeviceId;
pub use duplicate::Duplicate;
pub use entry::Entry;
pub use error::RecordError;
pub use folder::FolderName;
pub use folder_kind::FolderKind;
pub use items::Items;
pub use kind::Kind;
pub use laws::{block_sizes_are_bounded, bump_exists, cut_is_of_one_length, merge_exists};
pub use limits::{
    BASE_BLOCK_SIZE, BLOCK_SIZES, BLOCKS_AIMED_AT, HASH_OF_NOTHING, MAX_BLOCK_SIZE, MAX_DEVICES,
    MAX_FILE_SIZE, MAX_FOLDER_NAME_LEN, MAX_FOLDERS, MAX_MESSAGES, MAX_NAME_LEN, MAX_NANOSECONDS,
    MAX_PULLS, MAX_TARGET_LEN,
};
pub use name::Name;
pub use node::{Node, NodeParts};
pub use record::Record;
pub use same::Same;
pub use target::Target;
pub use vector::{Order, Vector};
pub use version::Version;
