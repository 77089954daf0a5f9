//! Finite maps whose keys are the names of files, on which views and stores stand, and maps of folders and of devices. An
//! index keeps its records in the order of their sequences; contracts see them as such a map of names too.
//!
//! ```rust
//! let mut nodes = NameMap::new(alloc);
//! let before = nodes.insert(name.copy(alloc)?, node)?; // None
//! let node = nodes.get(&name);
//! ```
#![tactic(auto)]

mod device_map;
mod folder_map;
mod name_map;

pub use device_map::DeviceMap;
pub use folder_map::FolderMap;
pub use name_map::NameMap;
