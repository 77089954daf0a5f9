//! The configuration of a cluster: which devices share which folders, in which kind and with which store, and which pairs
//! of them have a link.
//!
//! ```rust
//! let mut config = Config::empty(alloc);
//! config.add_folder(b"docs")?;
//! config.add_device(&docs, one, FolderKind::SendReceive, 11, MemStore::new(alloc))?;
//! config.add_device(&docs, two, FolderKind::SendReceive, 12, MemStore::new(alloc))?;
//! config.add_link(one, two)?;
//! ```
#![tactic(auto)]

mod config;
mod error;
mod growth;
mod sharing;
mod there;

pub use config::{Config, ConfigParts};
pub use error::ConfigError;
pub use sharing::Sharing;
