//! One folder at one device: the device's own index, its views of the others' indexes, its pulls and its store.
//!
//! ```rust
//! docs.edit(&name, &node)?; // a user's change
//! let node = docs.look(&name)?;
//! docs.commit(ScanResult::plain(alloc, name, node)?)?; // Changed: the index has a record of it
//!
//! docs.amend_view(device, batch)?; // what another device sent of its index
//! docs.start_pull(&other)?;
//! docs.add_block(&other, 0, bytes)?;
//! docs.finish(&other)?; // Changed: record and file are as that device has them
//! ```
#![tactic(auto)]

mod beside;
mod deletion;
mod error;
mod pull;
mod reading;
mod replica;
mod resetting;
mod scan;
mod scan_result;
mod sound;
mod traced;
mod user;
mod views;

pub use beside::has_content_of;
pub use error::FolderError;
pub use pull::{Pull, is_about};
pub use replica::{Replica, are_others};
pub use scan_result::ScanResult;
