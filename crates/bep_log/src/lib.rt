//! Logs that replay: a device, or a link, with what it was when its log began, and each event since, under a ticket.
//!
//! ```rust
//! let mut device = LoggedPeer::new(alloc, peer)?;
//! device.edit(1, &folder, &name, &node)?;
//! let event = &device.log()[0]; // the edit, under ticket 1
//! ```
#![tactic(auto)]

mod acting;
mod acting_over;
mod copying;
mod error;
mod event;
mod folder_actions;
mod history;
mod laws;
mod limits;
mod link_actions;
mod local;
mod logged_link;
mod logged_peer;
mod looking;
mod over;
mod ready;
mod resetting;
mod restarting;

pub use copying::{LinkCopy, LinkParts, PeerCopy, PeerParts};
pub use error::LogError;
pub use laws::logs_have_one_state;
pub use limits::MAX_EVENTS;
pub use logged_link::LoggedLink;
pub use logged_peer::LoggedPeer;
