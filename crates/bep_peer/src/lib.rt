//! Devices, which act on their folders and exchange what they know of them over links: sessions, announcements, what is
//! done with each message, and what a user or a scan does with a file.
//!
//! ```rust
//! peer.edit(&folder, &name, &node)?;
//! let found = peer.look(&folder, &name)?;
//! peer.scan_commit(&folder, ScanResult::plain(alloc, name, found)?)?;
//! peer.begin(&mut link)?;
//! peer.deliver(&mut link)?;
//! peer.announce(&mut link, &folder)?;
//! ```
//!
//! `network` says what devices and links are together: a cluster as it is kept. `bep_core` makes its steps, and
//! `bep_cut` takes its cut; neither stands on the other.
#![tactic(auto)]

mod error;
mod laws;
mod network;
mod over;
mod peer;
mod requests;
mod reset;
mod restart;
mod sending;
mod session;
mod sound;
mod taking;
mod told;
mod trace;
mod within;

pub use error::PeerError;
pub use laws::tables_are_found;
pub use network::{agreed_is_sound, sharing_is_having};
pub use over::{cursor_for, names_once};
pub use peer::Peer;
pub use sending::{index_message, is_all_sent, next_batch, sent_with};
pub use session::Session;
pub use taking::{answer_to, has_bytes, refuse};
pub use trace::Trace;
