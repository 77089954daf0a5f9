//! The converge checker: whether a cut converges, or the first reason why it doesn't.
//!
//! A cut converges if of each known name one record prevails: then it comes to all devices by itself, and nothing is lost on
//! the way. A caller reads a document and asks:
//!
//!     match converge_verdict(alloc, &cut)? {
//!         ConvergeVerdict::Converging => ..,
//!         ConvergeVerdict::NotConverging(reason, folder, name, device) => ..,
//!     }
//!
//! `hindrances` has all that keeps it from that.
#![tactic(auto)]

mod alike;
mod all_at;
mod among;
mod at_name;
mod behind;
mod checker;
mod gather;
mod hindrance;
mod known;
mod line;
mod meets;
mod met;
mod part;
mod progress;
mod unmet;
mod walk;
mod weight;

pub use bep_converge::ConvergeReason;
pub use checker::{ConvergeVerdict, converge_verdict, converge_verdict_grouped};
pub use gather::hindrances;
pub use hindrance::Hindrance;
pub use progress::{FolderProgress, progress_of};
