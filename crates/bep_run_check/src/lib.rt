//! The run check: whether the logs of a cluster's devices and links are those of one run.
//!
//! ```rust
//! match check_logs(&logs) {
//!     RunVerdict::Fits(count) => ..,        // one run, of this many events
//!     RunVerdict::Misfit(object, ticket) => .., // the first object at fault, and the least ticket at fault
//! }
//! ```
//!
//! What fits, and that it is one run then, are definitions and laws of `bep_fit`.
#![tactic(auto)]

mod check;
mod guards;
mod limits;
mod log;
mod named;
mod next;
mod rest;
mod rounds;
mod walk;

pub use check::check_logs;
pub use limits::MAX_OBJECTS;
pub use log::{ObjectLog, all_are_logged};
