//! A running cluster: a lock round each device and each link, the actions and turns that take them, and threads that make
//! turns.
//!
//! What a call does under a lock is a call of `bep_log`, and what it decides is decided by functions that take no lock. No
//! contract of such a call says what happened under a lock: the logs do, and tests show it. Where a cluster is handed to
//! `run_turns`, each lock keeps a seat of one history, too. So the logs with which it ends are one run from that cluster, without
//! local steps and resets.
//!
//! ```rust
//! let shared = Shared::new(alloc, cluster)?;
//! shared.connect(&rt, one, two)?;
//! run_workers(&rt, &shared, &OpenGate, 100)?; // each device scans and pulls, each end of a link exchanges, in threads
//! ```
#![tactic(auto)]

mod acting;
mod acting_over;
mod actions;
mod cuts;
mod dropping;
mod ending;
mod kept_link;
mod kept_peer;
mod origin;
mod over;
mod pulling;
mod scanning;
mod sessions;
mod shared;
mod starting;
mod tally;
mod unchanged;
mod workers;

pub use origin::{Anywhere, Origin};
pub use shared::{Locked, Shared};
pub use workers::{run_turns, run_workers};
