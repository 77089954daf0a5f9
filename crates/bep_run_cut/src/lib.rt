//! Copies of a running cluster's devices and links, and whether their logs are those of one run.
//!
//! ```rust
//! let Some(run) = RunCut::of(alloc, peers, links)? else { .. };
//! match check_run(&run) {
//!     RunVerdict::Fits(count) => .., // the logs are one run of this many events, which leads from `base` to `cut`
//!     RunVerdict::Misfit(object, ticket) => ..,
//! }
//! ```
#![tactic(auto)]

mod apart;
mod check;
mod limits;
mod run_cut;
mod whole;

pub use check::check_run;
pub use limits::MAX_LINKS;
pub use run_cut::RunCut;
