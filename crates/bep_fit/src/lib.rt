//! Where the logs of a cluster's devices and links fit, they are of one run.
//!
//! Nearly all of this crate is definitions, in `specs/`, and the laws that follow from them.
//!
//! ```text
//! use Rattle.bep_fit.specs.Fit.{IsRunVerdict}
//! ```
#![tactic(auto)]

pub mod examples;
mod merge;
mod object;
mod one_run;
mod stamped;
mod verdict;
mod walk;

pub use merge::{faultless_logs_agree, faultless_logs_merge, logs_fit_exactly};
pub use object::Object;
pub use one_run::{fitting_logs_are_one_run, settled_logs_stay_put};
pub use stamped::Stamped;
pub use verdict::{RunVerdict, logs_have_one_verdict};
pub use walk::walk_finds_verdict;
