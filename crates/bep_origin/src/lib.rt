//! Where a cut can come from: a sound cluster that has its tables. So what is said of every sound cluster with a cut's
//! tables is said of some.
//!
//! ```rust
//! cut_has_cluster(&cut);
//! ```
#![tactic(auto)]

mod from_cut;
mod laws;

pub use from_cut::cut_has_cluster;
pub use laws::cuts_have_clusters;
