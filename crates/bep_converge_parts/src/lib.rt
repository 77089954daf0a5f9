//! A cut of which it is asked whether it converges, in parts by names: the verdicts on its parts say together what the one on the
//! whole says.
//!
//! ```rust
//! converge_verdict_by_parts();
//! ```
#![tactic(auto)]

mod laws;

pub use laws::{converge_faults_by_parts, converge_verdict_by_parts};
