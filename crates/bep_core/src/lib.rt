//! A cluster: devices with their folders, and the links between them, made of a configuration, and each of its steps.
//!
//! ```rust
//! let mut cluster = Cluster::new(alloc, config)?;
//! cluster.apply(Step::Connect(one, two))?; // Changed: their link is up
//! cluster.apply(Step::Begin(one, two))?; // Changed: a ClusterConfig is on its way to the second
//! let (peers, links) = cluster.into_parts();
//! ```
#![tactic(auto)]

mod applying;
mod begin;
mod cluster;
mod folder_steps;
mod folders;
mod laws;
mod link_steps;
mod others;
mod resetting;
mod restarting;
mod session_steps;
mod why;

pub use bep_config::Config;
pub use bep_machine::{Moved, Step};
pub use bep_peer::sharing_is_having;
pub use cluster::Cluster;
pub use laws::reached_is_gapless;
pub use why::Why;
