//! Rounds that one thread makes on a cluster: each brings what prevails of a name to a device that isn't there yet.
//!
//! ```rust
//! let wanted = Wanted { device: nas, owner: laptop, folder, name };
//! bring(&mut cluster, alloc, &wanted)?; // the nas has the laptop's record and file
//! bring_all(&mut cluster, alloc, 100)?; // None: every device has what prevails of every name
//! ```
#![tactic(auto)]

mod all;
mod behind;
mod error;
mod fetching;
mod finding;
mod hearing;
mod making;
mod meeting;
mod round;
mod seeing;
mod wanted;

pub use all::bring_all;
pub use error::RoundError;
pub use round::bring;
pub use wanted::Wanted;
