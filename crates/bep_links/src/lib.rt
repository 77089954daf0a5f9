//! Links between devices, which deliver messages in order.
//!
//! ```rust
//! link.connect()?;
//! link.push(Side::Upper, message)?;
//! let arrived = link.pop(Side::Upper);
//! ```
#![tactic(auto)]

mod error;
mod link;
mod queue;
mod side;

pub use bep_machine::{Announced, Bytes, Code, Message, Request, Response};
pub use error::LinkError;
pub use link::Link;
pub use side::Side;
