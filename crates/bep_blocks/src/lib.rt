//! Block lists of files: a file's bytes cut into pieces, each with its place, its size and its SHA-256.
//!
//! ```rust
//! let size = BlockSize::of_length(bytes.len() as u64)?;
//! let list = blocks(alloc, bytes, size)?;
//! let same = matches(bytes, list.as_slice()); // true
//!
//! let by_four = blocks_by(&rt, alloc, &OpenGate, bytes, size, 4)?; // the same list
//! ```
#![tactic(auto)]

mod error;
mod gate;
mod hashes;
mod laws;
mod matching;
mod plain;
mod workers;

pub use error::BlocksError;
pub use gate::{Gate, OpenGate, Place};
pub use hashes::blocks_of_hashes;
pub use laws::{hashes_tell_blocks, plain_blocks_match};
pub use matching::matches;
pub use plain::blocks;
pub use workers::{MAX_WORKERS, blocks_by, is_worker_count};
