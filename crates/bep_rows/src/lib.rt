//! A cut read name by name: what is answered of each name by itself, and what these answers say together of the whole.
//!
//! ```rust
//! let mut stream = Stream::new();
//! let here = standing_of_row(alloc, Aim::Settled, &header, &row)?;
//! stream.take(row.folder.copy(alloc)?, row.name.copy(alloc)?, here)?;
//! let standing = stream.standing();
//! ```
#![tactic(auto)]

mod aim;
mod all;
mod laws;
mod row;
mod standing;
mod stream;

pub use aim::Aim;
pub use all::standing_of_rows;
pub use laws::{plain_rows_are_firm, rows_make_a_cut};
pub use row::{RowError, standing_beside, standing_of_row};
pub use standing::{Standing, standing_of};
pub use stream::{NotAbove, Stream};
