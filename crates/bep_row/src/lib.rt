//! A row, which has all that a cut says of one name, and the cut that has this name alone.
//!
//! The header is a cut: it says who shares which folder, in which kind, with which index, and which links there are. A row
//! has the records of one name once, and says by number which device has which of them.
//!
//! ```rust
//! let cut = cut_of(alloc, &header, &row)?;
//! ```
#![tactic(auto)]

mod cells;
mod fits;
mod make;
mod plain;
mod row;

pub use fits::{header_fits, is_said_fit, row_fits, rows_make_cuts};
pub use make::cut_of;
pub use plain::is_plain;
pub use row::{DeviceCell, NameRow, ViewCell};
