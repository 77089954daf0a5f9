//! The index of a device's folder, what a device knows of another's index, and what is sent of the one to bring the
//! other up to date.
//!
//! ```rust
//! // What a receiver is sent next, which announced the point of its view.
//! let above = match plan(&index, id, max) {
//!     Plan::Full => 0,
//!     Plan::Above(sequence) => sequence,
//! };
//! let batch = Batch::new(index.after(alloc, above, MAX_RECORDS)?)?;
//! ```
#![tactic(auto)]

mod all;
mod batch;
mod change;
mod error;
mod good;
mod id;
mod index;
mod laws;
mod limits;
mod receiver;
mod records;
mod send;
mod view;

pub use batch::Batch;
pub use change::Undo;
pub use error::IndexError;
pub use good::record_is_good;
pub use id::IndexId;
pub use index::Index;
pub use laws::{
    batch_records_are_found, batches_bring_the_index, changes_keep_a_view, puts_keep_an_index,
    records_make_an_index, undo_fits_the_last_change,
};
pub use limits::{MAX_NAMES, MAX_RECORDS, MAX_SEQUENCE};
pub use receiver::plan;
// Another crate can name an index in a contract only if the types of its fields are exported.
#[doc(hidden)]
pub use records::Records;
pub use send::Plan;
pub use view::View;
