//! What check documents and scenarios both say.

mod devices;
mod few;
mod index_id;
mod version;

pub use devices::has_few_devices;
pub use few::Few;
pub(crate) use index_id::AnyIndexNumber;
pub use index_id::IndexNumber;
pub use version::doc_version;
