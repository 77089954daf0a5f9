//! Stores, in which a device keeps the files of a folder, seen as maps from names to nodes that may fail.
//!
//! ```rust
//! let mut store = FaultStore::new(MemStore::new(alloc), 2);
//! store.write(&name, &node)?;
//! let failed = store.remove(&name); // Err, since the second call fails, and the node is still there
//! ```
#![tactic(auto)]

mod error;
mod fault_store;
mod kept;
mod mem_store;
mod range;
mod store;

pub use error::{StoreError, StoreFault};
pub use fault_store::FaultStore;
pub use mem_store::MemStore;
pub use range::range_of;
pub use store::Store;
