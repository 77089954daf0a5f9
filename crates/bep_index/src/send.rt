//! The two plans of sending.

use bep_record::Duplicate;
use std::alloc::{AllocError, Global};

/// What is sent to a receiver first.
#[derive(Clone, Copy, Debug, PartialEq, Eq)]
pub enum Plan {
    /// The whole index, as an Index.
    Full,
    /// Only records above this sequence, as IndexUpdates.
    Above(u64),
}

// So that a map of plans can be copied. It takes no memory.
impl Duplicate for Plan {
    fn duplicate(&self, alloc: Global) -> Result<Self, AllocError> {
        let _ = alloc;
        Ok(*self)
    }
}
