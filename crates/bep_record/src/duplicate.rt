//! Copies of what holds memory, and of lists of it.
ghost use Rattle.std.specs.Prelude.{◌≡◌, IfOk};

use crate::{Items, Node, Record};
use std::alloc::{AllocError, Global};

/// What can be copied, where that may take memory. Types that are `Copy` don't need it.
pub trait Duplicate: Drop {
    /// An equal value, or want of memory.
    fn duplicate(&self, alloc: Global) -> Result<Self, AllocError>
        ensures { IfOk result (λ made. made ≡ self.now) };
}

impl Duplicate for Record {
    fn duplicate(&self, alloc: Global) -> Result<Self, AllocError> {
        self.copy(alloc)
    }
}

impl Duplicate for Node {
    fn duplicate(&self, alloc: Global) -> Result<Self, AllocError> {
        self.copy(alloc)
    }
}

impl<T: Duplicate> Duplicate for Items<T> {
    fn duplicate(&self, alloc: Global) -> Result<Self, AllocError> {
        let mut made = Vec::with_capacity(alloc, self.as_slice().len())?;
        for item in self.as_slice() {
            made.push(item.duplicate(alloc)?)?;
        }
        Ok(Items::new(made))
    }
}
