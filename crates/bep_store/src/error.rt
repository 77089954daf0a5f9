//! Why a store fails.
ghost use Rattle.std.specs.Prelude.{◌≡◌};
ghost use Rattle.bep_store.specs.StoreError.{number_of};
ghost use Rattle.bep_store.specs.declared.error.StoreError.TheVariants.{Fault, Memory};

use std::alloc::{AllocError, AllocFailed};
use thiserror::Error;

/// Why a call of a store didn't succeed.
#[derive(Clone, Copy, Debug, Error, PartialEq, Eq)]
pub enum StoreError {
    /// The store failed.
    #[error("the store failed")]
    Fault,
    /// Memory ran out.
    #[error("out of memory")]
    Memory,
}

/// The store failed, in a call that takes no memory.
#[derive(Clone, Copy, Debug, Error, PartialEq, Eq)]
#[error("the store failed")]
pub struct StoreFault;

impl StoreError {
    /// The number that the product prints; `Memory` has none.
    pub fn number(self) -> Option<u32>
        ensures { result ≡ number_of self }
    {
        match self {
            StoreError::Fault => Some(131),
            StoreError::Memory => None,
        }
    }
}

impl StoreFault {
    /// The number that the product prints.
    pub fn number(self) -> Option<u32>
        ensures { result ≡ number_of Fault }
    {
        StoreError::from(self).number()
    }
}

impl From<StoreFault> for StoreError {
    ghost from_gives = { λ _ e. e ≡ Fault };

    fn from(_fault: StoreFault) -> StoreError {
        StoreError::Fault
    }
}

impl From<AllocError> for StoreError {
    ghost from_gives = { λ _ e. e ≡ Memory };

    fn from(_error: AllocError) -> StoreError {
        StoreError::Memory
    }
}

impl<T: Drop> From<AllocFailed<T>> for StoreError {
    ghost from_gives = { λ _ e. e ≡ Memory };

    fn from(_error: AllocFailed<T>) -> StoreError {
        StoreError::Memory
    }
}
