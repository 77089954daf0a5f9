//! Why no cut is taken.
ghost use Rattle.std.specs.Prelude.{◌≡◌};
ghost use Rattle.bep_cut.specs.CutError.{number_of};
ghost use Rattle.bep_cut.specs.declared.error.CutError.TheVariants.{Memory};

use std::alloc::{AllocError, AllocFailed};
use thiserror::Error;

/// Why no cut is taken.
#[derive(Clone, Copy, Debug, Error, PartialEq, Eq)]
pub enum CutError {
    /// A device's store failed.
    #[error("the store failed")]
    StoreFault,
    /// Memory ran out.
    #[error("out of memory")]
    Memory,
}

impl CutError {
    /// The number that the product prints; want of memory has none.
    pub fn number(self) -> Option<u32>
        ensures { result ≡ number_of self }
    {
        match self {
            CutError::StoreFault => Some(131),
            CutError::Memory => None,
        }
    }
}

impl From<AllocError> for CutError {
    ghost from_gives = { λ _ e. e ≡ Memory };

    fn from(_error: AllocError) -> CutError {
        CutError::Memory
    }
}

impl<T: Drop> From<AllocFailed<T>> for CutError {
    ghost from_gives = { λ _ e. e ≡ Memory };

    fn from(_error: AllocFailed<T>) -> CutError {
        CutError::Memory
    }
}
