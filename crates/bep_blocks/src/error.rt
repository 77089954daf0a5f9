//! Why something of this crate is refused.
ghost use Rattle.std.specs.Prelude.{◌≡◌};
ghost use Rattle.bep_blocks.specs.BlocksError.{number_of};
ghost use Rattle.bep_blocks.specs.declared.error.BlocksError.TheVariants.{Memory};

use std::alloc::{AllocError, AllocFailed};
use thiserror::Error;

/// Why a call of this crate was refused.
#[derive(Clone, Copy, Debug, Error, PartialEq, Eq)]
pub enum BlocksError {
    /// The number of workers isn't from 1 to 8.
    #[error("there are 1 to 8 workers")]
    WorkersBad,
    /// A file has more than 536870912 bytes.
    #[error("a file has at most 536870912 bytes")]
    FileTooLarge,
    /// Memory ran out.
    #[error("out of memory")]
    Memory,
}

impl BlocksError {
    /// The number that the product prints; `Memory` has none.
    pub fn number(self) -> Option<u32>
        ensures { result ≡ number_of self }
    {
        match self {
            BlocksError::WorkersBad => Some(111),
            BlocksError::FileTooLarge => Some(112),
            BlocksError::Memory => None,
        }
    }
}

impl From<AllocError> for BlocksError {
    ghost from_gives = { λ _ e. e ≡ Memory };

    fn from(_error: AllocError) -> BlocksError {
        BlocksError::Memory
    }
}

impl<T: Drop> From<AllocFailed<T>> for BlocksError {
    ghost from_gives = { λ _ e. e ≡ Memory };

    fn from(_error: AllocFailed<T>) -> BlocksError {
        BlocksError::Memory
    }
}
