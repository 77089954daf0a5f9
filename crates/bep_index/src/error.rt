//! Why something of this crate is refused.
ghost use Rattle.std.specs.Prelude.{◌≡◌};
ghost use Rattle.bep_index.specs.IndexError.{number_of};
ghost use Rattle.bep_index.specs.declared.error.IndexError.TheVariants.{Memory};

use std::alloc::{AllocError, AllocFailed};
use thiserror::Error;

/// Why a call of this crate was refused.
#[derive(Clone, Copy, Debug, Error, PartialEq, Eq)]
pub enum IndexError {
    /// The index has given its greatest sequence number.
    #[error("the index has used all its sequence numbers")]
    SequenceFull,
    /// An index or a view would have more than 4096 names.
    #[error("an index has at most 4096 names")]
    IndexFull,
    /// A batch doesn't begin above what is known.
    #[error("the batch is old")]
    BatchOld,
    /// The records are no batch.
    #[error("the records are no batch")]
    BatchBad,
    /// Memory ran out.
    #[error("out of memory")]
    Memory,
}

impl IndexError {
    /// The number that the product prints; `Memory` has none.
    pub fn number(self) -> Option<u32>
        ensures { result ≡ number_of self }
    {
        match self {
            IndexError::SequenceFull => Some(121),
            IndexError::IndexFull => Some(122),
            IndexError::BatchOld => Some(123),
            IndexError::BatchBad => Some(124),
            IndexError::Memory => None,
        }
    }
}

impl From<AllocError> for IndexError {
    ghost from_gives = { λ _ e. e ≡ Memory };

    fn from(_error: AllocError) -> IndexError {
        IndexError::Memory
    }
}

impl<T: Drop> From<AllocFailed<T>> for IndexError {
    ghost from_gives = { λ _ e. e ≡ Memory };

    fn from(_error: AllocFailed<T>) -> IndexError {
        IndexError::Memory
    }
}
