//! Why something of this crate is refused.
ghost use Rattle.std.specs.Prelude.{◌≡◌};
ghost use Rattle.bep_record.specs.RecordError.{number_of};
ghost use Rattle.bep_record.specs.declared.error.RecordError.TheVariants.{Memory};

use std::alloc::{AllocError, AllocFailed};
use thiserror::Error;

/// Why a call of this crate was refused.
#[derive(Clone, Copy, Debug, Error, PartialEq, Eq)]
pub enum RecordError {
    /// A counter of a version vector stands at its greatest value.
    #[error("a counter is at its greatest value")]
    CounterFull,
    /// A version vector would have more than 16 counters.
    #[error("a version vector has at most 16 counters")]
    TooManyCounters,
    /// The bytes are no name of a file.
    #[error("the bytes are no name")]
    NameBad,
    /// The parts are no node of a store.
    #[error("the parts make no node")]
    NodeBad,
    /// A file has more than 536870912 bytes.
    #[error("a file has at most 536870912 bytes")]
    FileTooLarge,
    /// Memory ran out.
    #[error("out of memory")]
    Memory,
}

impl RecordError {
    /// The number that the product prints; `Memory` has none.
    pub fn number(self) -> Option<u32>
        ensures { result ≡ number_of self }
    {
        match self {
            RecordError::CounterFull => Some(101),
            RecordError::TooManyCounters => Some(102),
            RecordError::NameBad => Some(103),
            RecordError::NodeBad => Some(104),
            RecordError::FileTooLarge => Some(112),
            RecordError::Memory => None,
        }
    }
}

impl From<AllocError> for RecordError {
    ghost from_gives = { λ _ e. e ≡ Memory };

    fn from(_error: AllocError) -> RecordError {
        RecordError::Memory
    }
}

impl<T: Drop> From<AllocFailed<T>> for RecordError {
    ghost from_gives = { λ _ e. e ≡ Memory };

    fn from(_error: AllocFailed<T>) -> RecordError {
        RecordError::Memory
    }
}
