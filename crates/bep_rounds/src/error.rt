//! Why a round isn't made to its end.
ghost use Rattle.std.specs.Prelude.{◌≡◌};
ghost use Rattle.bep_rounds.specs.declared.error.RoundError.TheVariants.{Memory};

use bep_machine::Refusal;
use std::alloc::{AllocError, AllocFailed};
use thiserror::Error;

/// Why a round isn't made to its end.
#[derive(Clone, Copy, Debug, Error, PartialEq, Eq)]
pub enum RoundError {
    /// A step was refused: the cluster wasn't ready for the round, or the device is no further behind the owner.
    #[error("a step is refused")]
    Refused(Refusal),
    /// A call of a store failed in the last step.
    #[error("a store failed")]
    StoreFault,
    /// Memory ran out.
    #[error("out of memory")]
    Memory,
}

impl From<AllocError> for RoundError {
    ghost from_gives = { λ _ e. e ≡ Memory };

    fn from(_error: AllocError) -> RoundError {
        RoundError::Memory
    }
}

impl<T: Drop> From<AllocFailed<T>> for RoundError {
    ghost from_gives = { λ _ e. e ≡ Memory };

    fn from(_error: AllocFailed<T>) -> RoundError {
        RoundError::Memory
    }
}
