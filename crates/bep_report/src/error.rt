//! Why there is no answer.
ghost use Rattle.std.specs.Prelude.{◌≡◌};
ghost use Rattle.bep_report.specs.declared.error.ReportError.TheVariants.{Memory};

use std::alloc::{AllocError, AllocFailed};
use thiserror::Error;

/// Why the program stops without an answer. Each prints as the words that the program writes on standard error.
#[derive(Clone, Copy, Debug, Error, PartialEq, Eq)]
pub enum ReportError {
    /// Memory ran out.
    #[error("memory")]
    Memory,
    /// The input couldn't be read.
    #[error("read fault")]
    Read,
    /// The output couldn't be written.
    #[error("write fault")]
    Write,
}

impl From<AllocError> for ReportError {
    ghost from_gives = { λ _ e. e ≡ Memory };

    fn from(_error: AllocError) -> ReportError {
        ReportError::Memory
    }
}

impl<T: Drop> From<AllocFailed<T>> for ReportError {
    ghost from_gives = { λ _ e. e ≡ Memory };

    fn from(_error: AllocFailed<T>) -> ReportError {
        ReportError::Memory
    }
}
