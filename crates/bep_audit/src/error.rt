//! Why a cut has no certificate.
ghost use Rattle.std.specs.Prelude.{◌≡◌};
ghost use Rattle.bep_audit.specs.declared.error.CertifyError.TheVariants.{Memory};

use bep_record::{FolderName, Name};
use std::alloc::{AllocError, AllocFailed};
use thiserror::Error;

/// Why there is no certificate.
#[derive(Debug, Drop, Error, PartialEq, Eq)]
pub enum CertifyError {
    /// This known name of this folder has no winner, and each known name before it has one.
    #[error("a known name has no winner")]
    NoWinner(FolderName, Name),
    /// Memory ran out.
    #[error("out of memory")]
    Memory,
}

impl From<AllocError> for CertifyError {
    ghost from_gives = { λ _ e. e ≡ Memory };

    fn from(_error: AllocError) -> CertifyError {
        CertifyError::Memory
    }
}

impl<T: Drop> From<AllocFailed<T>> for CertifyError {
    ghost from_gives = { λ _ e. e ≡ Memory };

    fn from(_error: AllocFailed<T>) -> CertifyError {
        CertifyError::Memory
    }
}
