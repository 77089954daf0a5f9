//! Why a document can't be read.
ghost use Rattle.std.specs.Prelude.{◌≡◌};
ghost use Rattle.bep_document.specs.declared.error.DocError.TheVariants.{Memory, Refused};
ghost use Rattle.bep_document.specs.inner.Texts.{error_of};

use crate::{DocFault, Fault};
use bep_tree::WalkError;
use std::alloc::{AllocError, AllocFailed};
use thiserror::Error;

/// Why a document couldn't be read.
#[derive(Debug, Drop, Error)]
pub enum DocError {
    /// The document has a fault, for which it is refused whole.
    #[error("the document is refused")]
    Refused(DocFault),
    /// Memory ran out.
    #[error("out of memory")]
    Memory,
}

impl From<DocFault> for DocError {
    ghost from_gives = { λ fault error. error ≡ Refused fault };

    fn from(fault: DocFault) -> DocError {
        DocError::Refused(fault)
    }
}

impl From<WalkError> for DocError {
    ghost from_gives = { λ walk error. error ≡ error_of walk };

    fn from(error: WalkError) -> DocError {
        match error {
            WalkError::Broken => DocError::Refused(DocFault::nowhere(Fault::NotJson)),
            WalkError::Memory => DocError::Memory,
        }
    }
}

impl From<AllocError> for DocError {
    ghost from_gives = { λ _ e. e ≡ Memory };

    fn from(_error: AllocError) -> DocError {
        DocError::Memory
    }
}

impl<T: Drop> From<AllocFailed<T>> for DocError {
    ghost from_gives = { λ _ e. e ≡ Memory };

    fn from(_error: AllocFailed<T>) -> DocError {
        DocError::Memory
    }
}
