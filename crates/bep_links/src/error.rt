//! Why something of this crate is refused.
ghost use Rattle.std.specs.Prelude.{◌≡◌};
ghost use Rattle.bep_links.specs.LinkError.{number_of};
ghost use Rattle.bep_links.specs.declared.error.LinkError.TheVariants.{Memory};

use std::alloc::{AllocError, AllocFailed};
use thiserror::Error;

/// Why a call of this crate was refused.
#[derive(Clone, Copy, Debug, Error, PartialEq, Eq)]
pub enum LinkError {
    /// The link is down.
    #[error("the link is down")]
    LinkDown,
    /// 1024 messages are on their way to this end already.
    #[error("at most 1024 messages are on their way to an end of a link")]
    LinkFull,
    /// The link has had its greatest epoch.
    #[error("the link has used all its epochs")]
    EpochFull,
    /// The link is up already.
    #[error("the link is up")]
    NothingToDo,
    /// Memory ran out.
    #[error("out of memory")]
    Memory,
}

impl LinkError {
    /// The number that the product prints; `Memory` has none.
    pub fn number(self) -> Option<u32>
        ensures { result ≡ number_of self }
    {
        match self {
            LinkError::LinkDown => Some(151),
            LinkError::LinkFull => Some(152),
            LinkError::EpochFull => Some(153),
            LinkError::NothingToDo => Some(163),
            LinkError::Memory => None,
        }
    }
}

impl From<AllocError> for LinkError {
    ghost from_gives = { λ _ e. e ≡ Memory };

    fn from(_error: AllocError) -> LinkError {
        LinkError::Memory
    }
}

impl<T: Drop> From<AllocFailed<T>> for LinkError {
    ghost from_gives = { λ _ e. e ≡ Memory };

    fn from(_error: AllocFailed<T>) -> LinkError {
        LinkError::Memory
    }
}
