//! Why an action isn't made.
ghost use Rattle.std.specs.Prelude.{◌≡◌};
ghost use Rattle.bep_log.specs.LogError.{answer_of, number_of, of_link, of_peer};
ghost use Rattle.bep_log.specs.declared.error.LogError.TheVariants.{Memory};

use bep_links::LinkError;
use bep_machine::Refusal;
use bep_peer::PeerError;
use std::alloc::{AllocError, AllocFailed};
use thiserror::Error;

/// Why an action that is logged was refused.
#[derive(Clone, Copy, Debug, Error, PartialEq, Eq)]
pub enum LogError {
    /// The ticket isn't above the last one of each log.
    #[error("the ticket isn't above the last one")]
    TicketOld,
    /// A log has no room for an event more.
    #[error("the log is full")]
    LogFull,
    /// The step was refused.
    #[error("the step is refused")]
    Refused(Refusal),
    /// The store has another node now than the one that was scanned.
    #[error("the file changed since it was scanned")]
    Stale,
    /// Memory ran out.
    #[error("out of memory")]
    Memory,
}

impl From<AllocError> for LogError {
    ghost from_gives = { λ _ e. e ≡ Memory };

    fn from(_error: AllocError) -> LogError {
        LogError::Memory
    }
}

impl<T: Drop> From<AllocFailed<T>> for LogError {
    ghost from_gives = { λ _ e. e ≡ Memory };

    fn from(_error: AllocFailed<T>) -> LogError {
        LogError::Memory
    }
}

impl From<PeerError> for LogError {
    ghost from_gives = { λ error e. e ≡ of_peer error };

    fn from(error: PeerError) -> LogError {
        match error {
            PeerError::Refused(refusal) => LogError::Refused(refusal),
            PeerError::Stale => LogError::Stale,
            PeerError::Memory => LogError::Memory,
        }
    }
}

impl From<LinkError> for LogError {
    ghost from_gives = { λ error e. e ≡ of_link error };

    fn from(error: LinkError) -> LogError {
        match error {
            LinkError::LinkDown => LogError::Refused(Refusal::LinkDown),
            LinkError::LinkFull => LogError::Refused(Refusal::LinkFull),
            LinkError::EpochFull => LogError::Refused(Refusal::EpochFull),
            LinkError::NothingToDo => LogError::Refused(Refusal::NothingToDo),
            LinkError::Memory => LogError::Memory,
        }
    }
}

impl LogError {
    /// The number that the product prints; want of memory has none.
    pub fn number(self) -> Option<u32>
        ensures { result ≡ number_of self }
    {
        match self {
            LogError::TicketOld => Some(171),
            LogError::LogFull => Some(172),
            LogError::Refused(refusal) => PeerError::Refused(refusal).number(),
            LogError::Stale => PeerError::Stale.number(),
            LogError::Memory => None,
        }
    }
}

// What the device answered, as this crate's answer.
pub(crate) fn answered<T: Drop>(answer: Result<T, PeerError>) -> Result<T, LogError>
    ensures { result ≡ answer_of answer }
{
    match answer {
        Ok(done) => Ok(done),
        Err(error) => Err(LogError::from(error)),
    }
}
