//! Why an action is refused.
ghost use Rattle.std.specs.Prelude.{◌≡◌, IfErr};
ghost use Rattle.bep_machine.specs.Answer.{number_of as number_of_refusal};
ghost use Rattle.bep_peer.specs.PeerError.{number_of};
ghost use Rattle.bep_peer.specs.Within.{IsOfStep, answer_of, error_of};
ghost use Rattle.bep_peer.specs.declared.error.PeerError.TheVariants.{Memory};

use bep_folder::FolderError;
use bep_machine::Refusal;
use std::alloc::{AllocError, AllocFailed};
use thiserror::Error;

/// Why an action of a device was refused.
#[derive(Clone, Copy, Debug, Error, PartialEq, Eq)]
pub enum PeerError {
    /// The step was refused.
    #[error("the step is refused")]
    Refused(Refusal),
    /// The store has another node now than the one that was scanned.
    #[error("the file changed since it was scanned")]
    Stale,
    /// Memory ran out.
    #[error("out of memory")]
    Memory,
}

impl From<AllocError> for PeerError {
    ghost from_gives = { λ _ e. e ≡ Memory };

    fn from(_error: AllocError) -> PeerError {
        PeerError::Memory
    }
}

impl<T: Drop> From<AllocFailed<T>> for PeerError {
    ghost from_gives = { λ _ e. e ≡ Memory };

    fn from(_error: AllocFailed<T>) -> PeerError {
        PeerError::Memory
    }
}

impl PeerError {
    /// The number that the product prints; `Memory` has none.
    pub fn number(self) -> Option<u32>
        ensures { result ≡ number_of self }
    {
        match self {
            PeerError::Refused(refusal) => Some(number_of(refusal)),
            PeerError::Stale => Some(148),
            PeerError::Memory => None,
        }
    }
}

fn number_of(refusal: Refusal) -> u32
    ensures { result ≡ number_of_refusal refusal }
{
    match refusal {
        Refusal::CounterFull => 101,
        Refusal::TooManyCounters => 102,
        Refusal::NameBad => 103,
        Refusal::SequenceFull => 121,
        Refusal::IndexFull => 122,
        Refusal::StoreFault => 131,
        Refusal::Unscanned => 141,
        Refusal::NotNeeded => 142,
        Refusal::BlocksMissing => 143,
        Refusal::CopyExists => 145,
        Refusal::PullsFull => 146,
        Refusal::KindForbids => 147,
        Refusal::IndexIdOld => 149,
        Refusal::LinkDown => 151,
        Refusal::LinkFull => 152,
        Refusal::EpochFull => 153,
        Refusal::NotBegun => 161,
        Refusal::NotShared => 162,
        Refusal::NothingToDo => 163,
    }
}

/// What a folder's call answers, as this crate's. The caller sees to it that the call is a step or a commit.
pub(crate) fn answered<T: Drop>(answer: Result<T, FolderError>) -> Result<T, PeerError>
    requires { IfErr answer IsOfStep }
    ensures { result ≡ answer_of answer }
{
    match answer {
        Ok(done) => Ok(done),
        Err(error) => Err(error_of(error)),
    }
}

fn error_of(error: FolderError) -> PeerError
    requires { IsOfStep error }
    ensures { result ≡ error_of error }
{
    match error {
        FolderError::Memory => PeerError::Memory,
        FolderError::Stale => PeerError::Stale,
        FolderError::CounterFull => PeerError::Refused(Refusal::CounterFull),
        FolderError::TooManyCounters => PeerError::Refused(Refusal::TooManyCounters),
        FolderError::NameBad => PeerError::Refused(Refusal::NameBad),
        FolderError::SequenceFull => PeerError::Refused(Refusal::SequenceFull),
        FolderError::IndexFull => PeerError::Refused(Refusal::IndexFull),
        FolderError::StoreFault => PeerError::Refused(Refusal::StoreFault),
        FolderError::Unscanned => PeerError::Refused(Refusal::Unscanned),
        FolderError::NotNeeded => PeerError::Refused(Refusal::NotNeeded),
        FolderError::BlocksMissing => PeerError::Refused(Refusal::BlocksMissing),
        FolderError::CopyExists => PeerError::Refused(Refusal::CopyExists),
        FolderError::PullsFull => PeerError::Refused(Refusal::PullsFull),
        FolderError::KindForbids => PeerError::Refused(Refusal::KindForbids),
        FolderError::NotShared => PeerError::Refused(Refusal::NotShared),
        FolderError::NothingToDo => PeerError::Refused(Refusal::NothingToDo),
        FolderError::BatchOld | FolderError::HashBad => unreachable!(),
    }
}
