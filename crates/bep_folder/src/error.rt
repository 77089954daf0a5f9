//! Why a call of this crate is refused.
ghost use Rattle.std.specs.Prelude.{◌≡◌, ◌≢◌};
ghost use Rattle.bep_folder.specs.FolderError.{number_of, of_index, of_store};
ghost use Rattle.bep_folder.specs.declared.error.FolderError.TheVariants.{Memory};

use bep_index::IndexError;
use bep_store::StoreError;
use std::alloc::{AllocError, AllocFailed};
use thiserror::Error;

/// Why a call of this crate was refused.
#[derive(Clone, Copy, Debug, Error, PartialEq, Eq)]
pub enum FolderError {
    /// The device's counter has its greatest value.
    #[error("a counter is at its greatest value")]
    CounterFull,
    /// The version would have more than 16 counters.
    #[error("a version vector has at most 16 counters")]
    TooManyCounters,
    /// The conflict name would have more than 1024 bytes.
    #[error("the conflict name is too long")]
    NameBad,
    /// The index has given its greatest sequence number.
    #[error("the index has used all its sequence numbers")]
    SequenceFull,
    /// The index or the view would have more than 4096 names.
    #[error("an index has at most 4096 names")]
    IndexFull,
    /// The batch doesn't begin above what is known.
    #[error("the batch is old")]
    BatchOld,
    /// A call of the store failed.
    #[error("the store failed")]
    StoreFault,
    /// The store's node isn't what the own record says: no scan has seen it yet.
    #[error("the name wasn't scanned since it changed")]
    Unscanned,
    /// There is no pull, or nothing that the device needs.
    #[error("nothing is needed")]
    NotNeeded,
    /// A block of the target is missing.
    #[error("a block is missing")]
    BlocksMissing,
    /// The pull has no block at that place, or the bytes lack its size or hash.
    #[error("the bytes aren't the block's")]
    HashBad,
    /// Something else stands at the conflict name.
    #[error("another file stands at the conflict name")]
    CopyExists,
    /// The folder has 64 pulls.
    #[error("a folder has at most 64 pulls")]
    PullsFull,
    /// The folder's kind forbids it.
    #[error("the folder's kind forbids it")]
    KindForbids,
    /// The store holds another node now than the one that was scanned.
    #[error("the node changed since it was scanned")]
    Stale,
    /// The device doesn't share the folder.
    #[error("the device doesn't share the folder")]
    NotShared,
    /// There is nothing to do.
    #[error("there is nothing to do")]
    NothingToDo,
    /// Memory ran out.
    #[error("out of memory")]
    Memory,
}

impl FolderError {
    /// The number that the product prints; `Memory` has none.
    pub fn number(self) -> Option<u32>
        ensures { result ≡ number_of self }
    {
        match self {
            FolderError::CounterFull => Some(101),
            FolderError::TooManyCounters => Some(102),
            FolderError::NameBad => Some(103),
            FolderError::SequenceFull => Some(121),
            FolderError::IndexFull => Some(122),
            FolderError::BatchOld => Some(123),
            FolderError::StoreFault => Some(131),
            FolderError::Unscanned => Some(141),
            FolderError::NotNeeded => Some(142),
            FolderError::BlocksMissing => Some(143),
            FolderError::HashBad => Some(144),
            FolderError::CopyExists => Some(145),
            FolderError::PullsFull => Some(146),
            FolderError::KindForbids => Some(147),
            FolderError::Stale => Some(148),
            FolderError::NotShared => Some(162),
            FolderError::NothingToDo => Some(163),
            FolderError::Memory => None,
        }
    }
}

// The refusal of an index or a view. A record or a batch was given to it, so it never answers `BatchBad`.
pub(crate) fn index_error(error: IndexError) -> FolderError
    requires { error ≢ IndexError.BatchBad }
    ensures { result ≡ of_index error }
{
    match error {
        IndexError::SequenceFull => FolderError::SequenceFull,
        IndexError::IndexFull => FolderError::IndexFull,
        IndexError::BatchOld => FolderError::BatchOld,
        IndexError::Memory => FolderError::Memory,
        IndexError::BatchBad => unreachable!(),
    }
}

impl From<StoreError> for FolderError {
    ghost from_gives = { λ error e. e ≡ of_store error };

    fn from(error: StoreError) -> FolderError {
        match error {
            StoreError::Fault => FolderError::StoreFault,
            StoreError::Memory => FolderError::Memory,
        }
    }
}

impl From<AllocError> for FolderError {
    ghost from_gives = { λ _ e. e ≡ Memory };

    fn from(_error: AllocError) -> FolderError {
        FolderError::Memory
    }
}

impl<T: Drop> From<AllocFailed<T>> for FolderError {
    ghost from_gives = { λ _ e. e ≡ Memory };

    fn from(_error: AllocFailed<T>) -> FolderError {
        FolderError::Memory
    }
}
