//! Why there is no tree.
ghost use Rattle.std.specs.Prelude.{◌≡◌};
ghost use Rattle.bep_tree.specs.declared.error.TreeError.TheVariants.{Memory};

use std::alloc::AllocError;
use thiserror::Error;

/// Why bytes have no tree.
#[derive(Clone, Copy, Debug, PartialEq, Eq, Error)]
pub enum TreeError {
    /// They aren't JSON in UTF-8, as `serde_json` reads it.
    #[error("the bytes aren't JSON")]
    NotJson,
    /// Memory ran out.
    #[error("memory ran out")]
    Memory,
}

impl From<AllocError> for TreeError {
    ghost from_gives = { λ _ e. e ≡ Memory };

    fn from(_error: AllocError) -> Self {
        TreeError::Memory
    }
}
