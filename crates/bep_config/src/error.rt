//! Why something of this crate is refused.
ghost use Rattle.std.specs.Prelude.{◌≡◌};
ghost use Rattle.bep_config.specs.ConfigError.{number_of};
ghost use Rattle.bep_config.specs.declared.error.ConfigError.TheVariants.{Memory};

use std::alloc::{AllocError, AllocFailed};
use thiserror::Error;

/// Why a call of this crate was refused.
#[derive(Clone, Copy, Debug, Error, PartialEq, Eq)]
pub enum ConfigError {
    /// The configuration would break one of its rules.
    #[error("no configuration may be so")]
    ConfigBad,
    /// Memory ran out.
    #[error("out of memory")]
    Memory,
}

impl ConfigError {
    /// The number that the product prints; `Memory` has none.
    pub fn number(self) -> Option<u32>
        ensures { result ≡ number_of self }
    {
        match self {
            ConfigError::ConfigBad => Some(164),
            ConfigError::Memory => None,
        }
    }
}

impl From<AllocError> for ConfigError {
    ghost from_gives = { λ _ e. e ≡ Memory };

    fn from(_error: AllocError) -> ConfigError {
        ConfigError::Memory
    }
}

impl<T: Drop> From<AllocFailed<T>> for ConfigError {
    ghost from_gives = { λ _ e. e ≡ Memory };

    fn from(_error: AllocFailed<T>) -> ConfigError {
        ConfigError::Memory
    }
}
