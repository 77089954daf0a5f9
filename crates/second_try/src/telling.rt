//! What is told, and whether anything was asked for twice.
use std::alloc::Global;

/// What is told so far.
#[derive(Drop)]
pub(crate) struct Told {
    /// The text.
    pub(crate) text: Vec<u8>,
    /// Whether memory was wanting for something, so that it was asked for twice.
    pub(crate) is_twice: bool,
}

impl Told {
    /// Nothing so far.
    pub(crate) fn new(alloc: Global) -> Self {
        Told {
            text: Vec::new(alloc),
            is_twice: false,
        }
    }
}

/// What was asked for. Where memory was wanting it is asked for once more, and that is noted.
///
///     twice!(told; table.copy(alloc))
#[macro_export]
macro_rules! twice {
    ($told:expr; $asked:expr) => {
        match $asked {
            Ok(made) => Ok(made),
            Err(_) => {
                $told.is_twice = true;
                $asked
            }
        }
    };
}
