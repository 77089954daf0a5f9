//! The bytes of a block on their way.
ghost use Rattle.std.specs.Prelude.{◌≡◌, [], IfOk};

use bep_record::{Items, Same};
use std::alloc::{AllocError, Global};
use std::marker::Model;
use std::sync::Arc;

/// The bytes that a response brings.
///
/// Copies share them. So a copy takes no memory, unless too many share them to be counted. Each response is copied, so that
/// its sender can tell of it.
#[derive(Debug)]
pub struct Bytes {
    shared: Option<Arc<Items<u8>, Global>>,
}

// By hand: a caller's proof then sees one call where it lets go of one, and not each field (docs/developing.md).
impl Drop for Bytes {
    fn drop(self) {
        let Bytes { shared: _ } = self;
    }
}

impl Model for Bytes {
    ghost use Rattle.std.specs.Prelude.{ℕ, List, [], option_map, unwrap_or};
    ghost use Rattle.std.specs.Arc.{arc_value};

    ghost Value = { List ℕ };

    ghost view = { λ bytes. unwrap_or (option_map arc_value bytes.shared) [] };
}

impl Bytes {
    /// No bytes. It takes no memory.
    pub fn none() -> Self
        ensures { result ≡ [] }
    {
        Bytes { shared: None }
    }

    /// These bytes, or want of memory.
    pub fn of(bytes: Vec<u8>) -> Result<Self, AllocError>
        ensures { IfOk result (λ made. made ≡ bytes.items) }
    {
        Ok(Bytes {
            shared: Some(Arc::new(*bytes.allocator(), Items::new(bytes))?),
        })
    }

    /// The bytes, in order.
    pub fn as_slice(&self) -> &[u8]
        ensures { result.now ≡ self.now }
    {
        match &self.shared {
            Some(shared) => shared.as_slice(),
            None => &[],
        }
    }

    /// Equal bytes, or want of memory. They are these ones, shared. Only where too many share them to be counted are they
    /// copied.
    pub fn copy(&self, alloc: Global) -> Result<Self, AllocError>
        ensures { IfOk result (λ made. made ≡ self.now) }
    {
        let Some(shared) = &self.shared else {
            return Ok(Bytes::none());
        };
        match Arc::try_clone(shared) {
            Ok(again) => Ok(Bytes {
                shared: Some(again),
            }),
            Err(_) => Bytes::of(Vec::from_slice(alloc, shared.as_slice())?),
        }
    }
}

impl Same for Bytes {
    fn same(&self, other: &Bytes) -> bool {
        self.as_slice() == other.as_slice()
    }
}
