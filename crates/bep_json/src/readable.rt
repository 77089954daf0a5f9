//! What a JSON value may say, and what can be read from a JSON tree.
ghost use Rattle.std.specs.Prelude.{◌≡◌, Bool, Option};
ghost use Rattle.serde_json.specs.Data.{Data};
ghost use Rattle.bep_tree.specs.View.{view};
ghost use Rattle.bep_json.specs.declared.version.DocVersion.{DocVersion as VersionOf};
ghost use Rattle.bep_json.specs.Reading.{Gives};

use crate::{DocVersion, ReadError};
use bep_tree::Tree;
use std::alloc::Global;

/// A thing that a JSON value may say.
pub trait Shaped {
    /// Which values of a document of a version have the thing's shape.
    ghost has_shape: { VersionOf → Data → Bool };

    /// Which thing a value of a document of a version stands for, where each of its parts is inside its range.
    ghost reads: { VersionOf → Data → Option Self };
}

/// A thing that can be read from a JSON tree.
pub trait Readable: Shaped + Drop + Sized {
    /// Whether the value has the thing's shape: its members, and their kinds.
    fn has_shape(version: DocVersion, value: &Tree<'_>) -> bool
        ensures { result ≡ Self.has_shape version (view value.now) };

    /// The thing that the value stands for. `Range` where there is none; `Memory` may come in place of any answer.
    fn read(alloc: Global, version: DocVersion, value: &Tree<'_>) -> Result<Self, ReadError>
        ensures { Gives result (Self.reads version (view value.now)) };
}
