//! How a record compares with the own record.
ghost use Rattle.std.specs.Prelude.{◌≡◌, ◌↔◌, IsTrue};
ghost use Rattle.std.specs.Option.{option_copied};
ghost use Rattle.bep_machine.specs.Replica.{HasContentOf, version_of};

use bep_record::{Record, Vector};

/// Whether the record has the content of the own one, if there is one. It takes no memory.
pub fn has_content_of(own: Option<&Record>, other: &Record) -> bool
    ensures { IsTrue result ↔ HasContentOf (option_copied own.entry) other.now }
{
    match own {
        None => false,
        Some(own) => other.same_content(own),
    }
}

// The own record's version; without a record it is empty.
pub(crate) fn version_of(own: Option<&Record>) -> Vector
    ensures { result ≡ version_of (option_copied own.entry) }
{
    match own {
        None => Vector::empty(),
        Some(own) => own.entry().version.vector(),
    }
}
