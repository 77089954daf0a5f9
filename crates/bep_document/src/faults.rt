//! The faults of a document that have a place: a search for each kind, one after the other.
ghost use Rattle.std.specs.Prelude.{◌≡◌, IfOk};
ghost use Rattle.bep_document.specs.Reading.{first_fault};

mod holder;
mod judge;
mod links;
mod records;
mod sequences;
mod twice;
mod unshared;
mod walks;

use crate::{CheckParts, first_of};
pub use judge::{Found, Judge, first_fault};
pub use links::first_bad_link;
use records::first_bad;
pub use records::is_node;
use sequences::first_bad_sequence;
use std::alloc::Global;
pub use twice::first_twice;
use unshared::first_unshared;

// The first fault that has a place, or want of memory.
#[tactic(auto, unfolding(crate::specs::Reading::first_fault))]
pub(crate) fn fault_of(alloc: Global, parts: &CheckParts) -> Found
    ensures { IfOk result (λ found. found ≡ first_fault parts.now) }
{
    first_of!(
        first_twice(alloc, parts),
        first_unshared(alloc, parts),
        first_bad(alloc, parts),
        first_bad_sequence(alloc, parts),
        first_bad_link(alloc, parts)
    )
}
