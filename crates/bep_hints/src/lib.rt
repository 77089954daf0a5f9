//! Where a document that is refused is at fault, in a sentence for a person.
//!
//! A refusal tells a number and a name; this looks through the document once more, only then, for what may help: where
//! it isn't JSON, or the first member that is missing, isn't known or isn't what it should be. No contract speaks of
//! what is said, only of which document was expected; it takes one line.
//!
//!     if outcome == Outcome::Refused {
//!         let hint = hint_at(alloc, bytes, Expected::Check);
//!     }
#![tactic(auto)]

mod breaks;
mod leaves;
mod level;
mod members;
mod scenario;
mod sentence;
mod survey;
mod vectors;
mod walk;
mod wrong;

pub use members::Expected;
pub use sentence::{Hint, NotFound, hint_at};
