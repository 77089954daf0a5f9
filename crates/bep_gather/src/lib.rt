//! Lists of all that fails, for proofs: what is added to them, and that they have each once, in order. No code runs: they stand
//! in `specs/`.
//!
//! ```text
//! use Rattle.bep_gather.specs.Adding.{AddsFailing}
//! ```
#![tactic(auto)]
