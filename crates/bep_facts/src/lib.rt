//! Facts of lists, orders and maps on which the proofs of several crates rest. No code runs: they stand in `specs/`.
//!
//! ```text
//! use Rattle.bep_facts.specs.Maps.{get-insert_here}
//! ```
#![tactic(auto)]
