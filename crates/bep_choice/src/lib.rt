//! Which record a device chooses among those that it knows of a name, and whether it needs the chosen one.
//!
//! `choose` gives the place of the choice among the candidates, and `needed` says whether the choice is wanted. Neither
//! takes memory. `laws` has what holds of each choice.
//!
//! ```rust
//! let is_wanted = match choose(me, candidates) {
//!     Some(place) => needed(FolderKind::SendReceive, own, candidates[place].1),
//!     None => false,
//! };
//! ```
#![tactic(auto)]

mod choice;
pub mod laws;
mod need;

pub use bep_record::FolderKind;
pub use choice::choose;
pub use need::needed;
