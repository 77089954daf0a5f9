//! What the words of the command line ask the program for.
//!
//! The program's one use of clap stands apart from what the program does then. So neither waits for the other to be
//! proved:
//!
//!     match mode_of(alloc, &words)? {
//!         Mode::Check(under) => ..,
//!         Mode::Firm(under) => ..,
//!         Mode::Certify(extent) => ..,
//!         Mode::Explain(goal, under, form) => ..,
//!         Mode::Rows(goal, reasons) => ..,
//!         Mode::Run(ending, turns) => ..,
//!     }
#![tactic(auto)]

mod command;
mod help;
mod mode;
mod release;
mod told;
mod turns;

pub use mode::{Ending, Extent, Goal, Mode, Reasons, Under, faultless_words_ask, mode_of};
pub use told::{Unfollowed, mode_told, why_of};
pub use turns::MAX_TURNS;
