//! What prevails comes to all: cuts of which it can be said that they will come right by themselves, and that nothing is
//! lost on the way.
//!
//! ```rust
//! prevailing_goes_on();
//! ```
#![tactic(auto)]

mod after;
mod arrival;
mod bring;
mod converge_reason;
mod cut;
mod laws;
mod ready;
mod steps;

pub use after::{
    edit_makes_top, override_makes_top, revert_lets_in, scan_makes_top, scans_make_tops,
};
pub use arrival::{
    all_come, all_stay, behind_is_listed, bring_keeps, fewer_are_behind, scans_make_ready,
};
pub use bring::{bring_brings, bring_is_watched, cuts_are_reached};
pub use converge_reason::ConvergeReason;
pub use cut::{all_come_from_cuts, cuts_come_down};
pub use laws::{
    converge_verdict_is_unique, converging_is_faultless, end_is_firm, orderly_runs_are_free,
    prevailing_is_unique, runs_keep_prevailing, steps_keep_prevailing, takes_are_bounded,
    top_stays,
};
pub use ready::{edit_makes_ready, override_makes_ready, revert_makes_ready};
pub use steps::{
    cuts_have_hashes, prevailing_goes_on, runs_are_orderly, steps_are_orderly, steps_keep_hashes,
};
