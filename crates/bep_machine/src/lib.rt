//! A cluster of devices that replicate folders, each of its steps, and what holds after every list of steps.
//!
//! Nearly all of this crate is definitions, in `specs/`, and the laws that follow from them.
#![tactic(auto)]

mod bytes;
mod calm;
mod determined;
mod effects;
mod files;
mod finite;
mod free;
mod gapless;
mod halves;
mod headline;
mod limits;
mod link_effects;
mod logged;
mod message;
mod moved;
mod refusal;
mod same;
mod sound;
mod step;
mod undone;

pub use bytes::Bytes;
pub use calm::{quiet_steps_keep_calm, quiet_steps_keep_records};
pub use determined::{replays_are_determined, runs_are_determined, steps_are_determined};
pub use effects::{
    finish_adopts, finish_drops, override_wins, revert_takes_back, scan_records, start_pull_begins,
    users_change_files, wanted_is_newer,
};
pub use files::{finish_keeps_files, revert_keeps_files};
pub use finite::clusters_are_finite;
pub use free::{firm_stays_put, runs_are_free, steps_are_free};
pub use gapless::{runs_are_gapless, same_point_same_index};
pub use halves::{
    actions_are_told, halves_make_the_step, own_events_replay, replays_are_there,
    replays_keep_folders, replays_run, run_replays, step_has_halves,
};
pub use headline::{settled_stays_put, settled_stays_settled};
pub use limits::{MAX_EPOCH, MAX_OUTSTANDING, MAX_REQUEST_ID};
pub use link_effects::{
    begin_opens_session, block_is_asked_for, block_is_received, breach_loses_link, config_is_taken,
    links_come_and_go, records_are_announced, records_reach_view, request_is_answered,
    unasked_is_ignored,
};
pub use logged::{Exchanged, Logged, Traffic};
pub use message::{Announced, Code, Message, Request, Response};
pub use moved::Moved;
pub use refusal::Refusal;
pub use sound::{message_is_sound, steps_keep_sound};
pub use step::Step;
pub use undone::undone_steps_leave_all;
