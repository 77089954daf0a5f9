//! Why a cut doesn't converge, in full: every reason that fails, at each place at which it fails, from a document's bytes to the
//! exit status.
//!
//! `bep_converge_answer` tells the first of these alone.
//!
//!     let status = explain_converge_and_tell(&rt, Form::Text, &mut reader, &mut writer);
#![tactic(auto)]

mod as_json;
mod document;
mod telling;
mod text;

pub use as_json::converge_explanation_json;
pub use document::{HindrancesOfCut, explain_converge_and_tell, explain_convergence};
pub use text::converge_explanation;
