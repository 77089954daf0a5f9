//! Why a cut isn't settled, in full: every reason that fails, at each place at which it fails.
//!
//! The checkers of `bep_audit` tell the first of these alone. A caller asks for all, and prints them with what a
//! person asks next of each:
//!
//!     let found = failures(alloc, &cut, &certificate)?;
//!     let text = explanation(alloc, &cut, certificate.rows(), found.as_slice())?;
//!
//! or, as JSON,
//!
//!     let text = explanation_json(alloc, &cut, certificate.rows(), found.as_slice())?;
//!
//! `loosenings` has all that keeps a cut from being firm beside these, and `firm_explanation` and `firm_explanation_json` print
//! both.
//!
//! `document` answers so from the bytes that come in to the bytes that go out, as `bep_answer` does for the first reason:
//! `explain_text`, and with the exit status `explain_and_tell` and `explain_firm_and_tell`;
//! `explain_under_winners_and_tell` and `explain_firm_under_winners_and_tell` explain a cut under the winners of its names, as
//! `explain_under_winners` and `explain_firm_under_winners` do for a caller that has the cut.
//!
//! A crate that tells of something else that fails looks its details up: `Lookup`, `details_told`, and as lines `lines_of` and
//! `push_details`, or as JSON `write_reason` and `line_of`.
#![tactic(auto)]

mod as_json;
mod by_name;
mod collect;
mod coming;
mod detail;
mod details;
mod details_json;
mod differing;
mod document;
mod firm_json;
mod gather;
mod lines;
mod lookup;
mod loose;
mod missing;
mod none;
mod rows;
mod sources;
mod telling;
mod text;
mod unwon;

pub use as_json::{explanation_json, line_of, write_reason};
pub use detail::Detail;
pub use document::{
    FirmReasonsOfCut, FirmReasonsUnderWinners, ReasonsOfCut, ReasonsUnderWinners, explain_and_tell,
    explain_firm_and_tell, explain_firm_under_winners, explain_firm_under_winners_and_tell,
    explain_text, explain_under_winners, explain_under_winners_and_tell, fault_in,
};
pub use firm_json::firm_explanation_json;
pub use gather::failures;
pub use lines::lines_of;
pub use lookup::{Lookup, OfOne};
pub use loose::loosenings;
pub use telling::{Telling, details_told};
pub use text::{explanation, firm_explanation, push_details};
