//! What the program answers to a scenario: its steps are made, and where they lead is audited, or written.
//!
//!     match run_text(alloc, &mut reader, &mut writer)? {
//!         Outcome::Settled => ..,
//!         Outcome::NotSettled => ..,
//!         Outcome::Refused => ..,
//!     }
//!
//! `run_and_tell` also tells on standard error where a refused scenario is at fault, and answers the exit status;
//! `run_document_and_tell` writes the check document of the end in place of the report. What is answered to a document
//! stands below (`bep_answer`), and needs no peers. Of what goes on in threads after the steps, `bep_live` tells.
#![tactic(auto)]

mod answers;
mod document;
mod ending;
mod laws;
mod play;
mod run;
mod told;

pub use answers::run_text;
pub use document::{DocumentOfEnd, lines_of};
pub use ending::report_on_cut;
pub use laws::ends_are_unique;
pub use play::played;
pub use run::ReportOnEnd;
pub use told::{run_and_tell, run_document_and_tell};
