//! What the program answers to a scenario whose cluster goes on in threads: its steps are made, threads make so many turns
//! each, and the cut that is taken then is audited, or written, with the verdict on the logs of devices and links.
//!
//!     match live_text(&rt, &mut reader, &mut writer, 3)? {
//!         Outcome::Settled => ..,
//!         Outcome::NotSettled => ..,
//!         Outcome::Refused => ..,
//!     }
//!
//! `live_and_tell` also tells on standard error where a refused scenario is at fault, and answers the exit status;
//! `live_document_and_tell` writes the check document of the cut in place of the report. Without turns it is `bep_play` that
//! answers, and no thread is begun.
#![tactic(auto)]

mod answers;
mod document;
mod lines;
mod living;
mod logs;
mod report;
mod told;

pub use answers::live_text;
pub use lines::push_run;
pub use told::{live_and_tell, live_document_and_tell};
