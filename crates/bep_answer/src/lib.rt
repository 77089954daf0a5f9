//! What the auditor's program answers to a document, from the bytes that come in to the bytes that go out.
//!
//! It stands apart from the program, which adds the words of its command line:
//!
//!     match check_text(alloc, &mut reader, &mut writer)? {
//!         Outcome::Settled => ..,
//!         Outcome::NotSettled => ..,
//!         Outcome::Refused => ..,
//!     }
//!
//! `firm_text` asks for firm in place of settled, and `certify_text` writes the document with its certificate.
//! `check_and_tell`, `firm_and_tell`, `certify_and_tell` and `certify_partly_and_tell` also tell a person a hint,
//! and answer the exit status; `check_under_winners_and_tell` and `firm_under_winners_and_tell` certify a cut and audit it
//! under that certificate at once. `exchange` answers whatever question is asked of a document: these here, all that fails
//! (`bep_explain`), or where a scenario leads (`bep_play`).
#![tactic(auto)]

mod answers;
mod certify;
mod check;
mod exchanging;
mod firm;
mod laws;
mod outcome;
mod partial;
mod person;
mod refusing;
mod status;
mod told;
mod under_winners;

pub use answers::{certify_text, check_text, firm_text};
pub use certify::{CertificateOfCut, certify_cut};
pub use check::{AuditOfCut, outcome_of};
pub use exchanging::{Answer, Beside, Hinted, Question, exchange, lines_beside};
pub use firm::{FirmnessOfCut, firmness_of};
pub use laws::{answers_are_unique, certify_then_check};
pub use outcome::{Certified, Firmness, Outcome, Partial};
pub use partial::PartOfCut;
pub use person::{Person, Said, StandardError};
pub use refusing::{fault_line, hint_for, refusal};
pub use status::{USAGE, certified_status_of, firm_status_of, partial_status_of, status_of};
pub use told::{
    certify_and_tell, certify_partly_and_tell, check_and_tell, check_under_winners_and_tell, end,
    end_certified, end_firm, firm_and_tell, firm_under_winners_and_tell, tell,
};
pub use under_winners::{AuditUnderWinners, FirmnessUnderWinners, audit_under_winners};
