//! The report on a cut, and the bytes that come in and go out. Its lines are those of `bep_lines`, which needs no
//! auditor. All names of that crate but one are given on here.
//!
//! A text is made in memory and then written. So no line is half printed if memory runs out:
//!
//!     let mut text = Vec::new(alloc);
//!     push_report(alloc, &mut text, &cut, &check_plain(&cut, &certificate))?;
//!     write_all(writer, text.as_slice())?;
#![tactic(auto)]

mod certificate;
mod deleted;
mod error;
mod input;
mod known;
mod output;
mod reporting;
mod written;

pub use bep_lines::{
    Form, Piece, firm_word_of, push_failure, push_firm, push_folder, push_not_firm,
    push_not_settled, push_pieces, push_printed, push_reason, push_refused, push_settled,
    push_step, word_of,
};
pub use certificate::{push_certificate, push_certificate_2};
pub use error::ReportError;
pub use input::read_document;
pub use output::write_all;
pub use reporting::{
    push_firm_report, push_firm_report_by, push_folders_by, push_report, push_report_by,
};
pub use written::{certificate_text, certificate_text_2, report};
