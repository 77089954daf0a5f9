//! A cut of a cluster and a certificate for it, read from a check document and written to it. A caller reads one so:
//!
//!     let (cut, rows) = read_check(alloc, bytes)?;
//!     for shared in cut.folders() {
//!         for (name, _) in cut.known_names(alloc, &shared.folder)?.iter() { .. }
//!     }
//!
//! `bep_document` says what a document lists and why it is refused. `bep_tables` says what a cut is, and knows of no
//! documents.
#![tactic(auto)]

mod laws;
mod reading;
mod records;
mod sorting;
mod value;
mod whole;
mod writing;
mod written;

pub use bep_document::{DocError, DocFault, Fault, MAX_BYTES};
pub use bep_json::DocVersion;
pub use laws::{cut_is_as_written, cuts_of_documents_have_room, winners_are_in_range};
pub use reading::{read_check, read_cut};
pub use value::CutValue;
pub use whole::check_document;
