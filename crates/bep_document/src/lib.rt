//! The check document: from bytes to plain lists of what it says, or to the one fault for which it is refused.
//!
//! What is read may still be no cut of a cluster that any device could have; but it has none of the faults that are
//! told by a number, and a law says what follows from that. A caller reads a document so:
//!
//!     match read_parts(alloc, bytes) {
//!         Ok(parts) => use_folders(parts.folders.as_slice()),
//!         Err(DocError::Refused(fault)) => tell(fault.fault.number(), fault.fault.name()),
//!         Err(DocError::Memory) => give_up(),
//!     }
#![tactic(auto)]

mod error;
mod fault;
mod faults;
mod laws;
mod parts;
mod read;
mod reading;
mod take;

pub use error::DocError;
pub use fault::{DocFault, Fault};
pub use faults::{Found, Judge, first_bad_link, first_fault, first_twice, is_node};
pub use laws::{faultless_parts_are_read, readings_are_faultless, records_are_told};
pub use parts::{CheckParts, FlightParts, FolderParts, LinkParts, RowParts, ShareParts, ViewParts};
pub use read::{Few, IndexNumber, doc_version, has_few_devices};
pub use reading::{
    MAX_BYTES, read_cut_document, read_cut_text, read_parts, refused, thing_told, unless_found,
    versioned_text,
};
