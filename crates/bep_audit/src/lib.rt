//! The auditor: whether a cut and a certificate are settled, or the first reason why not, and the certificate of a cut.
//!
//! `check` and `check_plain` answer the verdict, and `certify` the certificate. Of a store they believe no recorded
//! hash: they hash the bytes that stand there. `check` walks once over the names of the cut, which it groups for that;
//! `check_plain` looks for one reason after the other, and takes no memory. A caller reads a document and asks:
//!
//!     let (cut, rows) = read_check(alloc, bytes)?;
//!     match check(alloc, &cut, &Certificate::of(rows))? {
//!         Verdict::Settled => ..,
//!         Verdict::Not(reason, folder, name, device) => ..,
//!     }
#![tactic(auto)]

mod candidates;
mod certifier;
mod checkers;
mod error;
mod failing;
mod failure;
mod faultless;
mod firm;
mod foreign;
mod group;
mod group_row;
mod known;
mod least;
mod loose;
mod missing;
mod missing_held;
mod missing_on_its_way;
mod owns;
mod rows;
mod share;
mod spot;
mod stored;
mod verdict;
mod walk;
mod winner;

pub use bep_model::{FirmReason, Reason};
pub use certifier::{certify, certify_grouped, winners};
pub use checkers::{REASONS, check, check_grouped, check_plain};
pub use error::CertifyError;
pub use failing::meets_asked;
pub use failure::Failure;
pub use firm::{
    FirmVerdict, entries_are_asked, firm_verdict, firm_verdict_grouped, loosening_of, meets_row,
    meets_rows,
};
pub use group::{group_says, has_known, meets_beside};
pub use known::is_known;
pub use loose::Looseness;
pub use rows::{Certificate, compare_row, compare_rows, find_row, first_disordered};
pub use share::{
    is_harmless, is_there, is_valid, meets_share, says_as_winner, share_is_asked, store_holds,
};
pub use spot::Spot;
pub use verdict::Verdict;
pub use winner::{holds_winner, is_winner, winner_in, winner_of};
