//! What a cut means: which names are known, who wins them, when the cut is settled, and what then stays as it is.
//!
//! Nearly all of this crate is definitions, in `specs/`, and the laws that follow from them. A law is a function that
//! does nothing: whoever calls it has its contract.
//!
//! ```rust
//! pub fn settled_is_told_once()
//!     ensures { VerdictIsUnique }
//! {
//!     verdict_is_unique();
//! }
//! ```
#![tactic(auto)]

pub mod examples;
mod firm_reason;
mod flight;
mod laws;
mod reason;
mod row;

pub use firm_reason::FirmReason;
pub use flight::Flight;
pub use laws::{
    calm_is_settled_again, calm_stays, certificate_is_unique, firm_is_faultless, firm_stays_firm,
    firm_verdict_is_unique, reasons_are_numbered, rows_rise_in_order, settled_is_calm,
    settled_is_faultless, verdict_exists, verdict_is_unique, winner_is_unique,
    winners_or_first_without,
};
pub use reason::Reason;
pub use row::Row;
