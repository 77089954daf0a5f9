//! What the program answers to a stream of rows where all that fails of each name is explained.
//!
//! The rows are read and judged as `bep_rows_answer` does; of each name that isn't what is asked all reasons are written, with
//! details, as `bep_explain` writes them of the cut that has this name alone:
//!
//!     let mut auditor = Explaining::of(alloc, Aim::Settled);
//!     let outcome = answer_rows(alloc, &mut auditor, &mut reader, &mut writer)?;
#![tactic(auto)]

mod explaining;
mod told;

pub use explaining::Explaining;
pub use told::{explain_firm_rows_and_tell, explain_rows_and_tell};
