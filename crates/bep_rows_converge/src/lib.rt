//! What the program answers to a stream of rows where it is asked whether the cut converges: a line for each name that doesn't as it
//! comes, then the verdict and how far the names of each folder have come.
//!
//!     let mut auditor = Converging::new(alloc);
//!     let outcome = answer_rows(alloc, &mut auditor, &mut reader, &mut writer)?;
//!
//! `ConvergeExplaining` has all reasons in place of that line, with details.
#![tactic(auto)]

mod converging;
mod explaining;
mod pairs;
mod standing;
mod told;

pub use converging::Converging;
pub use explaining::ConvergeExplaining;
pub use pairs::FolderPairs;
pub use standing::ConvergeStanding;
pub use told::{converge_rows_and_tell, explain_converge_rows_and_tell};
