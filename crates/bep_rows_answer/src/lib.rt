//! What the program answers to a stream of rows: a line for each name at fault as it comes, then the verdict and the counts.
//!
//! Rows are read one by one, and each is forgotten once it is answered:
//!
//!     let outcome = rows_text(alloc, Aim::Settled, &mut reader, &mut writer)?;
//!
//! What is answered to each row, and at the end, is up to an `Auditor`. `UnderWinners` is the one of `rows_text`; a crate above
//! that answers something else has one of its own, for the same reader:
//!
//!     let outcome = answer_rows(alloc, &mut auditor, &mut reader, &mut writer)?;
#![tactic(auto)]

mod auditor;
mod counts;
mod header;
mod input;
mod lines;
mod outcome;
mod rows;
mod stream;
mod told;
mod under_winners;

pub use auditor::Auditor;
pub use bep_rows::Aim;
pub use counts::FolderCount;
pub use input::{MAX_LINE, Next};
pub use outcome::RowsOutcome;
pub use rows::Rows;
pub use stream::{answer_rows, rows_text};
pub use told::{answer_and_tell, answer_firm_and_tell, firm_rows_and_tell, rows_and_tell};
pub use under_winners::UnderWinners;
