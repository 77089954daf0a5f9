//! What the program answers where it is asked whether the cut of a document converges, from the bytes that come in to the exit
//! status.
#![tactic(auto)]

mod answer;
mod lines;
mod outcome;
mod progress;
mod status;
mod told;

pub use answer::ConvergenceOfCut;
pub use lines::{converge_word_of, push_convergence, push_converging, push_progress};
pub use outcome::Convergence;
pub use status::converge_status_of;
pub use told::{converge_and_tell, end_converge};
