//! All that fails of a document, from the bytes that come in to the bytes that go out.

mod answers;
mod explain;
mod firm;
mod refusals;
mod under_winners;

pub use answers::{
    explain_and_tell, explain_firm_and_tell, explain_firm_under_winners_and_tell, explain_text,
    explain_under_winners_and_tell,
};
pub use explain::{ReasonsOfCut, fault_in};
pub use firm::FirmReasonsOfCut;
pub use under_winners::{
    FirmReasonsUnderWinners, ReasonsUnderWinners, explain_firm_under_winners, explain_under_winners,
};
