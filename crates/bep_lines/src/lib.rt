//! The lines that the program prints, and the forms in which it answers.
//!
//! A line comes to a text as a whole, or not at all where memory runs out:
//!
//!     let mut text = Vec::new(alloc);
//!     push_not_settled(&mut text, Reason::ViewAhead, &folder, &name, Some(device))?;
#![tactic(auto)]

mod form;
mod laws;
mod lines;
mod text;
mod words;

pub use form::Form;
pub use laws::lines_tell_verdicts;
pub use lines::{
    push_failure, push_firm, push_folder, push_not_firm, push_not_settled, push_reason,
    push_refused, push_settled, push_step,
};
pub use text::{Piece, or_as_before, push_pieces, push_printed};
pub use words::{firm_word_of, word_of};
