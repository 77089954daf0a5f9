//! A row's text: what it says beside its header, or why it is refused.
#![tactic(auto)]

mod cell;
mod faults;
mod listed;
mod making;
mod reading;
mod row;
mod text;
mod within;

pub use listed::Listed;
pub use reading::read_row;
pub use text::{CellText, Place, RowText, ViewText};
