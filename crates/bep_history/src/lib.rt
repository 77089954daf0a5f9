//! One history of a running cluster's events: a counter of tickets, and seats that know its parts.
//!
//! The history exists in contracts alone. A seat owns some objects, and knows of each which events of the history touch it.
//! It can draw a ticket, add an event under it to all objects that the event touches, and be split and joined: whose seat
//! knows all objects knows that their parts are of one history, and so that their logs fit.
#![tactic(auto)]

mod chair;
mod history;
mod laws;
mod plays;
mod seats;
mod telling;
mod view;

pub use chair::{Chair, Tabled};
pub use history::{History, Place};
pub use laws::{added_is_claimed, claimed_stands, parts_fit};
pub use plays::{Law, Named};
pub use view::{Row, View};
