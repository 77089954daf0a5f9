//! What a device does with a message that came: with each of the five kinds, and what it answers.

mod answer;
mod config;
mod deliver;
mod effect;
mod good_config;
mod index;
mod renew;
mod request;
mod response;

pub use answer::{answer_to, has_bytes, refuse};
