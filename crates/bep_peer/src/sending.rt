//! What a device sends: it begins a session, announces records and asks for blocks.

mod announce;
mod ask;
mod batches;
mod begin;

pub use batches::{index_message, is_all_sent, next_batch, sent_with};
