//! A module for each crate, or two.
mod answer;
mod auditor;
mod row;
mod stream;
mod text;
