//! What is read of a folder: its tables, its names, and what its store holds.

mod contents;
mod names;
mod tables;
