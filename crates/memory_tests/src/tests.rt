//! A module for each crate or two, in the order in which they stand on each other; and what they share (`made`).
mod cuts;
mod documents;
mod indexes;
mod lines;
mod made;
mod maps;
mod messages;
mod records;
mod reports;
mod scenarios;
mod trees;
mod walks;
