//! A module for each crate, of `bep_record` two; and the records that some of them make.
mod blocks;
mod choice;
mod index;
mod links;
mod made;
mod record;
mod vector;
mod workers;
