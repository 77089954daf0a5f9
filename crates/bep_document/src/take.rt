//! What a document says, as a walk along its text comes to it: a reader for each thing that stands in it.

mod cut;
mod documents;
mod few;
mod flights;
mod folders;
mod links;
mod rows;
mod shares;
mod views;

pub(crate) use cut::CutLists;
pub(crate) use documents::{CheckSlots, CutSlot, check_told, cut_told};
