//! What a user does: changes of files, override and revert.

mod edit;
mod overriding;
mod reverting;
