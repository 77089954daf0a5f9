//! Tests of the crates that stand below documents and folders, over their public calls.
#![tactic(auto)]

#[cfg(test)]
mod tests;
