//! Tests of names that are read one by one, over public calls.
#![tactic(auto)]

#[cfg(test)]
mod tests;
