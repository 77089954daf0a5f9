//! Tests of one folder at one device, by its public calls.
#![tactic(auto)]

#[cfg(test)]
mod tests;
