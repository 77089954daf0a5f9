//! Tests of the history of a running cluster's events, by public calls.
#![tactic(auto)]

#[cfg(test)]
mod seats;
