//! Tests of rounds that bring names to devices.
#![tactic(auto)]

#[cfg(test)]
mod bring;
#[cfg(test)]
mod bring_all;
#[cfg(test)]
mod made;
