//! Tests of devices and links with their logs, by public calls.
#![tactic(auto)]

#[cfg(test)]
mod between;
#[cfg(test)]
mod ends;
#[cfg(test)]
mod full;
#[cfg(test)]
mod halves;
#[cfg(test)]
mod made;
#[cfg(test)]
mod memory;
#[cfg(test)]
mod rebasing;
#[cfg(test)]
mod resetting;
#[cfg(test)]
mod restarting;
#[cfg(test)]
mod run;
#[cfg(test)]
mod scanning;
#[cfg(test)]
mod scenario;
