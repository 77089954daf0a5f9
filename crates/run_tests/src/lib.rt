//! Tests of a running cluster, by public calls and by gates that hold its threads.
#![tactic(auto)]

#[cfg(test)]
mod anew;
#[cfg(test)]
mod arriving;
#[cfg(test)]
mod at_once;
#[cfg(test)]
mod cuts;
#[cfg(test)]
mod effects;
#[cfg(test)]
mod failing;
#[cfg(test)]
mod guards;
#[cfg(test)]
mod handed;
#[cfg(test)]
mod left_over;
#[cfg(test)]
mod made;
#[cfg(test)]
mod meeting;
#[cfg(test)]
mod number;
#[cfg(test)]
mod over_links;
#[cfg(test)]
mod pieces;
#[cfg(test)]
mod seen;
#[cfg(test)]
mod tickets;
#[cfg(test)]
mod turns;
#[cfg(test)]
mod unchanged;
#[cfg(test)]
mod waiting;
