//! A module for each crate, the report with the auditor; and the calls that none of these makes (`memory`). What is told of
//! each reason, and explained, is compared on the examples.
mod answer;
mod audit;
mod converge;
mod document;
mod firm;
mod live;
mod memory;
