//! What a device does with one of its folders alone: the steps of a user and of pulls, scans, what it holds, a copy of it.

mod call;
mod contents;
mod copy;
mod scan;
mod steps;
