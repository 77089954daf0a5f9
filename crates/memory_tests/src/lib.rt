//! Public calls that may answer want of memory, each called with ample memory on arguments that it doesn't refuse: none
//! answers it. No contract can say so. Here are those of records, stores, messages and documents that no other test calls;
//! `tests/memory.py` says whether any call is left out.
#![tactic(auto)]

#[cfg(test)]
mod tests;
