//! Tests of documents and cuts, of the auditor, of its report and of what is answered of a document, over their public calls.
#![tactic(auto)]

#[cfg(test)]
mod tests;
