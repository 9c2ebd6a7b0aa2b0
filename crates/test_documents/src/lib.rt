//! Tests of documents: words and lines that were worked out by hand, and replies with each fault. Of the program's call they show how
//! each status comes.
//!
//! They are in a crate above `mg_document` and `mg_document_session`, so that these two are proved once.
#![tactic(auto)]

#[cfg(test)]
mod document_tests;
#[cfg(test)]
mod session_tests;
