//! Tests of the command `gen`: what it prints of some runs, compared with the lines that they have, and its statuses.
//!
//! They are in a crate of their own above `mg_session` and `mg_gen`, so that these are proved only once.
#![tactic(auto)]

#[cfg(test)]
mod run_tests;
#[cfg(test)]
mod status_tests;
