//! Tests of lines and replies, and of the lines of generated runs, with values from outside.
#![tactic(auto)]

#[cfg(test)]
mod generated;
#[cfg(test)]
mod lines;
#[cfg(test)]
mod replies;
