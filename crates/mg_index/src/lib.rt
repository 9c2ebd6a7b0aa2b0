//! Numbers in places, found by halving.
//!
//! A layer above sees an [`Index`] as a list: the number in each place, 0 for a free one. No number occurs twice.
//! Beside it there is a list of the numbers with their places, which ascends by number. The words of its contracts are in
//! `specs/Pairs.antt` and `specs/Words.antt`.
#![tactic(auto)]

mod index;
mod pairs;

pub use index::Index;
