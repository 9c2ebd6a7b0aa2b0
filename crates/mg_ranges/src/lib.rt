//! The free pages of a volume, as gaps between the pages that are taken.
//!
//! A layer above sees [`Ranges`] as the list of its gaps, each with its first page and its number of pages: the maximal free
//! ranges from page `2^20` to before page `2^40`, ascending. It speaks of the ranges that are taken, in their order, and of
//! the gaps that these leave. The words of the contracts are in `specs/Gaps.antt`.
#![tactic(auto)]

mod gaps;
mod ranges;

pub use ranges::Ranges;
