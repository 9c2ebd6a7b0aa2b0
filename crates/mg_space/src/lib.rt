//! The objects of a volume, with the pages between them.
//!
//! A layer above sees a [`Space`] as the list of its objects, in the order of the bases, each with its place in the table: that
//! of `mg_objects`. Beside them it has the free pages, as `mg_ranges` has them, and the total of the pages in use, so that nothing is
//! searched or added up when an object is made. A change of the objects sets in the bank for how many pages each account pays.
#![tactic(auto)]

mod paying;
mod space;

pub use space::Space;
