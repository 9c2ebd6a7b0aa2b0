//! The validation cache: rights that were found, kept until something takes them away.
//!
//! A layer above sees a [`VCache`] as the list of its seats. A right has one seat that it can take, by its key: the thread, the
//! base of the object, and the right. `specs/Seats.antt` says when a key is kept, and what it is for each seat to be backed by a
//! state; `specs/SeatLemmas.antt` has what follows for the calls that fill and drop.
#![tactic(auto)]

mod cache;
mod dropping;
mod marks;

pub use cache::VCache;
