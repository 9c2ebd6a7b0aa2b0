//! The calls that make, end and resume threads.
//!
//! A layer above learns of each call that its reply and the state after it are those of its row of the definition, from the
//! point on at which the calling thread is known to live; what it read and staged is said in the words of `mg_volume`'s
//! `specs/Calls.antt`. Whose a thread is, its birth says: births, are never given twice, and numbers are.
//!
//! `make` is its row after the access to the address, and `validated_make` makes that access first: it alone makes one, says what it
//! keeps and counts, and ends no right that was found. `end` drops those of the thread that it ends, and `resume` none. `pick` says
//! which thread has the next turn.
#![tactic(auto)]

mod ending;
mod making;
mod owning;
mod picking;

pub use ending::{end, resume};
pub use making::{make, validated_make};
pub use picking::pick;
