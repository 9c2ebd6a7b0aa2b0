//! The calls on a protection domain: the words that a thread reads and writes there, the slots that make the domain, and the
//! objects that a thread enters and returns from.
//!
//! A layer above learns of each call that its reply and the state after it are those of its row of the definition, from the
//! point on at which the thread is known; what it read and staged is said in the words of `mg_volume`'s `specs/Calls.antt`. All that a
//! call with the disk keeps is one record of `mg_access`'s `specs/Served.antt`.
//! A call on a word begins with `validate` of `mg_access`, or with `word_object`, which asks whether the access is allowed.
//!
//! A call that makes accesses leaves every kept right backed by the state, and says what the accesses of its line keep and count,
//! in the words of `mg_model`'s `specs/Kept.antt`. One that makes none says which seats it drops, if any.
//!
//! `specs/Entering.antt` has why a thread may not enter an object, and `specs/Fetching.antt` what a fetch keeps and counts.
#![tactic(auto)]

mod access;
mod frames;
mod slots;

pub use access::{fetch, load, store};
pub use frames::{pdx, ret};
pub use mg_access::validate;
pub use slots::{apdadd, apddel, apdlist};
