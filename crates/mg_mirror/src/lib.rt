//! One disk made of any two, which keeps working when one of them fails.
//!
//! [`Mirror`] is a [`mg_disk::Disk`]; `specs/Mirror.antt` says what it gives and what a stop leaves of it, in the words of
//! its sides. `specs/Sides.antt` says which side a call reaches and when a side is dropped, and `specs/Opened.antt` what a
//! dropped side and a failed mirror say of the counts of both sides since it was opened: a run picks those counts, as
//! those of the two disks when it began.
#![tactic(auto)]

mod copy;
mod mirror;

pub use mirror::{Mirror, MirrorFailed, Opened, Side};
