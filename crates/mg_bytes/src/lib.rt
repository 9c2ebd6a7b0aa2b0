//! Numbers in bytes, and how many blocks a volume has.
//!
//! All numbers of a volume are read and written with [`number_at`] and [`put_number`]: 8 bytes each, the low one first. [`Geometry`] has
//! the places that depend on the number of frames. `mg_layout` hands these on, and builds the parts of a volume with them.
//!
//! It is a crate of its own because the journal and the pages need nothing else of a layout: they are proved beside `mg_layout`.
#![tactic(auto)]

mod bytes;
mod geometry;

pub use bytes::{are_zeros, number_at, put_number};
pub use geometry::{BLOCK_WORDS, Geometry};
