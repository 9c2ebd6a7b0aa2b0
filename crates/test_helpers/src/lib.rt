//! Helpers for tests: whole commands of the program on disks in memory.
//!
//! [`command`] runs the words of a command line over any disk, with a source and a sink that behave as [`Streams`] says. It returns the
//! status and what was printed; [`output`] and [`output_for`] return both as one text. [`outputs`], [`outputs_for`], [`ends`] and
//! [`answers`] compare, and return a `bool` alone, which takes little time to prove if many commands follow each other. [`volume`] is a
//! disk in memory with a volume that such words made, and [`fresh`] one of 64 frames.
#![tactic(auto)]

mod commands;
mod outcomes;
mod volumes;

pub use commands::{Outcome, Streams, command, words_of};
pub use outcomes::{
    BLOCKS, Byte, MAKING, answers, ends, fresh, making, output, output_for, outputs, outputs_for,
    write_bytes, write_each, write_words,
};
pub use volumes::{ROOM, SEED, volume};
