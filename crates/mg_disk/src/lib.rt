//! Disks: what a disk promises, also across a stop of the machine, and three in memory that keep the promise.
//!
//! A layer above takes any `D: Disk`. Its clauses say what reads give, which images a stop may leave since a moment, and
//! that an answer [`Failed`] comes only if the disk's count of faults rose. [`MemDisk`] is a disk for tests, with calls that
//! fail and stops at will. [`Fuse`] lets a disk die after some calls. [`ScratchDisk`] is a disk for one session alone.
//! The disk in a file is in `mg_file`.
//!
//! [`write_firmly`] is a write and then a sync. The layers above write in such steps.
//!
//! `specs/Disk.antt` has the words of the trait, `specs/Stops.antt` what the layers above say of a disk in one word, and
//! `specs/Runs.antt` the steps by which a proof follows what a stop may leave over a run of calls.
#![tactic(auto)]

mod blocks;
mod counted;
mod disk;
mod fuse;
mod memory;
mod scratch;
mod syncing;

pub use disk::{BLOCK_SIZE, Block, COPY_BLOCKS, Disk, GATE_OPEN};
pub use fuse::Fuse;
pub use memory::{Counts, Left, MemDisk};
pub use mg_faults::Failed;
pub use scratch::ScratchDisk;
pub use syncing::write_firmly;
