//! The places of everything on a volume, its superblock, and how a volume is made.
//!
//! A layer above gets the places of the parts of a volume ([`Geometry`], of `mg_bytes`), reads and writes the superblock, and makes a
//! volume with [`format`]. At each moment of `format` a stop leaves no volume, the fresh volume, or what the blocks after the
//! gate spelled in an image that a stop might have left before, whatever was pending then.
//!
//! All bytes of a volume are read and written with these: [`number_at`], [`put_number`], [`are_zeros`], and [`Filling`],
//! bytes that are filled from the first on.
//!
//! What an image spells is defined in `mg_model`: `Layout` (the places of everything), `Spelling` (rows as bytes), `Replay`
//! and `Volume`. Here `specs/FreshImage.antt` has the blocks of a fresh volume, and `specs/MayFormat.antt` what a stop may
//! leave while one is made.
#![tactic(auto)]

mod behind;
mod filling;
mod formatting;
mod fresh;
mod laws;
mod superblock;

pub use filling::Filling;
pub use formatting::{FormatFault, format};
pub use fresh::fresh_block;
pub use laws::images_are_read;
pub use mg_bytes::{BLOCK_WORDS, Geometry, are_zeros, number_at, put_number};
pub use mg_disk::GATE_OPEN;
pub use mg_model::layout::{
    BODY_LIMIT, FIRST_ACCOUNT_BLOCK, FIRST_OBJECT_BLOCK, FIRST_SEGMENT, FIRST_THREAD_BLOCK,
    GATE_BLOCK, GLOBALS_BLOCK, SEGMENT_COUNT, SEGMENT_SIZE, SUPER_BLOCK, TABLE_BLOCK,
};
pub use superblock::{MAGIC, Super, read_super, write_super};
