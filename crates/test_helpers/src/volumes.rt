// Volumes in memory.
use crate::commands::{Streams, command, words_of};
use mg_disk::{Left, MemDisk};
use mg_layout::Geometry;
use mg_session::{Command, read_words};
use std::alloc::{AllocError, Global};

/// The seed of 32 zero bytes.
pub const SEED: &str = "0000000000000000000000000000000000000000000000000000000000000000";

/// The number of calls for which a disk in memory has room here: making a volume, or opening one and a session on it.
pub const ROOM: u64 = 40_000;

/// The number of blocks of the volume that these words make. 0 if they make none.
fn blocks(words: &[String]) -> u64 {
    match read_words(words) {
        Some(command) => blocks_of(&command),
        None => 0,
    }
}

fn blocks_of(command: &Command) -> u64 {
    match command {
        Command::Format(params) => Geometry::of(params.frames()).total,
        _ => 0,
    }
}

/// A disk on which the command of these words made a volume, with no block more than it needs and no call made yet. Without a volume it
/// has no block.
pub fn volume(alloc: Global, line: &str) -> Result<MemDisk, AllocError> {
    match words_of(alloc, line) {
        Ok(words) => made(alloc, line, blocks(&words)),
        Err(e) => Err(e),
    }
}

/// What that command leaves on a disk of `blocks` blocks.
fn made(alloc: Global, line: &str, blocks: u64) -> Result<MemDisk, AllocError> {
    match MemDisk::new(alloc, blocks, ROOM, Vec::new(alloc)) {
        Ok(mut disk) => made_on(alloc, line, &mut disk),
        Err(e) => Err(e),
    }
}

fn made_on(alloc: Global, line: &str, disk: &mut MemDisk) -> Result<MemDisk, AllocError> {
    match command(alloc, line, disk, &Streams::of(b"")) {
        Ok(_) => disk.stopped(alloc, Left::New),
        Err(e) => Err(e),
    }
}
