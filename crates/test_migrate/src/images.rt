// Disks in memory with volumes of 64 frames, made with the seed of zeros.
use crate::outcomes::Expected;
use mg_disk::{BLOCK_SIZE, Block, Counts, Disk, Left, MemDisk};
use mg_migrate::fresh_block1;
use mg_model::{Params, Tariff};
use std::alloc::Global;
use std::process::Abort;

/// The number of blocks of a volume of version 1.
pub const BLOCKS1: u64 = 2148;

/// The number of blocks of a volume of this version.
pub const BLOCKS: u64 = 2660;

/// The number of calls for which a disk has room: making a volume, copying it, and a session on it.
pub const ROOM: u64 = 12_000;

/// The byte of an open gate, as a word.
pub const OPEN: u64 = 0xa5;

/// A block, and the places of its words that are not 0.
pub type Words = (u64, &'static [(usize, u64)]);

/// A fresh volume whose counters are in segment 0 of the journal alone: three passwords drawn, period 2 and one birth.
pub const IN_JOURNAL: &[Words] = &[
    (2, &[(0, OPEN)]),
    (3, &[(0, 1), (1, 1298)]),
    (4, &[(0, 3), (1, 2), (3, 1)]),
];

/// The outcome of its migration, and of a check after it.
pub const MOVED: Expected = (0, "ok 64 1 1 1 1 2 1000\n");

/// The number of calls that make that volume: a write for each block and for each change, and a sync.
pub const CALLS_TO_MAKE: u64 = BLOCKS1 + 4;

/// A disk with a fresh volume of version 1 of 1000 credits, with these blocks changed, and synced. Its calls with the numbers `fails`
/// fail, counted from 0 as the volume is made.
pub fn old_volume(rt: &impl Abort, alloc: Global, changes: &[Words], fails: &[u64]) -> MemDisk {
    let mut disk = zeros(rt, alloc, BLOCKS1, fails);
    make_fresh(&mut disk);
    write_words(&mut disk, changes);
    let _ = disk.sync();
    disk
}

/// A new disk that holds what a stop now leaves of this one.
pub fn stopped(rt: &impl Abort, alloc: Global, disk: &MemDisk, left: Left) -> MemDisk {
    disk.stopped(alloc, left).expect(rt, "memory")
}

/// Writes these blocks.
pub fn write_words(disk: &mut MemDisk, changes: &[Words]) {
    for (i, words) in changes {
        write_block(disk, *i, &block_of(words));
    }
}

fn make_fresh(disk: &mut MemDisk) {
    let Some(params) = Params::new(64, [0; 32], 1000, Tariff::usual(64)) else {
        return;
    };
    let mut block = [0; BLOCK_SIZE];
    for i in 0..BLOCKS1 {
        fresh_block1(&params, i, &mut block);
        write_block(disk, i, &block);
    }
}

/// A block with these words.
fn block_of(words: &[(usize, u64)]) -> Block {
    let mut block = [0; BLOCK_SIZE];
    for (place, word) in words {
        if *place < 512 {
            let at = 8 * *place;
            block[at..at + 8].copy_from_slice(&word.to_le_bytes());
        }
    }
    block
}

/// Writes a block if the disk has it.
pub fn write_block<D: Disk>(disk: &mut D, i: u64, block: &Block) {
    if i < disk.blocks() {
        let _ = disk.write(i, block);
    }
}

/// A disk of zeros. Its calls with the numbers `fails` fail.
pub fn zeros(rt: &impl Abort, alloc: Global, blocks: u64, fails: &[u64]) -> MemDisk {
    let fails = fails.to_vec(alloc).expect(rt, "memory");
    MemDisk::new(alloc, blocks, ROOM, fails).expect(rt, "memory")
}

/// Whether only reads were made between these counts.
pub fn is_only_read(before: Counts, after: Counts) -> bool {
    after.writes == before.writes && after.syncs == before.syncs
}

/// Whether the first disk begins with the blocks of the second. As many are compared as a volume of version 1 has.
pub fn begins_with<D: Disk>(disk: &mut D, with: &mut MemDisk) -> bool {
    for i in 0..BLOCKS1 {
        if block_at(disk, i) != block_at(with, i) {
            return false;
        }
    }
    true
}

/// Copies as many blocks to a disk as a volume of version 1 has. A block that can't be read is copied as zeros.
pub fn copy<D: Disk>(from: &mut MemDisk, to: &mut D) {
    for i in 0..BLOCKS1 {
        write_block(to, i, &block_at(from, i).unwrap_or([0; BLOCK_SIZE]));
    }
}

/// A block, if the disk has it and can read it.
fn block_at<D: Disk>(disk: &mut D, i: u64) -> Option<Block> {
    let mut block = [0; BLOCK_SIZE];
    if i < disk.blocks() && disk.read(i, &mut block).is_ok() {
        Some(block)
    } else {
        None
    }
}
