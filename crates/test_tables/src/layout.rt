// Where the parts of a volume lie, its superblock, and what a fresh one holds.
use mg_disk::{BLOCK_SIZE, Block, Counts, Disk, Fuse, Left, MemDisk};
use mg_layout::{Geometry, Super, format, fresh_block, read_super, write_super};
use mg_model::{Params, Tariff};
use std::alloc::Global;

fn places_are_right() -> bool {
    let small = Geometry {
        total: 2660,
        table: 1,
        first_frame: 2596,
    };
    let large = Geometry {
        total: 68_259,
        table: 128,
        first_frame: 2723,
    };
    Geometry::of(64) == small && Geometry::of(65_536) == large
}

// 64 frames and 1000 credits.
fn settings(seed: [u8; 32]) -> Option<Params> {
    Params::new(64, seed, 1000, Tariff::usual(64))
}

// What a superblock is read as that has this byte at this place.
fn reads_changed(block: &Block, at: usize, byte: u8) -> Super {
    let mut changed = *block;
    if let Some(place) = changed.get_mut(at) {
        *place = byte;
    }
    read_super(&changed)
}

// Bytes that are changed, each alone, and what the superblock is then read as.
const CHANGES: [(usize, u8, Super); 7] = [
    (0, 0x6d, Super::Not),
    (8, 0, Super::Old),
    (8, 1, Super::Old),
    (8, 9, Super::Damaged),
    (16, 15, Super::Damaged),
    (31, 0x40, Super::Damaged),
    (200, 1, Super::Damaged),
];

fn changes_are_read() -> bool {
    let mut block: Block = [0; BLOCK_SIZE];
    if let Some(p) = settings([0; 32]) {
        write_super(&p, &mut block);
    }
    for (at, byte, answer) in CHANGES {
        if reads_changed(&block, at, byte) != answer {
            return false;
        }
    }
    true
}

// Block `i` of a fresh volume.
fn fresh(seed: [u8; 32], i: u64) -> Option<Block> {
    let p = settings(seed)?;
    let mut out = [1; BLOCK_SIZE];
    if i < Geometry::of(p.frames()).total {
        fresh_block(&p, i, &mut out);
    }
    Some(out)
}

/// A word, by its index in a block.
type Word = (usize, u64);

// Whether a block has these words, and all its other words are 0.
fn has_words(block: Option<Block>, words: &[Word]) -> bool {
    let mut wanted: Block = [0; BLOCK_SIZE];
    for (index, word) in words {
        put(&mut wanted, *index, *word);
    }
    block == Some(wanted)
}

fn put(block: &mut Block, index: usize, word: u64) {
    if index < 512 {
        block[8 * index..8 * index + 8].copy_from_slice(&word.to_le_bytes());
    }
}

// The bytes from 0 to 31.
const SEED: [u8; 32] = [
    0, 1, 2, 3, 4, 5, 6, 7, 8, 9, 10, 11, 12, 13, 14, 15, 16, 17, 18, 19, 20, 21, 22, 23, 24, 25,
    26, 27, 28, 29, 30, 31,
];

// The list of the root object: one entry, for itself, with the first password of the seed 0.
const ROOT: [Word; 3] = [(0, 1), (2, 1 << 32), (3, 0x903d_f1a0_ade0_b876)];

// The same with that of the other seed.
const OTHER_ROOT: [Word; 3] = [(0, 1), (2, 1 << 32), (3, 0x6a19_c5d9_7d2b_fd39)];

// The superblock, which begins with MUNGIVOL.
const SUPER: [Word; 15] = [
    (0, 0x4c4f_5649_474e_554d),
    (1, 2),
    (2, 64),
    (3, 1000),
    (4, 0x0706_0504_0302_0100),
    (5, 0x0f0e_0d0c_0b0a_0908),
    (6, 0x1716_1514_1312_1110),
    (7, 0x1f1e_1d1c_1b1a_1918),
    (9, 1),
    (10, 16),
    (11, 2),
    (12, 32),
    (13, 4),
    (14, 48),
    (15, 8),
];

#[test]
fn parts_of_a_volume(rt: HostRuntime) {
    let right = [
        places_are_right(),
        changes_are_read(),
        has_words(fresh([0; 32], 2596), &ROOT),
        has_words(fresh(SEED, 2596), &OTHER_ROOT),
        has_words(fresh(SEED, 1), &SUPER),
    ];
    assert_eq!(rt; right, [true; 5]);
}

/// The calls that make a volume of 64 frames.
const CALLS: u64 = 1313;

// A disk of zeros with room for such a volume.
fn zeros(alloc: Global) -> Option<MemDisk> {
    match MemDisk::new(alloc, 2660, CALLS, Vec::new(alloc)) {
        Ok(disk) => Some(disk),
        Err(_) => None,
    }
}

fn calls_of_format(alloc: Global, params: &Params) -> Option<Counts> {
    match zeros(alloc) {
        Some(mut disk) => match format(&mut disk, params) {
            Ok(()) => Some(disk.counts()),
            Err(_) => None,
        },
        None => None,
    }
}

// Whether block `i` of a disk begins with these bytes.
fn begins(disk: &mut MemDisk, i: u64, bytes: &[u8]) -> bool {
    let mut out = [0; BLOCK_SIZE];
    i < disk.blocks() && disk.read(i, &mut out).is_ok() && out.starts_with(bytes)
}

// Whether block `i`, after the gate, is written if a volume of 64 frames is made.
fn is_written(i: u64) -> bool {
    i == 1 || (i < 1298 && i % 162 == 2) || (i >= 1298 && i <= 2596)
}

fn has_fresh(disk: &mut MemDisk, params: &Params, i: u64) -> bool {
    let mut fresh = [0; BLOCK_SIZE];
    if i < Geometry::of(params.frames()).total {
        fresh_block(params, i, &mut fresh);
    }
    begins(disk, i, &fresh)
}

// Whether a disk has no volume, or each block of the fresh one that is written.
fn is_none_or_fresh(disk: &mut MemDisk, params: &Params) -> bool {
    if !begins(disk, 0, &[0xA5]) || !begins(disk, 1, b"MUNGIVOL") {
        return true;
    }
    for i in 1..2597 {
        if is_written(i) && !has_fresh(disk, params, i) {
            return false;
        }
    }
    true
}

// Whether this stop leaves no volume or the fresh one.
fn leaves_good(alloc: Global, disk: &MemDisk, params: &Params, left: Left) -> bool {
    match disk.stopped(alloc, left) {
        Ok(mut disk) => is_none_or_fresh(&mut disk, params),
        Err(_) => false,
    }
}

fn all_leave_good(alloc: Global, disk: &MemDisk, params: &Params) -> bool {
    leaves_good(alloc, disk, params, Left::Old)
        && leaves_good(alloc, disk, params, Left::New)
        && leaves_good(alloc, disk, params, Left::Gates)
}

// Whether a volume is made on this disk, and whether each stop then leaves none or the fresh one.
fn burnt(alloc: Global, mut fuse: Fuse<MemDisk>, params: &Params) -> (bool, bool) {
    let made = format(&mut fuse, params).is_ok();
    (made, all_leave_good(alloc, &fuse.into_inner(), params))
}

// The same on a disk that dies after `calls` calls.
fn dies_after(alloc: Global, params: &Params, calls: u64) -> Option<(bool, bool)> {
    match zeros(alloc) {
        Some(disk) => Some(burnt(alloc, Fuse::new(disk, calls), params)),
        None => None,
    }
}

// The first of these numbers of calls after which that is not as it is to be.
fn wrong_after(alloc: Global, params: &Params, from: u64, to: u64) -> Option<u64> {
    for calls in from..to {
        if dies_after(alloc, params, calls) != Some((calls == CALLS, true)) {
            return Some(calls);
        }
    }
    None
}

/// The calls of making a volume, and where a stop leaves another one.
type Made = (Option<Counts>, [Option<u64>; 2]);

fn made(alloc: Global) -> Option<Made> {
    let p = settings([0; 32])?;
    let wrong = [
        wrong_after(alloc, &p, 0, 21),
        wrong_after(alloc, &p, 1290, CALLS + 1),
    ];
    Some((calls_of_format(alloc, &p), wrong))
}

#[test]
fn a_stop_leaves_none_or_the_fresh_one(rt: HostRuntime) {
    let counts = Counts {
        reads: 0,
        writes: 1310,
        syncs: 3,
    };
    assert!(rt; made(rt.alloc()) == Some((Some(counts), [None; 2])));
}
