// Disks in memory for a mirror.
use mg_disk::{BLOCK_SIZE, Block, Counts, Disk, Fuse, MemDisk};
use mg_layout::format as make_volume;
use mg_model::{Params, Tariff};
use std::alloc::Global;

/// The number of blocks of the disks: those of a volume of 64 frames.
pub const BLOCKS: u64 = 2660;

/// The number of calls for which a disk has room: making a volume, copying it, and a session on it.
const ROOM: u64 = 12_000;

/// What a disk holds at first, and when it fails.
#[derive(Clone, Copy)]
pub struct Setup {
    /// Whether it has a fresh volume of 64 frames. Otherwise it has zeros.
    pub is_volume: bool,
    /// The number of the call that fails, from 0, counted from the making of the disk. None if no call fails.
    pub fails: Option<u64>,
    /// The number of calls after the making of the disk that pass before it dies.
    pub calls: u64,
}

/// A fresh volume.
pub const VOLUME: Setup = Setup {
    is_volume: true,
    fails: None,
    calls: u64::MAX,
};

/// A disk of zeros.
pub const ZEROS: Setup = Setup {
    is_volume: false,
    fails: None,
    calls: u64::MAX,
};

/// The two disks of a mirror.
#[derive(Drop)]
pub struct Disks {
    pub left: Fuse<MemDisk>,
    pub right: Fuse<MemDisk>,
}

/// A disk made in this way. None if out of memory.
pub fn make_disk(alloc: Global, how: &Setup) -> Option<Fuse<MemDisk>> {
    match filled(alloc, how) {
        Some(disk) => Some(Fuse::new(disk, how.calls)),
        None => None,
    }
}

/// The same disk, which does not die.
fn filled(alloc: Global, how: &Setup) -> Option<MemDisk> {
    match zeros(alloc, how.fails) {
        Some(mut disk) => {
            if how.is_volume {
                make(&mut disk);
            }
            Some(disk)
        }
        None => None,
    }
}

/// A disk of zeros. The call with the number `fails` fails.
fn zeros(alloc: Global, fails: Option<u64>) -> Option<MemDisk> {
    match numbers(alloc, fails) {
        Some(numbers) => match MemDisk::new(alloc, BLOCKS, ROOM, numbers) {
            Ok(disk) => Some(disk),
            Err(_) => None,
        },
        None => None,
    }
}

fn numbers(alloc: Global, fails: Option<u64>) -> Option<Vec<u64>> {
    match fails {
        Some(number) => match [number].to_vec(alloc) {
            Ok(numbers) => Some(numbers),
            Err(_) => None,
        },
        None => Some(Vec::new(alloc)),
    }
}

/// Makes a fresh volume on a disk, with the seed of zeros and 1000 credits.
fn make(disk: &mut MemDisk) {
    if let Some(params) = Params::new(64, [0; 32], 1000, Tariff::usual(64)) {
        let _ = make_volume(disk, &params);
    }
}

/// The number of calls that make that volume.
pub fn calls_to_make(alloc: Global) -> Option<u64> {
    match filled(alloc, &VOLUME) {
        Some(disk) => Some(count(&disk.counts())),
        None => None,
    }
}

/// The number of writes that make a disk in this way.
pub fn writes_to_make(alloc: Global, how: &Setup) -> u64 {
    match filled(alloc, how) {
        Some(disk) => disk.counts().writes,
        None => u64::MAX,
    }
}

fn count(counts: &Counts) -> u64 {
    counts
        .reads
        .saturating_add(counts.writes)
        .saturating_add(counts.syncs)
}

/// Whether two disks have the same blocks.
pub fn are_same(disks: &mut Disks) -> bool {
    let mut on_left: Block = [0; BLOCK_SIZE];
    let mut on_right: Block = [0; BLOCK_SIZE];
    for i in 0..BLOCKS {
        let is_same = read_at(&mut disks.left, i, &mut on_left)
            && read_at(&mut disks.right, i, &mut on_right)
            && on_left == on_right;
        if !is_same {
            return false;
        }
    }
    true
}

/// Whether there is a block with this number, and it can be read.
fn read_at(disk: &mut Fuse<MemDisk>, i: u64, block: &mut Block) -> bool {
    i < disk.blocks() && disk.read(i, block).is_ok()
}
