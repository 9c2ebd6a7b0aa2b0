// Contents of a disk whose segments were opened by hand.
ghost use Rattle.std.specs.Prelude.{◌≡◌, ◌<◌, ◌≤◌, IfSome};

use crate::disks::{NONE, zeros};
use mg_disk::{BLOCK_SIZE, Block, Disk, MemDisk};
use mg_journal::{View, ViewFault};
use mg_layout::GATE_OPEN;
use std::alloc::Global;

/// An index with this count and this first home.
fn index(count: u64, home: u64) -> Block {
    let mut index = [0; BLOCK_SIZE];
    index[0..8].copy_from_slice(&count.to_le_bytes());
    index[8..16].copy_from_slice(&home.to_le_bytes());
    index
}

/// Opens a segment, from 0 to 7, whose index has this count and this first home, with a body of this byte.
fn open_segment(disk: &mut MemDisk, segment: u64, count: u64, home: u64, byte: u8) -> bool
    requires segment { segment < 8 }
    requires at_least_1298_blocks { 1298 ≤ ⟦<MemDisk as Disk>⟧.block_count disk.old }
    ensures { ⟦<MemDisk as Disk>⟧.block_count disk.new ≡ ⟦<MemDisk as Disk>⟧.block_count disk.old }
{
    let gate = 2 + 162 * segment;
    disk.write(gate, &[GATE_OPEN; BLOCK_SIZE]).is_ok()
        && disk.write(gate + 1, &index(count, home)).is_ok()
        && disk.write(gate + 2, &[byte; BLOCK_SIZE]).is_ok()
}

/// What block `i` of the contents of a volume of 1400 blocks begins with.
#[derive(Clone, Copy, PartialEq, Eq)]
enum Seen {
    Byte(u8),
    Damaged,
    /// A call failed, or there was not enough memory.
    Failed,
}

fn begins(alloc: Global, disk: &mut MemDisk, i: u64) -> Seen
    requires place { i < 1400 }
    requires at_least_1400_blocks { 1400 ≤ ⟦<MemDisk as Disk>⟧.block_count disk.old }
    ensures { ⟦<MemDisk as Disk>⟧.block_count disk.new ≡ ⟦<MemDisk as Disk>⟧.block_count disk.old }
{
    let mut out: Block = [0; BLOCK_SIZE];
    match View::look(alloc, disk, 1400) {
        Ok(view) => match view.read(disk, i, &mut out) {
            Ok(()) => Seen::Byte(out[0]),
            Err(_) => Seen::Failed,
        },
        Err(ViewFault::Damaged) => Seen::Damaged,
        Err(_) => Seen::Failed,
    }
}

// A disk of zeros.
fn disk_of_zeros(alloc: Global) -> Option<MemDisk>
    ensures { IfSome result (λ disk. ⟦<MemDisk as Disk>⟧.block_count disk ≡ 1400) }
{
    zeros(alloc, 1400, 100, NONE)
}

// The last two blocks, where segments 2 and 5 are opened and each has a body for the last.
fn both_on(alloc: Global, disk: &mut MemDisk) -> [Seen; 2]
    requires has_1400_blocks { ⟦<MemDisk as Disk>⟧.block_count disk.old ≡ 1400 }
{
    if !open_segment(disk, 2, 1, 1399, 7) || !open_segment(disk, 5, 1, 1399, 9) {
        return [Seen::Failed; 2];
    }
    [begins(alloc, disk, 1398), begins(alloc, disk, 1399)]
}

fn in_two_segments(alloc: Global) -> [Seen; 2] {
    match disk_of_zeros(alloc) {
        Some(mut disk) => both_on(alloc, &mut disk),
        None => [Seen::Failed; 2],
    }
}

// The last block if segment 7 is opened, and how often the disk was written to.
fn one_on(alloc: Global, disk: &mut MemDisk, count: u64, home: u64) -> (Seen, u64)
    requires has_1400_blocks { ⟦<MemDisk as Disk>⟧.block_count disk.old ≡ 1400 }
{
    if !open_segment(disk, 7, count, home, 1) {
        return (Seen::Failed, 0);
    }
    let seen = begins(alloc, disk, 1399);
    (seen, disk.counts().writes)
}

fn in_one(alloc: Global, count: u64, home: u64) -> (Seen, u64) {
    match disk_of_zeros(alloc) {
        Some(mut disk) => one_on(alloc, &mut disk, count, home),
        None => (Seen::Failed, 0),
    }
}

// The count and the first home of an index, and how the last block is seen then.
const INDEXES: [(u64, u64, Seen); 5] = [
    (1, 1399, Seen::Byte(1)),
    (0, 7, Seen::Byte(0)),
    (161, 1298, Seen::Damaged),
    (1, 1297, Seen::Damaged),
    (1, 1400, Seen::Damaged),
];

// How many indexes are judged as they are to be, up to the first that is not.
fn judged(alloc: Global) -> usize {
    let mut right: usize = 0;
    for (count, home, seen) in INDEXES {
        if in_one(alloc, count, home) != (seen, 3) {
            return right;
        }
        right = right.saturating_add(1);
    }
    right
}

// Of two bodies of one block the later is read.
fn later_is_read(alloc: Global) -> bool {
    in_two_segments(alloc) == [Seen::Byte(0), Seen::Byte(9)]
}

#[test]
fn segments_are_read(rt: HostRuntime) {
    let found = (later_is_read(rt.alloc()), judged(rt.alloc()));
    assert_eq!(rt; found, (true, INDEXES.len()));
}
