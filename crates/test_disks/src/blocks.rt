// Blocks that are read and written together, on a disk whose calls fail and on one that dies.
ghost use Rattle.std.specs.Prelude.{◌≡◌};

use crate::made::zeros;
use mg_disk::{BLOCK_SIZE, Counts, Disk, Fuse, MemDisk, ScratchDisk};
use std::alloc::Global;
use std::process::Abort;

/// The first bytes of five blocks.
type Firsts = [u8; 5];

/// The first bytes of the blocks that a disk of five holds, read together.
fn held<D: Disk>(disk: &mut D) -> Option<Firsts>
    requires { D.block_count disk.old ≡ 5 }
    ensures { D.block_count disk.new ≡ 5 }
{
    let mut run = [[1; BLOCK_SIZE]; 5];
    if disk.read_blocks(0, &mut run).is_ok() {
        Some([run[0][0], run[1][0], run[2][0], run[3][0], run[4][0]])
    } else {
        None
    }
}

/// Writes three blocks on a disk of five zeros, the first of them in block 1. Says whether that could be done.
fn put<D: Disk>(disk: &mut D) -> bool
    requires { D.block_count disk.old ≡ 5 }
    ensures { D.block_count disk.new ≡ 5 }
{
    let run = [[7; BLOCK_SIZE], [8; BLOCK_SIZE], [9; BLOCK_SIZE]];
    disk.write_blocks(1, &run).is_ok()
}

/// Whether the blocks can be written or not, as this says, and the disk then holds these.
fn puts<D: Disk>(disk: &mut D, good: bool, firsts: Option<Firsts>) -> bool
    requires { D.block_count disk.old ≡ 5 }
    ensures { D.block_count disk.new ≡ 5 }
{
    put(disk) == good && held(disk) == firsts
}

fn calls_of((reads, writes): (u64, u64)) -> Counts {
    Counts {
        reads,
        writes,
        syncs: 0,
    }
}

/// The same on a disk in memory, which then saw these numbers of reads and writes.
fn sees(disk: &mut MemDisk, good: bool, firsts: Option<Firsts>, calls: (u64, u64)) -> bool
    requires { ⟦<MemDisk as Disk>⟧.block_count disk.old ≡ 5 }
{
    puts(disk, good, firsts) && disk.counts() == calls_of(calls)
}

/// The same on one whose call of that number fails.
fn fails(
    rt: &impl Abort,
    alloc: Global,
    call: u64,
    good: bool,
    firsts: Option<Firsts>,
    calls: (u64, u64),
) {
    let mut disk = zeros(rt, alloc, 5, &[call]);
    assert!(rt; sees(&mut disk, good, firsts, calls));
}

const ALL: Option<Firsts> = Some([0, 7, 8, 9, 0]);

#[test]
fn blocks_are_put_a_call_each(rt: HostRuntime) {
    let alloc = rt.alloc();
    fails(&rt, alloc, 20, true, ALL, (5, 3));
    // What failed holds gates, and what was to follow is as it was.
    fails(&rt, alloc, 0, false, Some([0, 0xA5, 0, 0, 0]), (5, 1));
    fails(&rt, alloc, 1, false, Some([0, 7, 0xA5, 0, 0]), (5, 2));
    // A read that fails ends the run.
    fails(&rt, alloc, 5, true, None, (3, 3));
}

#[test]
fn a_disk_dies_among_blocks(rt: HostRuntime) {
    let mut disk = Fuse::new(zeros(&rt, rt.alloc(), 5, &[]), 2);
    assert!(rt; puts(&mut disk, false, None));
    assert!(rt; held(&mut disk.into_inner()) == Some([0, 7, 8, 0, 0]));
}

/// Whether no block can be written and read after the last one, with no call.
fn none_make_no_call(disk: &mut MemDisk) -> bool
    requires { ⟦<MemDisk as Disk>⟧.block_count disk.old ≡ 5 }
{
    disk.write_blocks(5, &[]).is_ok()
        && disk.read_blocks(5, &mut []).is_ok()
        && disk.counts() == Counts::default()
}

#[test]
fn no_blocks_make_no_call(rt: HostRuntime) {
    assert!(rt; none_make_no_call(&mut zeros(&rt, rt.alloc(), 5, &[])));
    let mut scratch = ScratchDisk::new(rt.alloc(), 5).expect(&rt, "memory");
    assert!(rt; puts(&mut scratch, true, ALL));
}
