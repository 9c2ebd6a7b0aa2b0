// A client of the disk whose calls fail or whose disk dies, at each call in turn, and what a stop then leaves.
ghost use Rattle.std.specs.Prelude.{◌≡◌};

use crate::calls::{byte_of, synced, wrote};
use crate::made::zeros;
use mg_disk::{Counts, Disk, Fuse, Left, MemDisk, ScratchDisk};
use std::alloc::Global;
use std::process::Abort;

/// The byte of an open gate.
const OPEN: u8 = 0xA5;

/// Makes a block of ones and one of twos what a disk of five holds, when its gate is closed.
fn put<D: Disk>(disk: &mut D) -> bool
    requires { D.block_count disk.old ≡ 5 }
    ensures { D.block_count disk.new ≡ 5 }
{
    wrote(disk, 1, 1) && wrote(disk, 2, 2) && synced(disk) && wrote(disk, 0, OPEN) && synced(disk)
}

/// The bytes of two blocks.
type Pair = (Option<u8>, Option<u8>);

/// The bytes of the two blocks that a disk holds: those after an open gate, or those at their homes.
fn held<D: Disk>(disk: &mut D) -> Pair
    requires { D.block_count disk.old ≡ 5 }
{
    match byte_of(disk, 0) {
        Some(OPEN) => (byte_of(disk, 1), byte_of(disk, 2)),
        Some(_) => (byte_of(disk, 3), byte_of(disk, 4)),
        None => (None, None),
    }
}

const OLD: Pair = (Some(0), Some(0));

const NEW: Pair = (Some(1), Some(2));

/// The disk as this stop leaves it.
fn stopped(rt: &impl Abort, alloc: Global, disk: &MemDisk, left: Left) -> MemDisk
    requires { ⟦<MemDisk as Disk>⟧.block_count disk.now ≡ 5 }
    ensures { ⟦<MemDisk as Disk>⟧.block_count result ≡ 5 }
{
    disk.stopped(alloc, left).expect(rt, "memory")
}

/// What is held after a stop with what was synced, with what was written, and with gates.
type Stops = [Pair; 3];

fn leaves(rt: &impl Abort, alloc: Global, disk: &MemDisk, pairs: Stops) -> bool
    requires { ⟦<MemDisk as Disk>⟧.block_count disk.now ≡ 5 }
{
    held(&mut stopped(rt, alloc, disk, Left::Old)) == pairs[0]
        && held(&mut stopped(rt, alloc, disk, Left::New)) == pairs[1]
        && held(&mut stopped(rt, alloc, disk, Left::Gates)) == pairs[2]
}

/// If that call fails; the sixth is not made.
fn fails(rt: &impl Abort, alloc: Global, call: u64, stops: Stops) -> bool {
    let mut disk = zeros(rt, alloc, 5, &[call]);
    let good = put(&mut disk);
    good == (call == 5) && leaves(rt, alloc, &disk, stops)
}

/// If the disk dies after that many calls.
fn dies(rt: &impl Abort, alloc: Global, calls: u64, stops: Stops) -> bool {
    let mut disk = Fuse::new(zeros(rt, alloc, 5, &[]), calls);
    let good = put(&mut disk);
    let disk = disk.into_inner();
    good == (calls == 5) && leaves(rt, alloc, &disk, stops)
}

fn fails_and_dies(rt: &impl Abort, alloc: Global, call: u64, failed: Stops, died: Stops) {
    assert!(rt;
        fails(rt, alloc, call, failed) && dies(rt, alloc, call, died),
        "{call}"
    );
}

#[test]
fn a_stop_leaves_the_old_or_the_new(rt: HostRuntime) {
    let alloc = rt.alloc();
    let gate = [OLD, NEW, NEW];
    fails_and_dies(&rt, alloc, 0, [OLD; 3], [OLD; 3]);
    fails_and_dies(&rt, alloc, 1, [OLD; 3], [OLD; 3]);
    fails_and_dies(&rt, alloc, 2, [OLD; 3], [OLD; 3]);
    fails_and_dies(&rt, alloc, 3, gate, [OLD; 3]);
    fails_and_dies(&rt, alloc, 4, gate, gate);
    fails_and_dies(&rt, alloc, 5, [NEW; 3], [NEW; 3]);
}

fn is_counted(disk: &mut MemDisk) -> bool
    requires { ⟦<MemDisk as Disk>⟧.block_count disk.old ≡ 5 }
{
    put(disk)
        && disk.counts()
            == Counts {
                reads: 0,
                writes: 3,
                syncs: 2,
            }
}

#[test]
fn calls_are_counted(rt: HostRuntime) {
    assert!(rt; is_counted(&mut zeros(&rt, rt.alloc(), 5, &[])));
}

fn serves<D: Disk>(disk: &mut D) -> bool
    requires { D.block_count disk.old ≡ 5 }
{
    wrote(disk, 3, 7) && held(disk) == (Some(7), Some(0))
}

#[test]
fn scratch_serves_a_session(rt: HostRuntime) {
    let mut disk = ScratchDisk::new(rt.alloc(), 5).expect(&rt, "memory");
    assert!(rt; serves(&mut disk));
}
