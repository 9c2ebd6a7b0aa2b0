// Reads of the old disk that fail, one in each migration.
ghost use Rattle.std.specs.Prelude.{◌<◌};

use crate::after::Content::{self, Before, Nothing};
use crate::after::{formatted, leaves};
use crate::images::{BLOCKS, CALLS_TO_MAKE, IN_JOURNAL, MOVED, old_volume, stopped};
use crate::outcomes::migrates;
use mg_disk::{Left, MemDisk};
use std::alloc::Global;
use std::ops::Range;
use std::process::Abort;

/// The number of reads before the copy: the gate, the superblock, the gates of the segments, an index, and one for each block of this
/// version from the counters to the end of the frame table.
const BEFORE: u64 = 11 + 1298;

/// The number of reads of the copy: one for each block from the counters on.
const COPIED: u64 = BLOCKS - 1298;

/// A disk with a volume of version 1. Its read with this number, from then on, fails.
fn faulty(rt: &impl Abort, alloc: Global, read: u64) -> MemDisk {
    old_volume(rt, alloc, IN_JOURNAL, &[CALLS_TO_MAKE.saturating_add(read)])
}

/// Whether the migration ends with a fault of a disk, makes these numbers of writes and syncs on the new disk, and leaves this content.
fn fails(
    rt: &impl Abort,
    alloc: Global,
    new: &mut MemDisk,
    old: &mut MemDisk,
    (writes, syncs): (u64, u64),
    content: Content,
) -> bool {
    let is_expected = migrates(rt, alloc, new, old, (4, ""));
    let counts = new.counts();
    is_expected
        && counts.writes == writes
        && counts.syncs == syncs
        && leaves(rt, alloc, new, [content; 3])
}

/// The migration onto a copy of the disk `new`, with the failing read.
fn fails_at(
    rt: &impl Abort,
    alloc: Global,
    new: &MemDisk,
    read: u64,
    calls: (u64, u64),
    content: Content,
) {
    let mut old = faulty(rt, alloc, read);
    let mut new = stopped(rt, alloc, new, Left::Old);
    assert!(rt;
        fails(rt, alloc, &mut new, &mut old, calls, content),
        "{read}"
    );
}

/// Whether no call of the new disk is made.
fn fails_before(rt: &impl Abort, alloc: Global, new: &MemDisk, reads: Range<u64>) {
    for read in reads {
        fails_at(rt, alloc, new, read, (0, 0), Before);
    }
}

#[test]
fn a_read_before_the_copy_fails(rt: HostRuntime) {
    let alloc = rt.alloc();
    let new = formatted(&rt, alloc, u64::MAX);
    fails_before(&rt, alloc, &new, 0..40);
    fails_before(&rt, alloc, &new, 300..301);
    fails_before(&rt, alloc, &new, BEFORE - 1..BEFORE);
}

/// The read after `done` blocks of the copy fails.
///
/// The gate was closed and synced. The blocks before the counters need no read. 32 blocks are read before the first of them is written.
fn fails_within(rt: &impl Abort, alloc: Global, new: &MemDisk, done: u64)
    requires { done < 2000 }
{
    let writes = 1 + (1297 + done) / 32 * 32;
    fails_at(rt, alloc, new, BEFORE + done, (writes, 1), Nothing);
}

/// Whether the migration succeeds if only a read after the copy would fail.
fn is_unharmed(rt: &impl Abort, alloc: Global, new: &MemDisk) -> bool {
    let mut old = faulty(rt, alloc, BEFORE + COPIED);
    migrates(
        rt,
        alloc,
        &mut stopped(rt, alloc, new, Left::Old),
        &mut old,
        MOVED,
    )
}

#[test]
fn a_read_of_the_copy_fails(rt: HostRuntime) {
    let alloc = rt.alloc();
    let new = formatted(&rt, alloc, u64::MAX);
    fails_within(&rt, alloc, &new, 0);
    fails_within(&rt, alloc, &new, 1);
    fails_within(&rt, alloc, &new, 14);
    fails_within(&rt, alloc, &new, 15);
    fails_within(&rt, alloc, &new, 273);
    fails_within(&rt, alloc, &new, 274);
    fails_within(&rt, alloc, &new, 1000);
    fails_within(&rt, alloc, &new, COPIED - 1);
    assert!(rt; is_unharmed(&rt, alloc, &new));
}
