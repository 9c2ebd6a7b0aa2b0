// A volume whose journal is not written home is migrated to another disk.
use crate::images::{
    BLOCKS, IN_JOURNAL, MOVED, begins_with, is_only_read, old_volume, stopped, zeros,
};
use crate::outcomes::{checks, is_outcome, migrates, outcome};
use mg_disk::{Counts, Left, MemDisk};
use std::alloc::Global;
use std::process::Abort;

/// The seed's fourth password is the first that the new volume draws.
fn draws(rt: &impl Abort, alloc: Global, new: &mut MemDisk) -> bool {
    let line = "1 pwadd 0x0000000100000000 R\n";
    is_outcome(
        &outcome(rt, alloc, "new run", new, line),
        0,
        "ok 0xc70d778bccef36a8\n",
    )
}

/// Whether a stop leaves that volume.
fn is_left(rt: &impl Abort, alloc: Global, new: &MemDisk) -> bool {
    checks(rt, alloc, &mut stopped(rt, alloc, new, Left::Old), MOVED)
}

/// Whether the migration succeeds, only reads the old disk, leaves it as it was made, and makes a volume that continues from it.
fn is_moved(
    rt: &impl Abort,
    alloc: Global,
    made: &mut MemDisk,
    old: &mut MemDisk,
    new: &mut MemDisk,
) -> bool {
    migrates(rt, alloc, new, old, MOVED)
        && is_only_read(Counts::default(), old.counts())
        && begins_with(old, made)
        && draws(rt, alloc, new)
        && is_left(rt, alloc, new)
}

#[test]
fn a_volume_continues_where_it_was(rt: HostRuntime) {
    let alloc = rt.alloc();
    let mut made = old_volume(&rt, alloc, IN_JOURNAL, &[]);
    let mut old = stopped(&rt, alloc, &made, Left::Old);
    let mut new = zeros(&rt, alloc, BLOCKS, &[]);
    assert!(rt; is_moved(&rt, alloc, &mut made, &mut old, &mut new));
}
