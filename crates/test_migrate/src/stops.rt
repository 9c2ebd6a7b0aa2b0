// Stops of the new disk, and calls of it that fail, with what it then holds.
use crate::after::Content::{self, Before, Moved, Nothing};
use crate::after::{formatted, leaves};
use crate::images::{BLOCKS, IN_JOURNAL, MOVED, old_volume, stopped, zeros};
use crate::outcomes::{Expected, migrates, outcome};
use mg_disk::{Fuse, Left, MemDisk};
use std::alloc::Global;
use std::process::Abort;

/// The number of calls that a migration makes on the new disk: a write of each block, one more of the gate, and three syncs.
const CALLS: u64 = BLOCKS + 4;

/// The outcome if this call is the first that is not made.
fn expected_at(call: u64) -> Expected {
    if call < CALLS { (4, "") } else { MOVED }
}

/// The contents that stops leave if the new disk held `before` and dies before this call, and those if the call fails.
///
/// A write of the gate that was not synced may leave it open or closed. A write of the gate that failed leaves it open.
fn contents_at(call: u64, before: Content) -> ([Content; 3], [Content; 3]) {
    match call {
        0 => ([before; 3], [before; 3]),
        1 => ([before, Nothing, before], [before, Nothing, before]),
        2..=2661 => ([Nothing; 3], [Nothing; 3]),
        2662 => ([Nothing; 3], [Nothing, Moved, Moved]),
        2663 => ([Nothing, Moved, Moved], [Nothing, Moved, Moved]),
        _ => ([Moved; 3], [Moved; 3]),
    }
}

/// A new disk with this content, of which a call fails.
fn new_disk(rt: &impl Abort, alloc: Global, before: Content, failing: u64) -> MemDisk {
    match before {
        Before => formatted(rt, alloc, failing),
        _ => zeros(rt, alloc, BLOCKS, &[failing]),
    }
}

/// A migration to this disk, which dies before a call.
fn dies(
    rt: &impl Abort,
    alloc: Global,
    new: MemDisk,
    old: &mut MemDisk,
    call: u64,
    stops: [Content; 3],
) {
    let mut fuse = Fuse::new(new, call);
    let is_expected = migrates(rt, alloc, &mut fuse, old, expected_at(call));
    let new = fuse.into_inner();
    assert!(rt; is_expected && leaves(rt, alloc, &new, stops), "{call}");
}

/// A migration to this disk, of which a call fails.
fn fails(
    rt: &impl Abort,
    alloc: Global,
    new: &mut MemDisk,
    old: &mut MemDisk,
    call: u64,
    stops: [Content; 3],
) {
    let is_expected = migrates(rt, alloc, new, old, expected_at(call));
    assert!(rt; is_expected && leaves(rt, alloc, new, stops), "{call}");
}

/// Both, one after the other, on disks with this content.
fn stops(rt: &impl Abort, alloc: Global, old: &mut MemDisk, before: Content, call: u64) {
    let (after_death, after_failure) = contents_at(call, before);
    dies(
        rt,
        alloc,
        new_disk(rt, alloc, before, u64::MAX),
        old,
        call,
        after_death,
    );
    fails(
        rt,
        alloc,
        &mut new_disk(rt, alloc, before, call),
        old,
        call,
        after_failure,
    );
}

/// Both for each of these calls, from a disk that holds what a stop leaves of this one.
fn stops_at(rt: &impl Abort, alloc: Global, made: &MemDisk, before: Content, from: u64, to: u64) {
    for call in from..to {
        stops(
            rt,
            alloc,
            &mut stopped(rt, alloc, made, Left::New),
            before,
            call,
        );
    }
}

fn stop(rt: &impl Abort, alloc: Global, before: Content, from: u64, to: u64) {
    stops_at(
        rt,
        alloc,
        &old_volume(rt, alloc, IN_JOURNAL, &[]),
        before,
        from,
        to,
    );
}

#[test]
fn the_first_calls_on_an_empty_disk(rt: HostRuntime) {
    stop(&rt, rt.alloc(), Nothing, 0, 21);
}

#[test]
fn the_last_calls_on_an_empty_disk(rt: HostRuntime) {
    stop(&rt, rt.alloc(), Nothing, CALLS - 20, CALLS + 1);
}

#[test]
fn the_first_calls_on_a_volume(rt: HostRuntime) {
    stop(&rt, rt.alloc(), Before, 0, 21);
}

#[test]
fn the_last_calls_on_a_volume(rt: HostRuntime) {
    stop(&rt, rt.alloc(), Before, CALLS - 20, CALLS + 1);
}

/// A new disk with the volume that was there before, whose run of a line is killed after `calls` calls. What it wrote since its last sync is
/// pending. A check prints the same whether the line is held or not.
fn killed(rt: &impl Abort, alloc: Global, made: &MemDisk, calls: u64) -> MemDisk {
    let mut fuse = Fuse::new(stopped(rt, alloc, made, Left::New), calls);
    let _ = outcome(rt, alloc, "new run", &mut fuse, "1 store 0x100000020 5\n");
    fuse.into_inner()
}

/// The number of calls that this run makes if it is not killed.
fn calls_of_run(rt: &impl Abort, alloc: Global, made: &MemDisk) -> u64 {
    let counts = killed(rt, alloc, made, u64::MAX).counts();
    counts
        .reads
        .saturating_add(counts.writes)
        .saturating_add(counts.syncs)
}

/// How many calls before its end that run is killed, and before which call of the migration its disk dies. The last call is the sync of a
/// gate, and the third last that of what it opens.
const PENDING: &[(u64, u64)] = &[
    (1, 0),
    (1, 1),
    (1, 2),
    (1, 3),
    (1, CALLS - 2),
    (1, CALLS - 1),
    (1, CALLS),
    (3, 0),
    (3, 1),
    (3, CALLS),
];

fn stop_after_kills(rt: &impl Abort, alloc: Global, made: &MemDisk, old: &MemDisk) {
    let all = calls_of_run(rt, alloc, made);
    for (back, call) in PENDING {
        let new = killed(rt, alloc, made, all.saturating_sub(*back));
        let (stops, _) = contents_at(*call, Before);
        let mut from = stopped(rt, alloc, old, Left::New);
        dies(rt, alloc, new, &mut from, *call, stops);
    }
}

#[test]
fn the_calls_on_a_volume_of_a_run_that_was_killed(rt: HostRuntime) {
    let alloc = rt.alloc();
    stop_after_kills(
        &rt,
        alloc,
        &formatted(&rt, alloc, u64::MAX),
        &old_volume(&rt, alloc, IN_JOURNAL, &[]),
    );
}
