// A batch of three lines on a disk that stops after each of its calls, from the first call of the opening on.
use mg_disk::{Fuse, Left, MemDisk, ScratchDisk};
use std::alloc::Global;
use test_helpers::{BLOCKS, MAKING, fresh, output_for, outputs_for};

const LINES: &str = "1 store 0x100000020 5\n1 store 0x100000028 6\nrent\n";

const ANSWERED: &str = "0 ok\nok\nok 1 1 1\n";

const SHOWN_BY: &str = "1 load 0x100000020\n1 load 0x100000028\nrent\n";

// What these lines print before the batch and after it.
const BEFORE: &str = "0 ok 0x0000000000000000\nok 0x0000000000000000\nok 1 1 1\n";

const AFTER: &str = "0 ok 0x0000000000000005\nok 0x0000000000000006\nok 2 1 1\n";

// The number of calls that a run with this input makes on a fresh volume.
fn calls_of(alloc: Global, input: &str) -> Option<u64> {
    match fresh(alloc) {
        Ok(mut disk) => {
            let is_done = output_for(alloc, "vol run 3", &mut disk, input).is_ok();
            let counts = disk.counts();
            let changes = counts.writes.saturating_add(counts.syncs);
            if is_done {
                Some(counts.reads.saturating_add(changes))
            } else {
                None
            }
        }
        Err(_) => None,
    }
}

// Whether a run that stops after so many calls prints nothing, and leaves the state before the batch. An opening only reads a fresh
// volume, and its sync finds nothing pending, so a stop leaves what the disk holds.
fn only_opens(alloc: Global, calls: u64) -> bool {
    match ScratchDisk::new(alloc, BLOCKS) {
        Ok(disk) => only_opens_on(alloc, disk, calls),
        Err(_) => false,
    }
}

fn only_opens_on(alloc: Global, disk: ScratchDisk, calls: u64) -> bool {
    let mut disk = disk;
    let is_made = output_for(alloc, MAKING, &mut disk, "").is_ok();
    let mut fuse = Fuse::new(disk, calls);
    let is_cut = outputs_for(alloc, "vol run 3", &mut fuse, LINES, "4 ");
    let mut left = fuse.into_inner();
    is_made && is_cut && outputs_for(alloc, "vol run", &mut left, SHOWN_BY, BEFORE)
}

// Whether a stop leaves one of the states, and the one after the batch if it was answered.
fn leaves(alloc: Global, disk: &MemDisk, left: Left, is_answered: bool) -> bool {
    match output_after(alloc, disk, left) {
        Some(found) => found.as_str() == AFTER || !is_answered && found.as_str() == BEFORE,
        None => false,
    }
}

fn output_after(alloc: Global, disk: &MemDisk, left: Left) -> Option<String> {
    match disk.stopped(alloc, left) {
        Ok(mut image) => match output_for(alloc, "vol run", &mut image, SHOWN_BY) {
            Ok(found) => Some(found),
            Err(_) => None,
        },
        Err(_) => None,
    }
}

// Whether that is so of a run that stops after so many calls, which answers all lines or none.
fn stops_well(alloc: Global, calls: u64) -> bool {
    match fresh(alloc) {
        Ok(disk) => stops_well_on(alloc, Fuse::new(disk, calls)),
        Err(_) => false,
    }
}

fn stops_well_on(alloc: Global, fuse: Fuse<MemDisk>) -> bool {
    let mut fuse = fuse;
    match output_for(alloc, "vol run 3", &mut fuse, LINES) {
        Ok(found) => is_left(
            alloc,
            &fuse.into_inner(),
            found.as_str() == ANSWERED,
            found.as_str() == "4 ",
        ),
        Err(_) => false,
    }
}

fn is_left(alloc: Global, disk: &MemDisk, is_answered: bool, is_cut: bool) -> bool {
    (is_answered || is_cut)
        && leaves(alloc, disk, Left::Old, is_answered)
        && leaves(alloc, disk, Left::New, is_answered)
        && leaves(alloc, disk, Left::Gates, is_answered)
}

// The first number of calls that is wrong. From the sync of the opening on, each stop is taken in three ways.
fn wrong(alloc: Global, opening: u64, all: u64) -> Option<u64> {
    for calls in 0..opening {
        if !only_opens(alloc, calls) {
            return Some(calls);
        }
    }
    for calls in opening..=all {
        if !stops_well(alloc, calls) {
            return Some(calls);
        }
    }
    None
}

fn wrong_calls(alloc: Global) -> Option<u64> {
    match (calls_of(alloc, ""), calls_of(alloc, LINES)) {
        (Some(opening), Some(all)) => wrong(alloc, opening, all),
        _ => Some(u64::MAX),
    }
}

#[test]
fn a_batch_is_whole_or_absent(rt: HostRuntime) {
    assert_eq!(rt; wrong_calls(rt.alloc()), None);
}
