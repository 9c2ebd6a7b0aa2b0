// Mirrors of two disks whose runs were killed: what these wrote since their last sync is pending as the mirror copies one to the other.
use crate::disks::{BLOCKS, Disks, Setup, VOLUME, ZEROS, calls_to_make};
use crate::runs::{Case, Expected, Run, ran, run_over};
use mg_disk::{Fuse, Left, MemDisk};
use mg_mirror::Side;
use mg_session::Status;
use std::alloc::Global;

/// A disk of zeros that dies at its first call.
const DEAD: Setup = Setup { calls: 0, ..ZEROS };

/// A run of these lines over the left disk alone.
fn alone(input: &'static str, printed: &'static str) -> Run {
    Run {
        line: &["l", "mirror", "r", "left"],
        input,
        expected: Expected {
            status: Status::Done,
            alone: Some(Side::Left),
            printed,
        },
    }
}

/// The left disk of a run that stores this word over a fresh volume, which dies after `calls` calls. What is pending stays so.
fn stored(alloc: Global, input: &'static str, calls: u64) -> Option<MemDisk> {
    let case = Case {
        left: Setup { calls, ..VOLUME },
        right: DEAD,
        run: alone(input, ""),
    };
    match ran(alloc, &case) {
        Some(outcome) => Some(left_of(outcome.disks)),
        None => None,
    }
}

fn left_of(disks: Disks) -> MemDisk {
    disks.left.into_inner()
}

/// The number of calls that this run makes after its volume was made.
fn calls_of_run(alloc: Global, input: &'static str) -> Option<u64> {
    match stored(alloc, input, u64::MAX) {
        Some(disk) => calls_after_making(alloc, calls_of(&disk)),
        None => None,
    }
}

fn calls_after_making(alloc: Global, all: u64) -> Option<u64> {
    match calls_to_make(alloc) {
        Some(made) => Some(all.saturating_sub(made)),
        None => None,
    }
}

fn calls_of(disk: &MemDisk) -> u64 {
    let counts = disk.counts();
    counts
        .reads
        .saturating_add(counts.writes)
        .saturating_add(counts.syncs)
}

/// What a disk holds.
#[derive(Clone, Copy, PartialEq)]
enum Content {
    Nothing,
    /// A volume with this digit in the word that the runs store.
    Word(u8),
}

use Content::{Nothing, Word};

const ASKED: &str = "1 load 0x100000020\n";

/// The outcomes of a run that reads the word.
const SHOWN: &[(Content, Status, Option<Side>, &str)] = &[
    (Nothing, Status::NoVolume, None, "open not\n"),
    (
        Word(0),
        Status::Done,
        Some(Side::Left),
        "ok 0x0000000000000000\nalone left\n",
    ),
    (
        Word(5),
        Status::Done,
        Some(Side::Left),
        "ok 0x0000000000000005\nalone left\n",
    ),
    (
        Word(6),
        Status::Done,
        Some(Side::Left),
        "ok 0x0000000000000006\nalone left\n",
    ),
];

/// Whether a stop leaves this content.
fn leaves(alloc: Global, disk: &MemDisk, left: Left, content: Content) -> bool {
    for (shown, status, side, printed) in SHOWN {
        if *shown == content {
            let run = Run {
                expected: Expected {
                    status: *status,
                    alone: *side,
                    printed: *printed,
                },
                ..alone(ASKED, "")
            };
            return shows(alloc, disk, left, &run);
        }
    }
    false
}

fn shows(alloc: Global, disk: &MemDisk, left: Left, run: &Run) -> bool {
    match disk.stopped(alloc, left) {
        Ok(image) => shows_on(alloc, image, disk, run),
        Err(_) => false,
    }
}

/// Whether a run over this disk alone has its outcome. The other disk is what a stop leaves of another one, and dies at its first call.
fn shows_on(alloc: Global, image: MemDisk, other: &MemDisk, run: &Run) -> bool {
    match other.stopped(alloc, Left::Old) {
        Ok(right) => is_run(
            alloc,
            Disks {
                left: Fuse::new(image, u64::MAX),
                right: Fuse::new(right, 0),
            },
            run,
        ),
        Err(_) => false,
    }
}

fn is_run(alloc: Global, disks: Disks, run: &Run) -> bool {
    match run_over(alloc, run, disks) {
        Some(outcome) => outcome.is_expected,
        None => false,
    }
}

/// What stops leave: as of the last sync, as written, and with all destroyed that was written since.
type Stops = (Content, Content, Content);

fn all_leave(alloc: Global, disk: &MemDisk, stops: Stops) -> bool {
    leaves(alloc, disk, Left::Old, stops.0)
        && leaves(alloc, disk, Left::New, stops.1)
        && leaves(alloc, disk, Left::Gates, stops.2)
}

/// The gate of the line was written and not synced.
const PENDING: Stops = (Word(0), Word(5), Word(5));

/// The calls of both disks before they die, and what stops then leave of the right one. The left one dies among the reads of the opening,
/// which come after the copy if that is made, or among those of the copy. So stops leave of it what they might have left before. Block 0
/// of the right disk is closed and synced first, and written and synced last.
const ROWS: &[(u64, u64, Stops)] = &[
    (1000, 0, (Word(0), Word(6), Word(6))),
    (1000, 1, (Word(0), Nothing, Word(6))),
    (1000, 2, (Nothing, Nothing, Nothing)),
    (1000, 3, (Nothing, Nothing, Nothing)),
    (1000, u64::MAX, (Nothing, Nothing, Nothing)),
    (BLOCKS + 40, BLOCKS + 2, (Nothing, Nothing, Nothing)),
    (BLOCKS + 40, BLOCKS + 3, (Nothing, Word(5), Word(5))),
    (BLOCKS + 40, BLOCKS + 4, (Word(5), Word(5), Word(5))),
];

/// Whether a row is right, on disks whose runs were killed before their last call, the sync of a gate.
fn is_right(alloc: Global, calls: u64, row: &(u64, u64, Stops)) -> bool {
    match stored(alloc, "1 store 0x100000020 5\n", calls) {
        Some(left) => is_right_from(alloc, calls, row, Fuse::new(left, row.0)),
        None => false,
    }
}

fn is_right_from(alloc: Global, calls: u64, row: &(u64, u64, Stops), left: Fuse<MemDisk>) -> bool {
    match stored(alloc, "1 store 0x100000020 6\n", calls) {
        Some(right) => is_right_over(
            alloc,
            Disks {
                left,
                right: Fuse::new(right, row.1),
            },
            row.2,
        ),
        None => false,
    }
}

fn is_right_over(alloc: Global, disks: Disks, stops: Stops) -> bool {
    match run_over(alloc, &alone(ASKED, ""), disks) {
        Some(outcome) => is_left(alloc, outcome.disks, stops),
        None => false,
    }
}

fn is_left(alloc: Global, disks: Disks, stops: Stops) -> bool {
    let (left, right) = (disks.left.into_inner(), disks.right.into_inner());
    all_leave(alloc, &left, PENDING) && all_leave(alloc, &right, stops)
}

/// The number of rows, from the first on, that are right.
fn count_right(alloc: Global) -> usize {
    let mut right: usize = 0;
    if let Some(calls) = calls_of_run(alloc, "1 store 0x100000020 5\n") {
        for row in ROWS {
            if !is_right(alloc, calls.saturating_sub(1), row) {
                break;
            }
            right = right.saturating_add(1);
        }
    }
    right
}

#[test]
fn a_mirror_of_disks_with_something_pending(rt: HostRuntime) {
    assert!(rt; count_right(rt.alloc()) == ROWS.len());
}
