// The contents of the new disk: a volume of this version before the migration, and what a stop leaves.
use crate::images::{BLOCKS, MOVED, stopped, zeros};
use crate::outcomes::{is_outcome, outcome};
use Content::{Before, Moved, Nothing, Other};
use mg_disk::{Left, MemDisk};
use std::alloc::Global;
use std::process::Abort;
use test_helpers::{Outcome, SEED};

/// The number of calls that make a volume of this version: 1,310 writes and three syncs.
const CALLS_TO_FORMAT: u64 = 1313;

/// What a disk holds.
#[derive(Clone, Copy, PartialEq, Eq)]
pub enum Content {
    Nothing,
    /// The volume that was there before.
    Before,
    /// The volume that was migrated.
    Moved,
    Other,
}

/// The content of a disk whose check has this outcome.
fn content_by(outcome: &Outcome) -> Content {
    if is_outcome(outcome, 2, "open not\n") {
        Nothing
    } else if is_outcome(outcome, 0, "ok 64 1 1 1 1 0 500\n") {
        Before
    } else if is_outcome(outcome, MOVED.0, MOVED.1) {
        Moved
    } else {
        Other
    }
}

fn content_of(rt: &impl Abort, alloc: Global, disk: &mut MemDisk) -> Content {
    content_by(&outcome(rt, alloc, "new check", disk, ""))
}

fn content_after(rt: &impl Abort, alloc: Global, disk: &MemDisk, left: Left) -> Content {
    content_of(rt, alloc, &mut stopped(rt, alloc, disk, left))
}

/// Whether stops of each kind leave these contents.
pub fn leaves(rt: &impl Abort, alloc: Global, disk: &MemDisk, stops: [Content; 3]) -> bool {
    content_after(rt, alloc, disk, Left::Old) == stops[0]
        && content_after(rt, alloc, disk, Left::New) == stops[1]
        && content_after(rt, alloc, disk, Left::Gates) == stops[2]
}

/// A disk with a volume of 500 credits. Its call with the number `failing`, counted from then on, fails.
pub fn formatted(rt: &impl Abort, alloc: Global, failing: u64) -> MemDisk {
    let mut disk = zeros(
        rt,
        alloc,
        BLOCKS,
        &[CALLS_TO_FORMAT.saturating_add(failing)],
    );
    format(rt, alloc, &mut disk);
    disk
}

fn format(rt: &impl Abort, alloc: Global, disk: &mut MemDisk) {
    let line = format!(in alloc; "new format 64 {SEED} 500").expect(rt, "memory");
    let _ = outcome(rt, alloc, line.as_str(), disk, "");
}
