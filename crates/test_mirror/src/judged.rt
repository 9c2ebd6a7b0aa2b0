// The named disk is judged by its first two blocks before anything is written.
use crate::disks::{Disks, Setup, VOLUME, ZEROS, make_disk, writes_to_make};
use crate::runs::{Expected, Outcome, Run, run_over};
use mg_disk::{BLOCK_SIZE, Disk, Fuse, MemDisk};
use mg_session::Status;
use std::alloc::Global;
use std::test::Fail;

/// A block, a place in it, and the new byte there.
type Damage = (u64, usize, u8);

/// A run with no lines over a mirror, in which the left disk is named.
#[derive(Clone, Copy)]
struct Row {
    left: Setup,
    /// The change of the left disk before the run.
    damage: Damage,
    right: Setup,
    printed: &'static str,
    /// The number of blocks written on the right disk. None is written on the left disk.
    writes: u64,
}

/// A fresh volume with a closed gate, beside a disk of zeros.
const CLOSED: Row = Row {
    left: VOLUME,
    damage: (0, 0, 0),
    right: ZEROS,
    printed: "open not\n",
    writes: 0,
};

const ROWS: [Row; 8] = [
    // The gate, and the eight bytes.
    Row {
        damage: (0, 0, 0),
        printed: "open not\n",
        writes: 0,
        ..CLOSED
    },
    Row {
        damage: (1, 0, b'm'),
        printed: "open not\n",
        writes: 0,
        ..CLOSED
    },
    // The version.
    Row {
        damage: (1, 8, 1),
        printed: "open old\n",
        writes: 0,
        ..CLOSED
    },
    Row {
        damage: (1, 8, 3),
        printed: "open damaged\n",
        writes: 0,
        ..CLOSED
    },
    // Fifteen frames, and a byte after the fields.
    Row {
        damage: (1, 16, 15),
        printed: "open damaged\n",
        writes: 0,
        ..CLOSED
    },
    Row {
        damage: (1, 4095, 1),
        printed: "open damaged\n",
        writes: 0,
        ..CLOSED
    },
    // A byte after the counters, which only the whole examination finds. Block 0 is closed and the 2,660 blocks are copied first.
    Row {
        damage: (1298, 4095, 1),
        printed: "open damaged\n",
        writes: 2661,
        ..CLOSED
    },
    // The wrong disk is named. The volume stays.
    Row {
        left: ZEROS,
        right: VOLUME,
        ..CLOSED
    },
];

fn damage(disk: &mut Fuse<MemDisk>, at: Damage) {
    let (i, place, byte) = at;
    let mut block = [0; BLOCK_SIZE];
    if i < disk.blocks() && place < BLOCK_SIZE && disk.read(i, &mut block).is_ok() {
        block[place] = byte;
        let _ = disk.write(i, &block);
    }
}

fn is_judged(alloc: Global, row: &Row) -> bool {
    match make_disk(alloc, &row.left) {
        Some(mut left) => {
            damage(&mut left, row.damage);
            is_judged_with(alloc, row, left)
        }
        None => false,
    }
}

fn is_judged_with(alloc: Global, row: &Row, left: Fuse<MemDisk>) -> bool {
    match make_disk(alloc, &row.right) {
        Some(right) => is_judged_over(alloc, row, Disks { left, right }),
        None => false,
    }
}

fn is_judged_over(alloc: Global, row: &Row, disks: Disks) -> bool {
    let run = Run {
        line: &["l", "mirror", "r", "left"],
        input: "",
        expected: Expected {
            status: Status::NoVolume,
            alone: None,
            printed: row.printed,
        },
    };
    match run_over(alloc, &run, disks) {
        Some(outcome) => is_as_expected(alloc, row, outcome),
        None => false,
    }
}

/// Whether a run had the outcome of its row, and made just the writes of the row after those that made the disks. The damage is one
/// write.
fn is_as_expected(alloc: Global, row: &Row, outcome: Outcome) -> bool {
    let on_left = writes_to_make(alloc, &row.left).saturating_add(1);
    let on_right = writes_to_make(alloc, &row.right).saturating_add(row.writes);
    let is_expected = outcome.is_expected;
    let disks = outcome.disks;
    let found = writes(disks.left, disks.right);
    is_expected && found == (on_left, on_right)
}

fn writes(left: Fuse<MemDisk>, right: Fuse<MemDisk>) -> (u64, u64) {
    (
        left.into_inner().counts().writes,
        right.into_inner().counts().writes,
    )
}

/// The number of rows, from the first on, that have their outcome.
fn count_judged(alloc: Global) -> usize {
    let mut judged: usize = 0;
    for row in ROWS {
        if !is_judged(alloc, &row) {
            break;
        }
        judged = judged.saturating_add(1);
    }
    judged
}

#[test]
fn reports_no_volume_before_it_writes(rt: HostRuntime) -> Result<(), Fail> {
    assert_eq!(rt; count_judged(rt.alloc()), 8);
    Ok(())
}
