// Runs over two disks. One is a fresh volume, and the other has zeros.
use crate::disks::{BLOCKS, Setup, VOLUME, ZEROS, are_same, calls_to_make};
use crate::runs::{Case, Expected, Outcome, Run, is_expected, ran, run_over};
use mg_disk::{COPY_BLOCKS, Fuse, MemDisk};
use mg_mirror::Side;
use mg_session::Status;
use std::alloc::Global;
use std::test::Fail;

const TWO_PAGES: &str = "1 create 2 1 0x28bd8653e56a5d40\n";

const MADE: &str = "ok 0x0000000100001000 0x1aed8da0b819d2bd\n";

/// A session without a fault over a mirror that is copied from the left disk.
const FROM_LEFT: Run = Run {
    line: &["l", "mirror", "r", "left"],
    input: TWO_PAGES,
    expected: Expected {
        status: Status::Done,
        alone: None,
        printed: MADE,
    },
};

/// The left disk is a fresh volume, and no call fails.
const GOOD: Case = Case {
    left: VOLUME,
    right: ZEROS,
    run: FROM_LEFT,
};

/// A session on the right disk after that run.
const FROM_RIGHT: Run = Run {
    line: &["l", "mirror", "r", "right"],
    input: "1 create 1 1 0x28bd8653e56a5d40\n",
    expected: Expected {
        status: Status::Done,
        alone: None,
        printed: "ok 0x0000000100003000 0xc70d778bccef36a8\n",
    },
};

/// The outcomes of a run over both disks and of one that continues from the right one.
#[derive(Clone, Copy, Debug, PartialEq)]
struct Both {
    is_first_expected: bool,
    are_same: bool,
    is_second_expected: bool,
}

fn both_runs(alloc: Global) -> Option<Both> {
    match ran(alloc, &GOOD) {
        Some(first) => run_second(alloc, first),
        None => None,
    }
}

fn run_second(alloc: Global, first: Outcome) -> Option<Both> {
    let mut disks = first.disks;
    let are_same = are_same(&mut disks);
    match run_over(alloc, &FROM_RIGHT, disks) {
        Some(second) => Some(Both {
            is_first_expected: first.is_expected,
            are_same,
            is_second_expected: second.is_expected,
        }),
        None => None,
    }
}

#[test]
fn both_disks_hold_the_volume(rt: HostRuntime) -> Result<(), Fail> {
    let all = Both {
        is_first_expected: true,
        are_same: true,
        is_second_expected: true,
    };
    assert_eq!(rt; both_runs(rt.alloc()), Some(all));
    Ok(())
}

/// A disk of zeros that dies at its first call.
const DEAD: Setup = Setup { calls: 0, ..ZEROS };

/// A run from the left disk in which one or both disks die.
#[derive(Clone, Copy)]
struct Death {
    /// The number of calls of the left disk that pass before it dies.
    left: u64,
    /// The number of calls of the right disk that pass before it dies.
    right: u64,
    expected: Expected,
}

/// The number of these runs, from the first on, that have their outcome.
fn count_deaths(alloc: Global, deaths: &[Death]) -> usize {
    let mut passed: usize = 0;
    for death in deaths {
        if !has_outcome(alloc, death) {
            break;
        }
        passed = passed.saturating_add(1);
    }
    passed
}

fn has_outcome(alloc: Global, death: &Death) -> bool {
    let case = Case {
        left: Setup {
            calls: death.left,
            ..VOLUME
        },
        right: Setup {
            calls: death.right,
            ..ZEROS
        },
        run: Run {
            expected: death.expected,
            ..FROM_LEFT
        },
    };
    is_expected(alloc, &case)
}

const ONE_DIES: [Death; 2] = [
    // The left disk dies once it is copied.
    Death {
        left: BLOCKS,
        right: u64::MAX,
        expected: Expected {
            status: Status::Done,
            alone: Some(Side::Right),
            printed: "ok 0x0000000100001000 0x1aed8da0b819d2bd\nalone right\n",
        },
    },
    // The right disk dies while it is copied to.
    Death {
        left: u64::MAX,
        right: 7,
        expected: Expected {
            status: Status::Done,
            alone: Some(Side::Left),
            printed: "ok 0x0000000100001000 0x1aed8da0b819d2bd\nalone left\n",
        },
    },
];

#[test]
fn continues_if_one_dies(rt: HostRuntime) -> Result<(), Fail> {
    assert_eq!(rt; count_deaths(rt.alloc(), &ONE_DIES), 2);
    Ok(())
}

const BOTH_DIE: [Death; 3] = [
    // The right disk dies before a block is written, and the left one after the first blocks were read.
    Death {
        left: COPY_BLOCKS as u64,
        right: 0,
        expected: Expected {
            status: Status::Disk,
            alone: Some(Side::Left),
            printed: "",
        },
    },
    // The left disk dies after its first block, and no call of the right one passes.
    Death {
        left: 1,
        right: 0,
        expected: Expected {
            status: Status::Disk,
            alone: None,
            printed: "",
        },
    },
    // If the first read fails, there is no mirror.
    Death {
        left: 0,
        right: u64::MAX,
        expected: Expected {
            status: Status::Disk,
            alone: None,
            printed: "",
        },
    },
];

#[test]
fn fails_if_both_die(rt: HostRuntime) -> Result<(), Fail> {
    assert_eq!(rt; count_deaths(rt.alloc(), &BOTH_DIE), 3);
    Ok(())
}

/// The number of runs, of ten, that print the same as a run without a fault. In each of them another read of the left disk fails after
/// the copy, from read number `reads` on. The right disk then reads the blocks of that read and nothing else. A failed write would drop
/// the left disk, and the run would say so.
fn count_same(alloc: Global, reads: u64) -> usize {
    match calls_to_make(alloc) {
        Some(calls) => count_same_from(alloc, calls.saturating_add(BLOCKS), reads),
        None => 0,
    }
}

fn count_same_from(alloc: Global, copied: u64, first: u64) -> usize {
    let mut same: usize = 0;
    for k in 0..10 {
        let read = first.saturating_add(k);
        let left = Setup {
            fails: Some(copied.saturating_add(read)),
            ..VOLUME
        };
        if is_same(alloc, &Case { left, ..GOOD }, blocks_with(read)) {
            same = same.saturating_add(1);
        }
    }
    same
}

/// The number of blocks that are read together with this one, of the first 30 that an opening reads. The gate, the superblock, the gates
/// of eight segments and the counters are read one by one, then the 16 blocks of accounts together, and then 32 rows of threads.
fn blocks_with(read: u64) -> u64 {
    match read {
        0..=10 => 1,
        11..=26 => 16,
        _ => 32,
    }
}

/// Whether a run had its outcome, and read this number of blocks of the right disk.
fn is_same(alloc: Global, case: &Case, blocks: u64) -> bool {
    match ran(alloc, case) {
        Some(outcome) => is_same_with(outcome, blocks),
        None => false,
    }
}

fn is_same_with(outcome: Outcome, blocks: u64) -> bool {
    let is_expected = outcome.is_expected;
    let disks = outcome.disks;
    let found = reads(disks.left, disks.right);
    is_expected && found.1 == blocks
}

fn reads(left: Fuse<MemDisk>, right: Fuse<MemDisk>) -> (u64, u64) {
    (
        left.into_inner().counts().reads,
        right.into_inner().counts().reads,
    )
}

#[test]
fn a_read_of_the_first_ten_fails(rt: HostRuntime) -> Result<(), Fail> {
    assert_eq!(rt; count_same(rt.alloc(), 0), 10);
    Ok(())
}

#[test]
fn a_read_of_the_second_ten_fails(rt: HostRuntime) -> Result<(), Fail> {
    assert_eq!(rt; count_same(rt.alloc(), 10), 10);
    Ok(())
}

#[test]
fn a_read_of_the_third_ten_fails(rt: HostRuntime) -> Result<(), Fail> {
    assert_eq!(rt; count_same(rt.alloc(), 20), 10);
    Ok(())
}

/// Words that spell no mirror.
const NO_MIRRORS: [&[&str]; 7] = [
    &["l", "mirror", "l", "left"],
    &["l", "mirror", "r", "middle"],
    &["l", "mirror", "r"],
    &["l", "mirror", "r", "left", "1"],
    &["l", "mirrors", "r", "left"],
    &["l"],
    &[],
];

/// Whether these words spell no mirror, on disks of which each call would fail.
fn spells_none(alloc: Global, line: &'static [&'static str]) -> bool {
    let case = Case {
        left: DEAD,
        right: DEAD,
        run: Run {
            line,
            input: TWO_PAGES,
            expected: Expected {
                status: Status::Usage,
                alone: None,
                printed: "usage\n",
            },
        },
    };
    is_expected(alloc, &case)
}

/// The number of these, from the first on, that spell no mirror.
fn count_none(alloc: Global) -> usize {
    let mut none: usize = 0;
    for line in NO_MIRRORS {
        if !spells_none(alloc, line) {
            break;
        }
        none = none.saturating_add(1);
    }
    none
}

#[test]
fn words_that_spell_no_mirror(rt: HostRuntime) -> Result<(), Fail> {
    assert_eq!(rt; count_none(rt.alloc()), 7);
    Ok(())
}
