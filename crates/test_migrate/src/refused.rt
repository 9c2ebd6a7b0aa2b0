// Old disks with no volume of version 1, new disks that are too small, and words that spell no migration.
use crate::images::{
    BLOCKS, BLOCKS1, Words, copy, is_only_read, old_volume, stopped, write_words, zeros,
};
use crate::outcomes::{Expected, is_outcome, line_ends, migrates, outcome};
use mg_disk::{Counts, Fuse, Left, MemDisk};
use mg_model::limits::ROOT_BASE as ROOT;
use std::alloc::Global;
use std::process::Abort;
use test_helpers::{SEED, volume};

const NOT: Expected = (2, "open not\n");

const OLD: Expected = (2, "open old\n");

const NEW: Expected = (2, "open new\n");

const DAMAGED: Expected = (2, "open damaged\n");

// The first word of a superblock, the bytes MUNGIVOL.
const MAGIC: u64 = 0x4c4f_5649_474e_554d;

const ROOT_PAGE: u64 = 0x10_0000;

// Changed blocks of a fresh volume of version 1, and the outcome of its migration.
const CHANGES: &[(&str, Expected, &[Words])] = &[
    ("the gate is closed", NOT, &[(0, &[])]),
    ("another first word", NOT, &[(1, &[(0, 7), (1, 1)])]),
    ("version 0", OLD, &[(1, &[(0, MAGIC)])]),
    ("version 2", NEW, &[(1, &[(0, MAGIC), (1, 2)])]),
    (
        "the last version",
        NEW,
        &[(1, &[(0, MAGIC), (1, u64::MAX)])],
    ),
    ("no frames", DAMAGED, &[(1, &[(0, MAGIC), (1, 1)])]),
    (
        "161 bodies",
        DAMAGED,
        &[(488, &[(0, 0xa5)]), (489, &[(0, 161)])],
    ),
    (
        "a body of block 1297",
        DAMAGED,
        &[(488, &[(0, 0xa5)]), (489, &[(0, 1), (1, 1297)])],
    ),
    // A volume of this version has such a block.
    (
        "a body of block 2148",
        DAMAGED,
        &[(488, &[(0, 0xa5)]), (489, &[(0, 1), (1, 2148)])],
    ),
    ("one draw", DAMAGED, &[(1298, &[(0, 1), (3, 1)])]),
    (
        "balance 999",
        DAMAGED,
        &[(1299, &[(0, 1), (1, 5), (2, 999)])],
    ),
    ("no thread 1", DAMAGED, &[(1315, &[])]),
    ("a row with a word alone", DAMAGED, &[(2082, &[(448, 7)])]),
    (
        "rights 64",
        DAMAGED,
        &[(
            1571,
            &[(0, 1), (1, ROOT), (2, 1), (3, 1), (4, 1), (10, 5), (26, 64)],
        )],
    ),
    // Seventeen passwords would have their last rights among the entries.
    (
        "17 passwords",
        DAMAGED,
        &[(
            1571,
            &[
                (0, 1),
                (1, ROOT),
                (2, 1),
                (3, 1),
                (4, 17),
                (26, 0x0101_0101_0101_0101),
                (27, 0x0101_0101_0101_0101),
                (28, 1),
            ],
        )],
    ),
    // In this version this word has an until.
    (
        "a word after the entries",
        DAMAGED,
        &[(
            1571,
            &[
                (0, 1),
                (1, ROOT),
                (2, 1),
                (3, 1),
                (4, 1),
                (10, 5),
                (26, 63),
                (62, 1 << 24),
            ],
        )],
    ),
    (
        "the end of the frame table",
        DAMAGED,
        &[(2083, &[(0, ROOT_PAGE), (64, 1)])],
    ),
    (
        "a page in two frames",
        DAMAGED,
        &[(2083, &[(0, ROOT_PAGE), (63, ROOT_PAGE)])],
    ),
    (
        "a page of no object",
        DAMAGED,
        &[(2083, &[(0, ROOT_PAGE), (63, ROOT_PAGE + 1)])],
    ),
];

// Whether a migration to a new disk of `blocks` blocks has this outcome, makes no call of it, and only reads the old disk.
fn refuses(
    rt: &impl Abort,
    alloc: Global,
    old: &mut MemDisk,
    blocks: u64,
    expected: Expected,
) -> bool {
    let mut new = zeros(rt, alloc, blocks, &[]);
    let before = old.counts();
    let is_expected = migrates(rt, alloc, &mut new, old, expected);
    is_expected && is_only_read(before, old.counts()) && new.counts() == Counts::default()
}

// Whether a copy of this disk with these changes is refused.
fn refuses_change(
    rt: &impl Abort,
    alloc: Global,
    fresh: &MemDisk,
    changes: &[Words],
    expected: Expected,
) -> bool {
    let mut old = stopped(rt, alloc, fresh, Left::Old);
    write_words(&mut old, changes);
    refuses(rt, alloc, &mut old, BLOCKS, expected)
}

#[test]
fn old_disks_with_one_change(rt: HostRuntime) {
    let fresh = old_volume(&rt, rt.alloc(), &[], &[]);
    for (change, expected, changes) in CHANGES {
        assert!(rt;
            refuses_change(&rt, rt.alloc(), &fresh, changes, *expected),
            "{change}"
        );
    }
}

// Refuses a disk of `blocks` blocks that begins with the blocks of this one.
fn refuses_size(
    rt: &impl Abort,
    alloc: Global,
    from: &mut MemDisk,
    blocks: u64,
    expected: Expected,
) {
    let mut old = zeros(rt, alloc, blocks, &[]);
    copy(from, &mut old);
    assert!(rt; refuses(rt, alloc, &mut old, BLOCKS, expected));
}

fn refuses_zeros(rt: &impl Abort, alloc: Global) -> bool {
    refuses(rt, alloc, &mut zeros(rt, alloc, BLOCKS, &[]), BLOCKS, NOT)
}

// A volume of this version.
fn made_new(rt: &impl Abort, alloc: Global) -> MemDisk {
    let line = format!(in alloc; "old format 64 {SEED} 1000").expect(rt, "memory");
    volume(alloc, line.as_str()).expect(rt, "memory")
}

fn refuses_new(rt: &impl Abort, alloc: Global) -> bool {
    refuses(rt, alloc, &mut made_new(rt, alloc), BLOCKS, NEW)
}

#[test]
fn old_disks_without_such_a_volume(rt: HostRuntime) {
    let alloc = rt.alloc();
    let mut from = old_volume(&rt, alloc, &[], &[]);
    refuses_size(&rt, alloc, &mut from, 0, NOT);
    refuses_size(&rt, alloc, &mut from, 1, NOT);
    refuses_size(&rt, alloc, &mut from, 2, DAMAGED);
    refuses_size(&rt, alloc, &mut from, BLOCKS1 - 1, DAMAGED);
    assert!(rt; refuses_zeros(&rt, alloc) && refuses_new(&rt, alloc));
}

// A damaged old volume is reported before a small new disk.
fn are_too_small(rt: &impl Abort, alloc: Global, old: &mut MemDisk) -> bool {
    let by_one = refuses(rt, alloc, old, BLOCKS - 1, (8, "small 2660 2659\n"));
    let by_all = refuses(rt, alloc, old, 0, (8, "small 2660 0\n"));
    write_words(old, &[(1298, &[])]);
    by_one && by_all && refuses(rt, alloc, old, 0, DAMAGED)
}

#[test]
fn new_disks_that_are_too_small(rt: HostRuntime) {
    let mut old = old_volume(&rt, rt.alloc(), &[], &[]);
    assert!(rt; are_too_small(&rt, rt.alloc(), &mut old));
}

fn reports_old(rt: &impl Abort, alloc: Global, line: &str, disk: &mut MemDisk) -> bool {
    let outcome = outcome(rt, alloc, line, disk, "1 store 0x100000020 5\n");
    is_outcome(&outcome, OLD.0, OLD.1)
}

fn is_not_run(rt: &impl Abort, alloc: Global, disk: &mut MemDisk) -> bool {
    reports_old(rt, alloc, "old run", disk)
        && reports_old(rt, alloc, "old check", disk)
        && is_only_read(Counts::default(), disk.counts())
}

#[test]
fn a_volume_of_version_1_is_not_run(rt: HostRuntime) {
    let made = old_volume(&rt, rt.alloc(), &[], &[]);
    let mut old = stopped(&rt, rt.alloc(), &made, Left::Old);
    assert!(rt; is_not_run(&rt, rt.alloc(), &mut old));
}

// A disk of which each call fails.
fn dead(rt: &impl Abort, alloc: Global, blocks: u64) -> Fuse<MemDisk> {
    Fuse::new(zeros(rt, alloc, blocks, &[]), 0)
}

fn is_usage(rt: &impl Abort, alloc: Global, line: &str) {
    let (mut new, mut old) = (dead(rt, alloc, BLOCKS), dead(rt, alloc, BLOCKS1));
    assert!(rt;
        line_ends(rt, alloc, line, &mut new, &mut old, (1, "usage\n")),
        "{line}"
    );
}

#[test]
fn words_that_spell_no_migration(rt: HostRuntime) {
    let alloc = rt.alloc();
    is_usage(&rt, alloc, "a migrate a");
    is_usage(&rt, alloc, "a Migrate b");
    is_usage(&rt, alloc, "a migrated b");
    is_usage(&rt, alloc, "a migrate");
    is_usage(&rt, alloc, "a migrate b c");
    is_usage(&rt, alloc, "migrate a b");
    is_usage(&rt, alloc, "a check b");
    is_usage(&rt, alloc, "");
}
