// Eight commits of 160 blocks, none of them twice, and a ninth of one of them, which begins with a checkpoint of all.
ghost use Rattle.std.specs.Prelude.{◌≡◌, ◌≤◌, ◌+◌, true};
ghost use Rattle.mg_journal.specs.Standing.{Stands, is_live, total_of};
ghost use Rattle.mg_model.specs.Replay.{homes_fit};

use crate::disks::{NONE, begins, zeros};
use mg_disk::{BLOCK_SIZE, Disk, Fuse, Left, MemDisk};
use mg_journal::{Store, Writes};
use std::alloc::Global;

/// The first block after the journal.
const FIRST: u64 = 1298;

/// The blocks of the disks here: the journal, and those of eight commits.
const BLOCKS: u64 = 2578;

/// More calls than a test makes of one disk.
const ROOM: u64 = 4000;

/// The calls of an opening and eight commits.
const EIGHT: u64 = 17 + 8 * 164;

/// The calls of the ninth: bodies and homes, 1,280 of each, and a sync; two for each gate; five for the one block.
const NINTH: u64 = 2560 + 1 + 16 + 5;

/// Stages 160 blocks from this one on, each filled with this byte.
fn stage_all(writes: &mut Writes, first: u64, byte: u8)
    requires low { 1298 ≤ first }
    requires high { first + 160 ≤ 2578 }
    ensures fit { homes_fit 2578 writes.new ≡ true }
{
    let block = [byte; BLOCK_SIZE];
    writes.clear();
    for k in 0..160 {
        writes.stage(first + k, &block);
    }
}

/// Makes eight commits, of which each is filled with its number, from 1 on.
fn fill<D: Disk>(store: &mut Store, disk: &mut D, writes: &mut Writes) -> bool
    requires live { is_live store.old ≡ true }
    requires stands { Stands D.Disk store.old disk.old }
    requires total { total_of store.old ≡ 2578 }
    ensures live { result ≡ true → is_live store.new ≡ true }
    ensures stands { result ≡ true → Stands D.Disk store.new disk.new }
    ensures total { total_of store.new ≡ 2578 }
    ensures blocks { D.block_count disk.new ≡ D.block_count disk.old }
{
    for segment in 0..8 {
        stage_all(writes, FIRST + 160 * segment, segment as u8 + 1);
        if store.commit(disk, writes).is_err() {
            return false;
        }
    }
    true
}

/// Makes the eight commits, and then one of the first block, filled with 9.
fn nine_of<D: Disk>(store: &mut Store, disk: &mut D, writes: &mut Writes) -> bool
    requires live { is_live store.old ≡ true }
    requires stands { Stands D.Disk store.old disk.old }
    requires total { total_of store.old ≡ 2578 }
    ensures blocks { D.block_count disk.new ≡ D.block_count disk.old }
{
    if !fill(store, disk, writes) {
        return false;
    }
    writes.clear();
    writes.stage(1298, &[9; BLOCK_SIZE]);
    store.commit(disk, writes).is_ok()
}

/// Opens the journal, and makes the nine commits.
fn nine_on<D: Disk>(alloc: Global, disk: &mut D, writes: &mut Writes) -> bool
    requires at_least_2578_blocks { 2578 ≤ D.block_count disk.old }
    ensures blocks { D.block_count disk.new ≡ D.block_count disk.old }
{
    match Store::open(alloc, disk, BLOCKS) {
        Ok(mut store) => nine_of(&mut store, disk, writes),
        Err(_) => false,
    }
}

fn nine<D: Disk>(alloc: Global, disk: &mut D) -> bool
    requires at_least_2578_blocks { 2578 ≤ D.block_count disk.old }
    ensures blocks { D.block_count disk.new ≡ D.block_count disk.old }
{
    match Writes::new(alloc) {
        Ok(mut writes) => nine_on(alloc, disk, &mut writes),
        Err(_) => false,
    }
}

/// Whether each block but the first begins with the number of its commit.
fn are_numbered<D: Disk>(store: &Store, disk: &mut D) -> bool
    requires total { total_of store.now ≡ 2578 }
    requires stands { Stands D.Disk store.now disk.old }
    ensures stands { Stands D.Disk store.now disk.new }
{
    for k in 1..1280 {
        if begins(store, disk, FIRST + k) != Some((k / 160 + 1) as u8) {
            return false;
        }
    }
    true
}

/// What the first block begins with, if the others are right.
fn first<D: Disk>(store: &Store, disk: &mut D) -> Option<u8>
    requires total { total_of store.now ≡ 2578 }
    requires stands { Stands D.Disk store.now disk.old }
{
    if are_numbered(store, disk) {
        begins(store, disk, FIRST)
    } else {
        None
    }
}

/// The same once the journal is opened.
fn held(alloc: Global, mut disk: MemDisk) -> Option<u8>
    requires has_2578_blocks { ⟦<MemDisk as Disk>⟧.block_count disk ≡ 2578 }
{
    match Store::open(alloc, &mut disk, BLOCKS) {
        Ok(store) => first(&store, &mut disk),
        Err(_) => None,
    }
}

/// The same after this stop.
fn stops(alloc: Global, disk: &MemDisk, left: Left) -> Option<u8>
    requires has_2578_blocks { ⟦<MemDisk as Disk>⟧.block_count disk.now ≡ 2578 }
{
    match disk.stopped(alloc, left) {
        Ok(disk) => held(alloc, disk),
        Err(_) => None,
    }
}

/// Whether the ninth commit was made, and what is held after a stop of each kind.
type Found = (bool, [Option<u8>; 3]);

fn burnt(alloc: Global, mut fuse: Fuse<MemDisk>) -> Found
    requires has_2578_blocks { ⟦<Fuse<MemDisk> as Disk>⟧.block_count fuse ≡ 2578 }
{
    let done = nine(alloc, &mut fuse);
    (done, held_after(alloc, &fuse.into_inner()))
}

fn held_after(alloc: Global, disk: &MemDisk) -> [Option<u8>; 3]
    requires has_2578_blocks { ⟦<MemDisk as Disk>⟧.block_count disk.now ≡ 2578 }
{
    [
        stops(alloc, disk, Left::Old),
        stops(alloc, disk, Left::New),
        stops(alloc, disk, Left::Gates),
    ]
}

/// The same on a disk that dies after `calls` calls of the ninth commit.
fn died_after(alloc: Global, calls: u64) -> Option<Found> {
    match zeros(alloc, BLOCKS, ROOM, NONE) {
        Some(disk) => Some(burnt(alloc, Fuse::new(disk, EIGHT.saturating_add(calls)))),
        None => None,
    }
}

/// Numbers of calls of the ninth commit, and the block that is held after a stop of each kind.
const STOPS: [(u64, [u8; 3]); 17] = [
    (0, [1; 3]),
    (1, [1; 3]),
    (2, [1; 3]),
    (160, [1; 3]),
    (1280, [1; 3]),
    (1281, [1; 3]),
    (1360, [1; 3]),
    (1440, [1; 3]),
    (2559, [1; 3]),
    (2560, [1; 3]),
    (2561, [1; 3]),
    (2562, [1; 3]),
    (2569, [1; 3]),
    (2576, [1; 3]),
    (2580, [1; 3]),
    (2581, [1, 9, 9]),
    (2582, [9; 3]),
];

/// The first of these numbers if something else is held.
fn wrong_stop(alloc: Global) -> Option<u64> {
    for (calls, [old, new, gates]) in STOPS {
        let held = [Some(old), Some(new), Some(gates)];
        if died_after(alloc, calls) != Some((calls == NINTH, held)) {
            return Some(calls);
        }
    }
    None
}

/// The calls of an opening after the eight commits: gates and indexes, and a sync; bodies and homes, and a sync; three for each gate.
const OPENING: u64 = 16 + 1 + 2560 + 1 + 24;

/// Whether the journal is opened, and what is held after a stop of each kind.
fn opened(alloc: Global, mut fuse: Fuse<MemDisk>) -> Found
    requires has_2578_blocks { ⟦<Fuse<MemDisk> as Disk>⟧.block_count fuse ≡ 2578 }
{
    let done = Store::open(alloc, &mut fuse, BLOCKS).is_ok();
    (done, held_after(alloc, &fuse.into_inner()))
}

/// The same on a disk that dies after `calls` calls of the opening.
fn opened_on(alloc: Global, mut fuse: Fuse<MemDisk>, calls: u64) -> Option<Found>
    requires has_2578_blocks { ⟦<Fuse<MemDisk> as Disk>⟧.block_count fuse ≡ 2578 }
{
    nine(alloc, &mut fuse);
    match fuse.into_inner().stopped(alloc, Left::Old) {
        Ok(disk) => Some(opened(alloc, Fuse::new(disk, calls))),
        Err(_) => None,
    }
}

fn opened_after(alloc: Global, calls: u64) -> Option<Found> {
    match zeros(alloc, BLOCKS, ROOM, NONE) {
        Some(disk) => opened_on(alloc, Fuse::new(disk, EIGHT), calls),
        None => None,
    }
}

/// Numbers of calls of that opening: among the reads, within a run of homes and between two, before the sync, and among the gates.
const OPENINGS: [u64; 9] = [0, 18, 1297, 1298, 1377, 1457, 2577, 2578, 2591];

/// The first of these numbers, or that of all calls, if something else is held.
fn wrong_opening(alloc: Global) -> Option<u64> {
    for calls in OPENINGS {
        if opened_after(alloc, calls) != Some((false, [Some(1); 3])) {
            return Some(calls);
        }
    }
    if opened_after(alloc, OPENING) == Some((true, [Some(1); 3])) {
        None
    } else {
        Some(OPENING)
    }
}

#[test]
fn a_full_journal_is_written_home(rt: HostRuntime) {
    assert_eq!(rt;
        (wrong_stop(rt.alloc()), wrong_opening(rt.alloc())),
        (None, None)
    );
}
