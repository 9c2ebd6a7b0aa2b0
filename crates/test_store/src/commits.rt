// A commit of two blocks, and nine of three blocks, of which the ninth begins with a checkpoint, on disks that die and that fail.
ghost use Rattle.std.specs.Prelude.{◌≡◌, ◌<◌, ◌≤◌, IfSome, true};
ghost use Rattle.mg_journal.specs.Standing.{Stands, is_live, total_of};
ghost use Rattle.mg_model.specs.Replay.{homes_fit};

use crate::disks::{NONE, begins, zeros};
use mg_disk::{BLOCK_SIZE, Counts, Disk, Fuse, Left, MemDisk};
use mg_journal::{Store, Writes};
use std::alloc::Global;

/// The blocks of the disks here.
const BLOCKS: u64 = 1311;

/// More calls than a test makes of one disk.
const ROOM: u64 = 200;

/// The calls of an opening that finds no open segment.
const OPENING: u64 = 17;

/// What blocks 1298, 1299, 1300 and 1310 begin with.
type Contents = [u8; 4];

/// The commits that are made.
#[derive(Clone, Copy)]
enum Work {
    /// One of two blocks, the second of which is staged twice.
    Pair,
    /// Those of three blocks, from 1 up to before this number.
    Threes(u8),
}

/// Stages blocks 1299 and 1300, and 1298 if the number is even or 1310 if it is odd, each filled with the number.
fn stage(writes: &mut Writes, number: u8)
    ensures fit { homes_fit 1311 writes.new ≡ true }
{
    let block = [number; BLOCK_SIZE];
    writes.clear();
    writes.stage(1300, &block);
    writes.stage(1299, &block);
    if number % 2 == 0 {
        writes.stage(1298, &block);
    } else {
        writes.stage(1310, &block);
    }
}

/// Makes the commit of that number.
fn commit<D: Disk>(store: &mut Store, disk: &mut D, writes: &mut Writes, number: u8) -> bool
    requires live { is_live store.old ≡ true }
    requires stands { Stands D.Disk store.old disk.old }
    requires total { total_of store.old ≡ 1311 }
    ensures live { result ≡ true → is_live store.new ≡ true }
    ensures stands { result ≡ true → Stands D.Disk store.new disk.new }
    ensures total { total_of store.new ≡ 1311 }
    ensures blocks { D.block_count disk.new ≡ D.block_count disk.old }
{
    stage(writes, number);
    store.commit(disk, writes).is_ok()
}

/// Makes the commits from 1 up to before another, until one fails.
fn commit_all<D: Disk>(store: &mut Store, disk: &mut D, writes: &mut Writes, to: u8) -> bool
    requires live { is_live store.old ≡ true }
    requires stands { Stands D.Disk store.old disk.old }
    requires total { total_of store.old ≡ 1311 }
    ensures live { result ≡ true → is_live store.new ≡ true }
    ensures stands { result ≡ true → Stands D.Disk store.new disk.new }
    ensures total { total_of store.new ≡ 1311 }
    ensures blocks { D.block_count disk.new ≡ D.block_count disk.old }
{
    for number in 1..to {
        if !commit(store, disk, writes, number) {
            return false;
        }
    }
    true
}

/// Makes the commit of two blocks.
fn commit_pair<D: Disk>(store: &mut Store, disk: &mut D, writes: &mut Writes) -> bool
    requires live { is_live store.old ≡ true }
    requires stands { Stands D.Disk store.old disk.old }
    requires total { total_of store.old ≡ 1311 }
    ensures blocks { D.block_count disk.new ≡ D.block_count disk.old }
{
    writes.clear();
    writes.stage(1298, &[1; BLOCK_SIZE]);
    writes.stage(1299, &[9; BLOCK_SIZE]);
    writes.stage(1299, &[2; BLOCK_SIZE]);
    store.commit(disk, writes).is_ok()
}

fn commits_by<D: Disk>(store: &mut Store, disk: &mut D, writes: &mut Writes, work: Work) -> bool
    requires live { is_live store.old ≡ true }
    requires stands { Stands D.Disk store.old disk.old }
    requires total { total_of store.old ≡ 1311 }
    ensures blocks { D.block_count disk.new ≡ D.block_count disk.old }
{
    match work {
        Work::Pair => commit_pair(store, disk, writes),
        Work::Threes(to) => commit_all(store, disk, writes, to),
    }
}

/// Opens the journal and makes the commits, and says whether that was done.
fn commits_on<D: Disk>(alloc: Global, disk: &mut D, writes: &mut Writes, work: Work) -> bool
    requires at_least_1311_blocks { 1311 ≤ D.block_count disk.old }
    ensures blocks { D.block_count disk.new ≡ D.block_count disk.old }
{
    match Store::open(alloc, disk, BLOCKS) {
        Ok(mut store) => commits_by(&mut store, disk, writes, work),
        Err(_) => false,
    }
}

fn commits<D: Disk>(alloc: Global, disk: &mut D, work: Work) -> bool
    requires at_least_1311_blocks { 1311 ≤ D.block_count disk.old }
    ensures blocks { D.block_count disk.new ≡ D.block_count disk.old }
{
    match Writes::new(alloc) {
        Ok(mut writes) => commits_on(alloc, disk, &mut writes, work),
        Err(_) => false,
    }
}

fn contents<D: Disk>(store: &Store, disk: &mut D) -> Option<Contents>
    requires total { total_of store.now ≡ 1311 }
    requires stands { Stands D.Disk store.now disk.old }
{
    whole([
        begins(store, disk, 1298),
        begins(store, disk, 1299),
        begins(store, disk, 1300),
        begins(store, disk, 1310),
    ])
}

fn whole(parts: [Option<u8>; 4]) -> Option<Contents> {
    match parts {
        [Some(first), Some(second), Some(third), Some(last)] => Some([first, second, third, last]),
        _ => None,
    }
}

/// Opens the journal and gives the contents.
fn held(alloc: Global, mut disk: MemDisk) -> Option<Contents>
    requires has_1311_blocks { ⟦<MemDisk as Disk>⟧.block_count disk ≡ 1311 }
{
    match Store::open(alloc, &mut disk, BLOCKS) {
        Ok(store) => contents(&store, &mut disk),
        Err(_) => None,
    }
}

/// The calls of a commit with a number, and the contents then.
type Row = (u8, Counts, Contents);

/// The calls of the first eight.
const LATE: Counts = Counts {
    reads: 0,
    writes: 5,
    syncs: 2,
};

/// Those of the ninth.
const CHECKPOINT: Counts = Counts {
    reads: 4,
    writes: 17,
    syncs: 11,
};

const ROWS: [Row; 9] = [
    (1, LATE, [0, 1, 1, 1]),
    (2, LATE, [2, 2, 2, 1]),
    (3, LATE, [2, 3, 3, 3]),
    (4, LATE, [4, 4, 4, 3]),
    (5, LATE, [4, 5, 5, 5]),
    (6, LATE, [6, 6, 6, 5]),
    (7, LATE, [6, 7, 7, 7]),
    (8, LATE, [8, 8, 8, 7]),
    (9, CHECKPOINT, [8, 9, 9, 9]),
];

/// The calls between two counts.
fn between(before: Counts, after: Counts) -> Counts {
    Counts {
        reads: after.reads.saturating_sub(before.reads),
        writes: after.writes.saturating_sub(before.writes),
        syncs: after.syncs.saturating_sub(before.syncs),
    }
}

/// Whether the last of the commits up to that of a row makes its calls, and leaves its contents.
fn is_right(store: &mut Store, disk: &mut MemDisk, writes: &mut Writes, row: &Row) -> bool
    requires live { is_live store.old ≡ true }
    requires stands { Stands ⟦<MemDisk as Disk>⟧ store.old disk.old }
    requires total { total_of store.old ≡ 1311 }
{
    if !commit_all(store, disk, writes, row.0) {
        return false;
    }
    let before = disk.counts();
    if !commit(store, disk, writes, row.0) {
        return false;
    }
    let calls = between(before, disk.counts());
    contents(store, disk) == Some(row.2) && calls == row.1
}

fn is_right_opened(alloc: Global, disk: &mut MemDisk, writes: &mut Writes, row: &Row) -> bool
    requires has_1311_blocks { ⟦<MemDisk as Disk>⟧.block_count disk.old ≡ 1311 }
{
    match Store::open(alloc, disk, BLOCKS) {
        Ok(mut store) => is_right(&mut store, disk, writes, row),
        Err(_) => false,
    }
}

fn is_right_on(alloc: Global, disk: &mut MemDisk, row: &Row) -> bool
    requires has_1311_blocks { ⟦<MemDisk as Disk>⟧.block_count disk.old ≡ 1311 }
{
    match Writes::new(alloc) {
        Ok(mut writes) => is_right_opened(alloc, disk, &mut writes, row),
        Err(_) => false,
    }
}

fn is_right_on_zeros(alloc: Global, row: &Row) -> bool {
    match zeros(alloc, BLOCKS, ROOM, NONE) {
        Some(mut disk) => is_right_on(alloc, &mut disk, row),
        None => false,
    }
}

/// How many rows are right, up to the first that is not.
fn rows_right(alloc: Global) -> usize {
    let mut right: usize = 0;
    for row in &ROWS {
        if !is_right_on_zeros(alloc, row) {
            return right;
        }
        right = right.saturating_add(1);
    }
    right
}

/// The calls of an opening and the commit of two blocks, when both were done.
fn pair_calls(alloc: Global) -> Option<Counts> {
    match zeros(alloc, BLOCKS, ROOM, NONE) {
        Some(mut disk) => {
            if commits(alloc, &mut disk, Work::Pair) {
                Some(disk.counts())
            } else {
                None
            }
        }
        None => None,
    }
}

/// Those of a checkpoint after one commit of three blocks: the bodies are read and the seven gates that it did not open, the homes
/// and the gate are written.
const EARLY: Counts = Counts {
    reads: 10,
    writes: 4,
    syncs: 2,
};

/// The calls of a checkpoint after one commit, if it leaves the contents, and a store that may commit.
fn checkpoint_by(store: &mut Store, disk: &mut MemDisk, writes: &mut Writes) -> Option<Counts>
    requires live { is_live store.old ≡ true }
    requires stands { Stands ⟦<MemDisk as Disk>⟧ store.old disk.old }
    requires total { total_of store.old ≡ 1311 }
{
    if !commit(store, disk, writes, 1) {
        return None;
    }
    let before = disk.counts();
    match store.checkpoint(disk) {
        Ok(()) => {}
        Err(_) => return None,
    }
    let calls = between(before, disk.counts());
    if store.live() && contents(store, disk) == Some([0, 1, 1, 1]) {
        Some(calls)
    } else {
        None
    }
}

fn checkpoint_on(alloc: Global, disk: &mut MemDisk, writes: &mut Writes) -> Option<Counts>
    requires has_1311_blocks { ⟦<MemDisk as Disk>⟧.block_count disk.old ≡ 1311 }
{
    match Store::open(alloc, disk, BLOCKS) {
        Ok(mut store) => checkpoint_by(&mut store, disk, writes),
        Err(_) => None,
    }
}

fn checkpoint_calls(alloc: Global) -> Option<Counts> {
    match zeros(alloc, BLOCKS, ROOM, NONE) {
        Some(mut disk) => match Writes::new(alloc) {
            Ok(mut writes) => checkpoint_on(alloc, &mut disk, &mut writes),
            Err(_) => None,
        },
        None => None,
    }
}

/// How many writes and syncs a disk saw, and what the first gate, its index and the two bodies after that begin with.
type Trace = (u64, u64, [Option<u8>; 4]);

fn first_byte(disk: &mut MemDisk, i: u64) -> Option<u8>
    requires place { i < 1311 }
    requires has_1311_blocks { ⟦<MemDisk as Disk>⟧.block_count disk.old ≡ 1311 }
    ensures has_1311_blocks { ⟦<MemDisk as Disk>⟧.block_count disk.new ≡ 1311 }
{
    let mut block = [0; BLOCK_SIZE];
    match disk.read(i, &mut block) {
        Ok(()) => Some(block[0]),
        Err(_) => None,
    }
}

fn trace_of(mut disk: MemDisk) -> Trace
    requires has_1311_blocks { ⟦<MemDisk as Disk>⟧.block_count disk ≡ 1311 }
{
    let Counts { writes, syncs, .. } = disk.counts();
    let first = [
        first_byte(&mut disk, 2),
        first_byte(&mut disk, 3),
        first_byte(&mut disk, 4),
        first_byte(&mut disk, 5),
    ];
    (writes, syncs, first)
}

/// What a disk saw that died after each call of the commit of two blocks: the index and the two bodies are written in one run, of
/// which each block is a call, then there is a sync, and then the gate is opened, with a sync of its own. The opening made one sync.
const TRACES: [(u64, u64, [u8; 4]); 7] = [
    (0, 1, [0, 0, 0, 0]),
    (1, 1, [0, 2, 0, 0]),
    (2, 1, [0, 2, 1, 0]),
    (3, 1, [0, 2, 1, 2]),
    (3, 2, [0, 2, 1, 2]),
    (4, 2, [0xA5, 2, 1, 2]),
    (4, 3, [0xA5, 2, 1, 2]),
];

/// How many of these are seen, up to the first that is not.
fn traces_seen(alloc: Global) -> usize {
    let mut seen: usize = 0;
    for (writes, syncs, [gate, index, first, second]) in TRACES {
        let call = OPENING.saturating_add(seen as u64);
        let wanted = [Some(gate), Some(index), Some(first), Some(second)];
        match died_at(alloc, call, Work::Pair) {
            Some(disk) => {
                if trace_of(disk) != (writes, syncs, wanted) {
                    return seen;
                }
            }
            None => return seen,
        }
        seen = seen.saturating_add(1);
    }
    seen
}

#[test]
fn a_commit_makes_its_calls_in_order(rt: HostRuntime) {
    assert!(rt; traces_seen(rt.alloc()) == TRACES.len());
}

#[test]
fn calls_of_commits(rt: HostRuntime) {
    let both = Counts {
        reads: 16,
        writes: 4,
        syncs: 3,
    };
    let alloc = rt.alloc();
    let found = (
        pair_calls(alloc),
        checkpoint_calls(alloc),
        rows_right(alloc),
    );
    assert!(rt; found == (Some(both), Some(EARLY), ROWS.len()));
}

/// What is held after a stop of this kind.
fn stops(alloc: Global, disk: &MemDisk, left: Left) -> Option<Contents>
    requires has_1311_blocks { ⟦<MemDisk as Disk>⟧.block_count disk.now ≡ 1311 }
{
    match disk.stopped(alloc, left) {
        Ok(disk) => held(alloc, disk),
        Err(_) => None,
    }
}

/// What is held after a stop of each kind.
type Held = [Option<Contents>; 3];

fn held_after(alloc: Global, disk: &MemDisk) -> Held
    requires has_1311_blocks { ⟦<MemDisk as Disk>⟧.block_count disk.now ≡ 1311 }
{
    [
        stops(alloc, disk, Left::Old),
        stops(alloc, disk, Left::New),
        stops(alloc, disk, Left::Gates),
    ]
}

/// The disk after this one, if that is committed on.
fn burnt(alloc: Global, mut fuse: Fuse<MemDisk>, work: Work) -> MemDisk
    requires has_1311_blocks { ⟦<Fuse<MemDisk> as Disk>⟧.block_count fuse ≡ 1311 }
    ensures blocks { ⟦<MemDisk as Disk>⟧.block_count result ≡ 1311 }
{
    commits(alloc, &mut fuse, work);
    fuse.into_inner()
}

/// A disk that died before this call.
fn died_at(alloc: Global, call: u64, work: Work) -> Option<MemDisk>
    ensures blocks { IfSome result (λ disk. ⟦<MemDisk as Disk>⟧.block_count disk ≡ 1311) }
{
    match zeros(alloc, BLOCKS, ROOM, NONE) {
        Some(disk) => Some(burnt(alloc, Fuse::new(disk, call), work)),
        None => None,
    }
}

/// What is held when the disk dies before this call.
fn held_dead(alloc: Global, call: u64, work: Work) -> Option<Held> {
    match died_at(alloc, call, work) {
        Some(disk) => Some(held_after(alloc, &disk)),
        None => None,
    }
}

/// What is held when this call fails.
fn held_failed(alloc: Global, call: u64, work: Work) -> Option<Held> {
    match zeros(alloc, BLOCKS, ROOM, call) {
        Some(mut disk) => {
            commits(alloc, &mut disk, work);
            Some(held_after(alloc, &disk))
        }
        None => None,
    }
}

/// What is held when a disk dies before a call, and when that call fails.
type Stops = (Option<Held>, Option<Held>);

/// What is to be held when `left` calls of the last commit are left, of old contents and new.
fn wanted(left: u64, old: Contents, new: Contents) -> Stops {
    let (old, new) = (Some(old), Some(new));
    let gate = [old, new, new];
    let (died, failed) = match left {
        0 => ([new; 3], [new; 3]),
        1 => (gate, gate),
        2 => ([old; 3], gate),
        _ => ([old; 3], [old; 3]),
    };
    (Some(died), Some(failed))
}

/// The first of the calls of the last commit, from one to another, where something else is held.
fn wrong_call(
    alloc: Global,
    work: Work,
    first: u64,
    last: u64,
    old: Contents,
    new: Contents,
) -> Option<u64> {
    for call in first..=last {
        let found = (held_dead(alloc, call, work), held_failed(alloc, call, work));
        if found != wanted(last.saturating_sub(call), old, new) {
            return Some(call);
        }
    }
    None
}

/// The same of the commit of two blocks, which makes 6 calls, and of the ninth of three, which makes 32. Each of the eight before
/// that makes 7.
fn wrong_calls(alloc: Global) -> [Option<u64>; 2] {
    let (work, opened, eight) = (Work::Threes(10), OPENING, OPENING + 8 * 7);
    let nine = wrong_call(alloc, work, eight, eight + 32, [8, 8, 8, 7], [8, 9, 9, 9]);
    let pair = wrong_call(alloc, Work::Pair, opened, opened + 6, [0; 4], [1, 2, 0, 0]);
    [pair, nine]
}

/// Whether the journal is opened on this disk, and what is held then.
fn opened_on(alloc: Global, mut fuse: Fuse<MemDisk>) -> (bool, Held)
    requires has_1311_blocks { ⟦<Fuse<MemDisk> as Disk>⟧.block_count fuse ≡ 1311 }
{
    let is_open = Store::open(alloc, &mut fuse, BLOCKS).is_ok();
    (is_open, held_after(alloc, &fuse.into_inner()))
}

/// The same on what a stop leaves of a disk, if that dies after `calls` calls.
fn opened_behind(alloc: Global, disk: &MemDisk, left: Left, calls: u64) -> Option<(bool, Held)>
    requires has_1311_blocks { ⟦<MemDisk as Disk>⟧.block_count disk.now ≡ 1311 }
{
    match disk.stopped(alloc, left) {
        Ok(disk) => Some(opened_on(alloc, Fuse::new(disk, calls))),
        Err(_) => None,
    }
}

/// Where commits stopped and what the stop left, how many calls the opening then makes, and what is held.
#[derive(Clone, Copy)]
struct Stopped {
    work: Work,
    died: u64,
    left: Left,
    calls: u64,
    held: Contents,
}

/// The gate of the commit of two blocks was written, and what a stop left of it is as before, as written, or destroyed; then it was synced.
/// If it is as before, no segment is open. Eight commits of three blocks were made, of four in all: the opening writes each home once.
const STOPPED: [Stopped; 5] = [
    Stopped {
        work: Work::Pair,
        died: OPENING + 5,
        left: Left::Old,
        calls: OPENING,
        held: [0; 4],
    },
    Stopped {
        work: Work::Pair,
        died: OPENING + 5,
        left: Left::New,
        calls: 25,
        held: [1, 2, 0, 0],
    },
    Stopped {
        work: Work::Pair,
        died: OPENING + 5,
        left: Left::Gates,
        calls: 25,
        held: [1, 2, 0, 0],
    },
    Stopped {
        work: Work::Pair,
        died: OPENING + 6,
        left: Left::Gates,
        calls: 25,
        held: [1, 2, 0, 0],
    },
    Stopped {
        work: Work::Threes(9),
        died: NONE,
        left: Left::Old,
        calls: 50,
        held: [8, 8, 8, 7],
    },
];

/// Whether an opening that dies after `calls` calls is made if all were made, and the next one holds what it is to hold.
fn is_made_again(alloc: Global, case: &Stopped, calls: u64) -> bool {
    match died_at(alloc, case.died, case.work) {
        Some(disk) => {
            let wanted = (calls == case.calls, [Some(case.held); 3]);
            opened_behind(alloc, &disk, case.left, calls) == Some(wanted)
        }
        None => false,
    }
}

/// The first number of calls if that is not so.
fn wrong_opening(alloc: Global, case: &Stopped) -> Option<u64> {
    for calls in 0..=case.calls {
        if !is_made_again(alloc, case, calls) {
            return Some(calls);
        }
    }
    None
}

fn wrong_openings(alloc: Global) -> [Option<u64>; 5] {
    let [old, new, gates, synced, threes] = &STOPPED;
    [
        wrong_opening(alloc, old),
        wrong_opening(alloc, new),
        wrong_opening(alloc, gates),
        wrong_opening(alloc, synced),
        wrong_opening(alloc, threes),
    ]
}

// A commit is whole or absent, and a stopped opening is made again.
#[test]
fn stops_leave_old_contents_or_new(rt: HostRuntime) {
    let wrong = (wrong_calls(rt.alloc()), wrong_openings(rt.alloc()));
    assert_eq!(rt; wrong, ([None; 2], [None; 5]));
}
