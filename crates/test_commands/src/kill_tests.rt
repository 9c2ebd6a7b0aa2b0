// Runs that are killed at each call, and an opening after each on the same disk, which a stop cuts at each of its calls.
//
// A run that is killed is one whose disk fails each call from some moment on. What it wrote since its last sync is pending as the next
// run begins, and reads give it. Stops then leave each pending block old or new or destroyed, all alike or one apart from the others.
use mg_disk::{BLOCK_SIZE, Block, Counts, Disk, Fuse, GATE_OPEN, Left, MemDisk, ScratchDisk};
use std::alloc::Global;
use test_helpers::{BLOCKS, Outcome, Streams, command, fresh};

// The second line changes two blocks, of which neither is that of the others.
const LINES: &[u8] = b"1 store 0x100000020 5
1 pwadd 0x100000000 R
1 store 0x100000028 6
";

const SHOWN_BY: &[u8] = b"1 load 0x100000020
1 load 0x100000028
1 info 0x100000000
1 pwadd 0x100000000 R
";

// What these lines print after none, one, two and three of the lines above.
const STATES: &[&str] = &[
    "ok 0x0000000000000000\nok 0x0000000000000000\nok 0x0000000100000000 1 1 1 0 0\nok 0x1aed8da0b819d2bd\n",
    "ok 0x0000000000000005\nok 0x0000000000000000\nok 0x0000000100000000 1 1 1 0 0\nok 0x1aed8da0b819d2bd\n",
    "ok 0x0000000000000005\nok 0x0000000000000000\nok 0x0000000100000000 1 1 2 0 0\nok 0xc70d778bccef36a8\n",
    "ok 0x0000000000000005\nok 0x0000000000000006\nok 0x0000000100000000 1 1 2 0 0\nok 0xc70d778bccef36a8\n",
];

// Whether a disk holds the state after some first lines, at least so many.
fn holds<D: Disk>(alloc: Global, disk: &mut D, answered: usize) -> bool {
    match command(alloc, "vol run", disk, &Streams::of(SHOWN_BY)) {
        Ok(outcome) => shows(&outcome, answered),
        Err(_) => false,
    }
}

fn shows(outcome: &Outcome, answered: usize) -> bool {
    for k in answered..STATES.len() {
        if outcome.printed.as_slice() == STATES[k].as_bytes() {
            return true;
        }
    }
    false
}

// A disk whose user is gone, with what is pending.
#[derive(Drop)]
struct Dropped {
    disk: MemDisk,
    // The number of lines that were answered.
    answered: usize,
}

// A run with this input on a disk that fails after some calls.
fn run_on(alloc: Global, fuse: Fuse<MemDisk>, line: &str, input: &[u8]) -> Option<Dropped> {
    let mut fuse = fuse;
    match command(alloc, line, &mut fuse, &Streams::of(input)) {
        Ok(outcome) => Some(Dropped {
            disk: fuse.into_inner(),
            answered: lines_in(&outcome.printed),
        }),
        Err(_) => None,
    }
}

// The number of newlines in a text.
fn lines_in(text: &[u8]) -> usize {
    let mut lines: usize = 0;
    for byte in text {
        if *byte == b'\n' {
            lines = lines.saturating_add(1);
        }
    }
    lines
}

// A run of the lines on a copy of this volume, killed after `calls` calls.
fn killed(alloc: Global, volume: &MemDisk, line: &str, calls: u64) -> Option<Dropped> {
    match volume.stopped(alloc, Left::New) {
        Ok(disk) => run_on(alloc, Fuse::new(disk, calls), line, LINES),
        Err(_) => None,
    }
}

// A run with no lines on a disk that another run left, cut after `calls` calls.
fn opened_on(alloc: Global, dropped: Dropped, line: &str, calls: u64) -> Option<Dropped> {
    let answered = dropped.answered;
    match run_on(alloc, Fuse::new(dropped.disk, calls), line, b"") {
        Some(next) => Some(Dropped {
            disk: next.disk,
            answered,
        }),
        None => None,
    }
}

// The two after each other.
fn opened_after(
    alloc: Global,
    volume: &MemDisk,
    line: &str,
    kill: u64,
    stop: u64,
) -> Option<Dropped> {
    match killed(alloc, volume, line, kill) {
        Some(dropped) => opened_on(alloc, dropped, line, stop),
        None => None,
    }
}

// The writes and syncs among some calls.
fn changes_of(counts: &Counts) -> u64 {
    counts.writes.saturating_add(counts.syncs)
}

fn calls_of(counts: &Counts) -> u64 {
    counts.reads.saturating_add(changes_of(counts))
}

// What was tried so far, on a disk for images.
#[derive(Drop)]
struct Bench {
    scratch: ScratchDisk,
    // The number of images that were opened.
    opened: u64,
}

// Whether an image holds what it must, with one block of it replaced.
fn mixed_holds(
    alloc: Global,
    bench: &mut Bench,
    image: &mut MemDisk,
    i: u64,
    block: &Block,
    answered: usize,
) -> bool {
    bench.opened = bench.opened.saturating_add(1);
    if !copy(image, &mut bench.scratch) {
        return false;
    }
    put(&mut bench.scratch, i, block);
    holds(alloc, &mut bench.scratch, answered)
}

// Whether all blocks could be read, and are copied.
fn copy(from: &mut MemDisk, to: &mut ScratchDisk) -> bool {
    let mut block = [0; BLOCK_SIZE];
    for i in 0..BLOCKS {
        if i >= from.blocks() || from.read(i, &mut block).is_err() {
            return false;
        }
        put(to, i, &block);
    }
    true
}

fn put(disk: &mut ScratchDisk, i: u64, block: &Block) {
    if i < disk.blocks() {
        let _ = disk.write(i, block);
    }
}

fn block_of(disk: &mut MemDisk, i: u64) -> Block {
    let mut block = [0; BLOCK_SIZE];
    if i < disk.blocks() {
        let _ = disk.read(i, &mut block);
    }
    block
}

// Whether each image of these two holds what it must in which one block is that of the other or destroyed. Both are tried as they are
// in the first place where they differ, so an image with nothing pending is tried once, with no block replaced.
fn all_mixed_hold(
    alloc: Global,
    bench: &mut Bench,
    old: &mut MemDisk,
    new: &mut MemDisk,
    answered: usize,
) -> bool {
    let mut pending: u64 = 0;
    for i in 0..BLOCKS {
        let (before, after) = (block_of(old, i), block_of(new, i));
        if before != after {
            pending = pending.saturating_add(1);
            if pending == 1
                && !(mixed_holds(alloc, bench, old, i, &before, answered)
                    && mixed_holds(alloc, bench, new, i, &after, answered))
            {
                return false;
            }
            if !(mixed_holds(alloc, bench, old, i, &[GATE_OPEN; BLOCK_SIZE], answered)
                && mixed_holds(alloc, bench, old, i, &after, answered))
            {
                return false;
            }
        }
    }
    pending > 0 || mixed_holds(alloc, bench, old, 0, &block_of(new, 0), answered)
}

// Whether what a stop leaves of this disk holds what it must.
fn stops_hold(alloc: Global, bench: &mut Bench, dropped: &Dropped) -> bool {
    match dropped.disk.stopped(alloc, Left::Old) {
        Ok(mut old) => old_and_new_hold(alloc, bench, dropped, &mut old),
        Err(_) => false,
    }
}

fn old_and_new_hold(
    alloc: Global,
    bench: &mut Bench,
    dropped: &Dropped,
    old: &mut MemDisk,
) -> bool {
    match dropped.disk.stopped(alloc, Left::New) {
        Ok(mut new) => {
            all_mixed_hold(alloc, bench, old, &mut new, dropped.answered)
                && gates_hold(alloc, bench, dropped)
        }
        Err(_) => false,
    }
}

fn gates_hold(alloc: Global, bench: &mut Bench, dropped: &Dropped) -> bool {
    match dropped.disk.stopped(alloc, Left::Gates) {
        Ok(mut gates) => {
            bench.opened = bench.opened.saturating_add(1);
            holds(alloc, &mut gates, dropped.answered)
        }
        Err(_) => false,
    }
}

// The number of changes that the opening made if it stopped here, if each image that was not tried yet holds what it must. An opening
// with as many changes as `tried` left the same images.
fn changes_if_held(
    alloc: Global,
    bench: &mut Bench,
    dropped: &Dropped,
    first: u64,
    tried: u64,
) -> Option<u64> {
    let changes = changes_of(&dropped.disk.counts()).saturating_sub(first);
    if changes == tried || stops_hold(alloc, bench, dropped) {
        Some(changes)
    } else {
        None
    }
}

// How two runs are tried: the words of a run, and the calls and changes of the first one and of both.
#[derive(Clone, Copy)]
struct Pair<'a> {
    line: &'a str,
    kill: u64,
    // What the first run called.
    first: Counts,
    // What both called if nothing stops the second.
    both: Counts,
}

fn pair_of<'a>(alloc: Global, volume: &MemDisk, line: &'a str, kill: u64) -> Option<Pair<'a>> {
    match killed(alloc, volume, line, kill) {
        Some(dropped) => pair_after(alloc, dropped, line, kill),
        None => None,
    }
}

fn pair_after<'a>(alloc: Global, dropped: Dropped, line: &'a str, kill: u64) -> Option<Pair<'a>> {
    let first = dropped.disk.counts();
    match opened_on(alloc, dropped, line, u64::MAX) {
        Some(next) => Some(Pair {
            line,
            kill,
            first,
            both: next.disk.counts(),
        }),
        None => None,
    }
}

// The number of changes of the opening of a pair that stops after `stop` calls, if what a stop then leaves holds what it must.
fn changes_at(
    alloc: Global,
    bench: &mut Bench,
    volume: &MemDisk,
    pair: &Pair<'_>,
    stop: u64,
    tried: u64,
) -> Option<u64> {
    match opened_after(alloc, volume, pair.line, pair.kill, stop) {
        Some(dropped) => changes_if_held(alloc, bench, &dropped, changes_of(&pair.first), tried),
        None => None,
    }
}

// The first number of calls of the opening, from all of them down, after which a stop leaves something else. Those that only read
// before its first change leave what the kill left, which is tried once.
fn wrong_stop(alloc: Global, bench: &mut Bench, volume: &MemDisk, pair: &Pair<'_>) -> Option<u64> {
    let all = calls_of(&pair.both).saturating_sub(calls_of(&pair.first));
    let mut tried = u64::MAX;
    for back in 0..=all {
        let stop = all.saturating_sub(back);
        match changes_at(alloc, bench, volume, pair, stop, tried) {
            Some(0) => return None,
            Some(changes) => tried = changes,
            None => return Some(stop),
        }
    }
    None
}

// The number of calls of a run that is not killed.
fn calls_of_run(alloc: Global, volume: &MemDisk, line: &str) -> Option<u64> {
    match killed(alloc, volume, line, u64::MAX) {
        Some(dropped) => Some(calls_of(&dropped.disk.counts())),
        None => None,
    }
}

// Which kills are tried: all, or those with an odd or an even number of changes, so that a long test can be made two.
#[derive(Clone, Copy)]
enum Kills {
    All,
    Odd,
    Even,
}

fn is_tried(kills: Kills, changes: u64) -> bool {
    match kills {
        Kills::All => true,
        Kills::Odd => changes % 2 == 1,
        Kills::Even => changes % 2 == 0,
    }
}

// The numbers of calls of a run and of the opening after it for which that is so, from all calls of the run down to those of its own
// opening, which only reads a volume with nothing pending.
fn wrong_kill(
    alloc: Global,
    bench: &mut Bench,
    volume: &MemDisk,
    line: &str,
    kills: Kills,
) -> Option<(u64, u64)> {
    let all = calls_of_run(alloc, volume, line).unwrap_or(0);
    let mut tried = u64::MAX;
    for back in 0..=all {
        let kill = all.saturating_sub(back);
        let Some(pair) = pair_of(alloc, volume, line, kill) else {
            return Some((kill, 0));
        };
        let changes = changes_of(&pair.first);
        if changes != tried && is_tried(kills, changes) {
            if let Some(stop) = wrong_stop(alloc, bench, volume, &pair) {
                return Some((kill, stop));
            }
        }
        if changes == 0 {
            return None;
        }
        tried = changes;
    }
    None
}

// How many images were opened, and where one was wrong.
type Found = (u64, Option<(u64, u64)>);

fn found_on(alloc: Global, volume: &MemDisk, line: &str, kills: Kills) -> Option<Found> {
    match ScratchDisk::new(alloc, BLOCKS) {
        Ok(scratch) => {
            let mut bench = Bench { scratch, opened: 0 };
            let wrong = wrong_kill(alloc, &mut bench, volume, line, kills);
            Some((bench.opened, wrong))
        }
        Err(_) => None,
    }
}

fn found(alloc: Global, line: &str, kills: Kills) -> Option<Found> {
    match fresh(alloc) {
        Ok(volume) => found_on(alloc, &volume, line, kills),
        Err(_) => None,
    }
}

#[test]
fn lines_alone_with_odd_kills(rt: HostRuntime) {
    assert_eq!(rt;
        found(rt.alloc(), "vol run 1", Kills::Odd),
        Some((257, None))
    );
}

#[test]
fn lines_alone_with_even_kills(rt: HostRuntime) {
    assert_eq!(rt;
        found(rt.alloc(), "vol run 1", Kills::Even),
        Some((212, None))
    );
}

#[test]
fn lines_in_pairs_with_odd_kills(rt: HostRuntime) {
    assert_eq!(rt;
        found(rt.alloc(), "vol run 2", Kills::Odd),
        Some((175, None))
    );
}

#[test]
fn lines_in_pairs_with_even_kills(rt: HostRuntime) {
    assert_eq!(rt;
        found(rt.alloc(), "vol run 2", Kills::Even),
        Some((143, None))
    );
}

// The three lines are one batch. With 64 a run makes the same calls as with 8, so half of its kills are tried.
#[test]
fn lines_in_one_batch_and_the_next_run(rt: HostRuntime) {
    let alloc = rt.alloc();
    let eight = found(alloc, "vol run 8", Kills::All);
    let most = found(alloc, "vol run 64", Kills::Odd);
    assert_eq!(rt; (eight, most), (Some((123, None)), Some((63, None))));
}
