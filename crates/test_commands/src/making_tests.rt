// The making of volumes: on a disk that is too small, on one that stops, and with a reply that can't be printed.
use mg_disk::{BLOCK_SIZE, Disk, Fuse, Left, MemDisk};
use mg_layout::{Geometry, fresh_block};
use mg_model::{Params, Tariff};
use std::alloc::Global;
use std::test::Fail;
use test_helpers::{
    BLOCKS, MAKING, ROOM, Streams, answers, output_for, outputs, outputs_for, volume,
};

// The disk calls that make a volume of 64 frames.
const CALLS: u64 = 1313;

// The words that make the older volume.
const OLDER: &str =
    "vol format 64 0000000000000000000000000000000000000000000000000000000000000000 500";

const MADE: &str = "0 ok 0x0000000100000000 0x903df1a0ade0b876 0x28bd8653e56a5d40\n";

// Whether making a volume on a disk of `blocks` blocks prints this. Its source has one byte, which the command does not read.
fn is_made(alloc: Global, blocks: u64, wanted: &str) -> bool {
    match MemDisk::new(alloc, blocks, CALLS, Vec::new(alloc)) {
        Ok(mut disk) => outputs_for(alloc, MAKING, &mut disk, "x", wanted),
        Err(_) => false,
    }
}

#[test]
fn a_volume_is_made_if_it_fits(rt: HostRuntime) -> Result<(), Fail> {
    let alloc = rt.alloc();
    assert!(rt; is_made(alloc, BLOCKS - 1, "8 small 2660 2659\n") && is_made(alloc, BLOCKS, MADE));
    Ok(())
}

// Whether block `i` of the disk begins with these bytes.
fn begins(disk: &mut MemDisk, i: u64, bytes: &[u8]) -> bool {
    let mut out = [0; BLOCK_SIZE];
    i < disk.blocks() && disk.read(i, &mut out).is_ok() && out.starts_with(bytes)
}

// Two runs on a volume of 500 credits. After them each kind of row differs from that of a fresh volume, and the last line is in the
// journal alone.
const FIRST_RUN: &str = "1 create 2 1 0x28bd8653e56a5d40
#= ok 0x0000000100001000 0x1aed8da0b819d2bd
1 account 1 0x28bd8653e56a5d40 7
#= ok 2 0xc70d778bccef36a8
1 thread 0x100000000
#= ok 2
rent
#= ok 1 1 3
1 store 0x100000008 5
#= ok
";

const SECOND_RUN: &str = "1 store 0x100000010 6
#= ok
";

// What a disk holds.
#[derive(Clone, Copy, PartialEq)]
enum Content {
    // No volume.
    Nothing,
    // The volume that was there before.
    Older,
    // Each block of the fresh volume that is written: all but the indexes and the bodies of the journal, and the frames after the
    // first.
    Fresh,
    Other,
}

fn content_of(alloc: Global, disk: &mut MemDisk, params: &Params) -> Content {
    if outputs_for(alloc, "vol check", disk, "", "2 open not\n") {
        Content::Nothing
    } else if outputs_for(alloc, "vol check", disk, "", "0 ok 64 2 3 2 2 1 500\n") {
        Content::Older
    } else if is_fresh(disk, params) {
        Content::Fresh
    } else {
        Content::Other
    }
}

fn is_fresh(disk: &mut MemDisk, params: &Params) -> bool {
    if !begins(disk, 0, b"\xA5") || !begins(disk, 1, b"MUNGIVOL") {
        return false;
    }
    let mut fresh = [0; BLOCK_SIZE];
    for i in 1..2597 {
        let in_journal = i > 2 && i < 1298 && i % 162 != 2;
        if i < Geometry::of(params.frames()).total {
            fresh_block(params, i, &mut fresh);
        }
        if !in_journal && !begins(disk, i, &fresh) {
            return false;
        }
    }
    true
}

// Whether a stop now leaves this.
fn leaves(alloc: Global, disk: &MemDisk, left: Left, params: &Params, wanted: Content) -> bool {
    match disk.stopped(alloc, left) {
        Ok(mut stopped) => content_of(alloc, &mut stopped, params) == wanted,
        Err(_) => false,
    }
}

// What a stop leaves after `calls` calls of a disk that held `before`, if the blocks that were written since the last sync are as before,
// as written, or destroyed. Block 0 is closed and synced first, and opened and synced last. A destroyed block 0 is an open gate.
fn wanted(calls: u64, before: Content) -> [Content; 3] {
    match calls {
        0 => [before; 3],
        1 => [before, Content::Nothing, before],
        2..=1311 => [Content::Nothing; 3],
        1312 => [Content::Nothing, Content::Fresh, Content::Fresh],
        _ => [Content::Fresh; 3],
    }
}

// Whether making a volume on what a stop leaves of a disk, which then stops after `calls` calls, prints its reply or fails, and leaves
// what it must.
fn is_made_in(alloc: Global, disk: &MemDisk, before: Content, calls: u64, params: &Params) -> bool {
    match disk.stopped(alloc, Left::New) {
        Ok(disk) => is_made_by(alloc, Fuse::new(disk, calls), before, calls, params),
        Err(_) => false,
    }
}

fn is_made_by(
    alloc: Global,
    fuse: Fuse<MemDisk>,
    before: Content,
    calls: u64,
    params: &Params,
) -> bool {
    let mut fuse = fuse;
    let reply = if calls == CALLS { MADE } else { "4 " };
    let is_printed = outputs_for(alloc, MAKING, &mut fuse, "x", reply);
    let disk = fuse.into_inner();
    let [old, new, gates] = wanted(calls, before);
    is_printed
        && leaves(alloc, &disk, Left::Old, params, old)
        && leaves(alloc, &disk, Left::New, params, new)
        && leaves(alloc, &disk, Left::Gates, params, gates)
}

// Whether the stop after `calls` calls is tried: the first and the last ones, and some between, which neither write block 0 nor sync.
fn is_tried(calls: u64) -> bool {
    calls < 21 || calls % 50 == 0 || calls > CALLS - 24
}

// The first number of calls after which the outcome is wrong.
fn wrong(alloc: Global, disk: &MemDisk, before: Content, params: &Params) -> Option<u64> {
    for calls in 0..CALLS + 1 {
        if is_tried(calls) && !is_made_in(alloc, disk, before, calls, params) {
            return Some(calls);
        }
    }
    None
}

fn usual() -> Option<Params> {
    Params::new(64, [0; 32], 1000, Tariff::usual(64))
}

fn wrong_over(alloc: Global, disk: &MemDisk, before: Content) -> Option<u64> {
    match usual() {
        Some(params) => wrong(alloc, disk, before, &params),
        None => Some(0),
    }
}

// The older volume after its two runs.
fn older(alloc: Global) -> Option<MemDisk> {
    match volume(alloc, OLDER) {
        Ok(mut older) => {
            if answers(alloc, "vol run", &mut older, FIRST_RUN)
                && answers(alloc, "vol run", &mut older, SECOND_RUN)
            {
                Some(older)
            } else {
                None
            }
        }
        Err(_) => None,
    }
}

fn wrong_calls(alloc: Global) -> Option<u64> {
    match older(alloc) {
        Some(older) => wrong_over(alloc, &older, Content::Older),
        None => Some(0),
    }
}

fn wrong_calls_on_zeros(alloc: Global) -> Option<u64> {
    match MemDisk::new(alloc, BLOCKS, ROOM, Vec::new(alloc)) {
        Ok(zeros) => wrong_over(alloc, &zeros, Content::Nothing),
        Err(_) => Some(0),
    }
}

#[test]
fn a_stop_while_a_volume_is_made(rt: HostRuntime) -> Result<(), Fail> {
    let alloc = rt.alloc();
    assert_eq!(rt;
        (wrong_calls(alloc), wrong_calls_on_zeros(alloc)),
        (None, None)
    );
    Ok(())
}

// A line that a run is killed at. If it is held, `check` prints the same.
const KILLED: &str = "1 store 0x100000018 7\n";

// How many calls the run of that line makes on a copy of this volume.
fn calls_of_run(alloc: Global, older: &MemDisk) -> Option<u64> {
    match run_killed(alloc, older, u64::MAX) {
        Some(disk) => {
            let counts = disk.counts();
            Some(
                counts
                    .reads
                    .saturating_add(counts.writes)
                    .saturating_add(counts.syncs),
            )
        }
        None => None,
    }
}

// The disk of that run if it is killed after `calls` calls, with what is pending.
fn run_killed(alloc: Global, older: &MemDisk, calls: u64) -> Option<MemDisk> {
    match older.stopped(alloc, Left::New) {
        Ok(disk) => Some(killed(alloc, Fuse::new(disk, calls))),
        Err(_) => None,
    }
}

fn killed(alloc: Global, fuse: Fuse<MemDisk>) -> MemDisk {
    let mut fuse = fuse;
    let _ = output_for(alloc, "vol run", &mut fuse, KILLED);
    fuse.into_inner()
}

// How many calls before its end that run is killed, and after how many calls the making of a volume on its disk stops. The last call is
// the sync of a gate; the third last is that of what the gate opens.
const PENDING: &[(u64, u64)] = &[
    (1, 0),
    (1, 1),
    (1, 2),
    (1, 3),
    (1, 1311),
    (1, 1312),
    (1, 1313),
    (3, 0),
    (3, 1),
    (3, 2),
    (3, 1313),
];

fn is_made_after(alloc: Global, older: &MemDisk, kill: u64, calls: u64, params: &Params) -> bool {
    match run_killed(alloc, older, kill) {
        Some(disk) => is_made_by(alloc, Fuse::new(disk, calls), Content::Older, calls, params),
        None => false,
    }
}

// The first of these rows that is wrong.
fn wrong_pending(alloc: Global, older: &MemDisk, made: u64, params: &Params) -> Option<(u64, u64)> {
    for (back, calls) in PENDING {
        if !is_made_after(alloc, older, made.saturating_sub(*back), *calls, params) {
            return Some((*back, *calls));
        }
    }
    None
}

fn wrong_pending_over(alloc: Global, older: &MemDisk) -> Option<(u64, u64)> {
    match calls_of_run(alloc, older) {
        Some(made) => wrong_pending_of(alloc, older, made),
        None => Some((0, 0)),
    }
}

fn wrong_pending_of(alloc: Global, older: &MemDisk, made: u64) -> Option<(u64, u64)> {
    match usual() {
        Some(params) => wrong_pending(alloc, older, made, &params),
        None => Some((0, 0)),
    }
}

fn wrong_after_kills(alloc: Global) -> Option<(u64, u64)> {
    match older(alloc) {
        Some(older) => wrong_pending_over(alloc, &older),
        None => Some((0, 0)),
    }
}

// What a run left that was killed is pending as a volume is made over it.
#[test]
fn a_stop_while_a_volume_is_made_after_a_kill(rt: HostRuntime) -> Result<(), Fail> {
    assert_eq!(rt; wrong_after_kills(rt.alloc()), None);
    Ok(())
}

// Whether a volume is whole although its reply could not be printed.
fn survives(alloc: Global, disk: &mut MemDisk) -> bool {
    let streams = Streams {
        puts: &[0],
        ..Streams::of(b"")
    };
    outputs(alloc, MAKING, disk, &streams, "6 ")
        && outputs_for(alloc, "vol check", disk, "", "0 ok 64 1 1 1 1 0 1000\n")
}

fn survives_on_zeros(alloc: Global) -> bool {
    match MemDisk::new(alloc, BLOCKS, ROOM, Vec::new(alloc)) {
        Ok(mut disk) => survives(alloc, &mut disk),
        Err(_) => false,
    }
}

#[test]
fn a_volume_whose_reply_is_not_printed(rt: HostRuntime) -> Result<(), Fail> {
    assert!(rt; survives_on_zeros(rt.alloc()));
    Ok(())
}
