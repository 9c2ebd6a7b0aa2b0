// Commands whose source, sink or disk fails: their status, what they print, and what they leave.
use mg_disk::{Disk, Fuse, MemDisk, ScratchDisk};
use std::alloc::Global;
use std::test::Fail;
use test_helpers::{BLOCKS, MAKING, Streams, ends, fresh, output_for, outputs, outputs_for};

const STORE: &str = "1 store 0x100000020 5\n";

const LOADS: &str = "1 load 0x100000020\n1 load 0x100000028\n";

// What two loads print: the words of the two stores, or zeros.
const NONE: &str = "0 ok 0x0000000000000000\nok 0x0000000000000000\n";

const FIRST: &str = "0 ok 0x0000000000000005\nok 0x0000000000000000\n";

// Lines that spell no command: batches of 0 and of 65 lines, 15 frames, a missing number, a volume alone, and no words.
const NO_COMMANDS: &str = "vol run 0
vol run 65
vol format 15 0000000000000000000000000000000000000000000000000000000000000000 1
vol dry 64 0000000000000000000000000000000000000000000000000000000000000000
vol
";

// Whether a command ends with this status and output, on a disk of which no call may be made.
fn ends_idle(alloc: Global, line: &str, streams: &Streams<'_>, code: u8, printed: &[u8]) -> bool {
    match MemDisk::new(alloc, 1, 0, Vec::new(alloc)) {
        Ok(mut disk) => ends(alloc, line, &mut disk, streams, code, printed),
        Err(_) => false,
    }
}

// The first of these lines that spells a command.
fn spelled<'a>(alloc: Global, lines: &'a str) -> Option<&'a str> {
    let streams = Streams::of(STORE.as_bytes());
    for line in lines.split('\n') {
        if !ends_idle(alloc, line, &streams, 1, b"usage\n") {
            return Some(line);
        }
    }
    None
}

#[test]
fn words_that_spell_nothing(rt: HostRuntime) -> Result<(), Fail> {
    assert_eq!(rt; spelled(rt.alloc(), NO_COMMANDS), None);
    Ok(())
}

const DRY: &str =
    "vol dry 64 0000000000000000000000000000000000000000000000000000000000000000 1000";

// The numbers of the take and the `put` that fail, the status, and the number of bytes that are printed.
type Cut = (u64, u64, u8, usize);

// 70 lines come in 18 pieces of 80 bytes, and the source is read once more. The first batch of 64 replies is printed before the 18th
// take, and the second at the end.
const CUTS: [Cut; 7] = [
    (0, 9, 5, 0),
    (16, 9, 5, 0),
    (17, 9, 5, 800),
    (18, 9, 5, 800),
    (99, 0, 6, 0),
    (99, 1, 6, 800),
    (99, 2, 0, 875),
];

// Whether a session of these lines ends as the cut says.
fn is_cut(alloc: Global, lines: &[u8], replies: &[u8], cut: Cut) -> bool {
    let (take, put, code, count) = cut;
    let streams = Streams {
        piece: 80,
        takes: &[take],
        puts: &[put],
        ..Streams::of(lines)
    };
    match replies.get(..count) {
        Some(printed) => ends_idle(alloc, DRY, &streams, code, printed),
        None => false,
    }
}

// The first cut after which the session ends otherwise.
fn wrong_cut(alloc: Global, lines: &[u8], replies: &[u8], cuts: &[Cut]) -> Option<Cut> {
    for cut in cuts {
        if !is_cut(alloc, lines, replies, *cut) {
            return Some(*cut);
        }
    }
    None
}

// A text repeated `times` times. It is shorter if memory runs out.
fn repeated(alloc: Global, part: &str, times: u64) -> String {
    let mut text = String::new(alloc);
    for _ in 0..times {
        let _ = text.push_str(part);
    }
    text
}

// The first wrong cut of 35 stores, each followed by a load.
fn wrong_cut_of_70(alloc: Global, cuts: &[Cut]) -> Option<Cut> {
    let lines = repeated(alloc, "1 store 0x100000020 7\n1 load 0x100000020\n", 35);
    let replies = repeated(alloc, "ok\nok 0x0000000000000007\n", 35);
    wrong_cut(alloc, lines.as_bytes(), replies.as_bytes(), cuts)
}

#[test]
fn seventy_lines_in_two_batches(rt: HostRuntime) -> Result<(), Fail> {
    assert_eq!(rt; wrong_cut_of_70(rt.alloc(), &CUTS), None);
    Ok(())
}

// The length of the first `lines` lines of a text.
fn len_of(text: &[u8], lines: usize) -> usize {
    let mut len: usize = 0;
    let mut left = lines;
    for byte in text {
        if left == 0 {
            break;
        }
        len = len.saturating_add(1);
        if *byte == b'\n' {
            left = left.saturating_sub(1);
        }
    }
    len
}

// The number of newlines in a text.
fn lines_in(text: &[u8]) -> usize {
    let mut lines: usize = 0;
    for byte in text {
        if *byte == b'\n' {
            lines = lines.saturating_add(1);
        }
    }
    lines
}

// Whether a run with batches of 1 ends as the cut says.
fn is_cut_alone<D: Disk>(
    alloc: Global,
    disk: &mut D,
    lines: &[u8],
    replies: &[u8],
    cut: Cut,
) -> bool {
    let (take, put, code, answered) = cut;
    let streams = Streams {
        piece: 80,
        takes: &[take],
        puts: &[put],
        ..Streams::of(lines)
    };
    match replies.get(..len_of(replies, answered)) {
        Some(printed) => ends(alloc, "vol run 1", disk, &streams, code, printed),
        None => false,
    }
}

// The first of the 19 `take` calls and then of the 70 `put` calls whose failure ends the run otherwise. Each reply is printed
// before the next line is served, and each line that ends in a piece before the failed take is answered.
fn wrong_alone<D: Disk>(alloc: Global, disk: &mut D, lines: &[u8], replies: &[u8]) -> Option<Cut> {
    for take in 0..19 {
        let taken = lines.get(..80 * take as usize).unwrap_or(lines);
        let cut = (take, 99, 5, lines_in(taken));
        if !is_cut_alone(alloc, disk, lines, replies, cut) {
            return Some(cut);
        }
    }
    for put in 0..70 {
        let cut = (99, put, 6, put as usize);
        if !is_cut_alone(alloc, disk, lines, replies, cut) {
            return Some(cut);
        }
    }
    None
}

// The first wrong one with 70 lines, on a volume of 64 frames.
fn wrong_alone_of_70<D: Disk>(alloc: Global, disk: &mut D) -> Option<Cut> {
    let lines = repeated(alloc, "1 store 0x100000020 7\n1 load 0x100000020\n", 35);
    let replies = repeated(alloc, "ok\nok 0x0000000000000007\n", 35);
    if output_for(alloc, MAKING, disk, "").is_err() {
        return Some((0, 0, 0, 0));
    }
    wrong_alone(alloc, disk, lines.as_bytes(), replies.as_bytes())
}

fn wrong_alone_on_zeros(alloc: Global) -> Option<Cut> {
    match ScratchDisk::new(alloc, BLOCKS) {
        Ok(mut disk) => wrong_alone_of_70(alloc, &mut disk),
        Err(_) => Some((0, 0, 0, 0)),
    }
}

#[test]
fn seventy_lines_one_by_one(rt: HostRuntime) {
    assert!(rt; wrong_alone_on_zeros(rt.alloc()).is_none());
}

// A command on a fresh volume with its streams and output, and a second one with its input and output.
type Pair<'a> = (&'a str, Streams<'a>, &'a str, &'a str, &'a str, &'a str);

// Whether both commands have their outputs.
fn both_agree(alloc: Global, disk: &mut MemDisk, pair: &Pair<'_>) -> bool {
    let (line, streams, wanted, second, input, later) = pair;
    outputs(alloc, line, disk, streams, wanted) && outputs_for(alloc, second, disk, input, later)
}

fn is_pair(alloc: Global, pair: &Pair<'_>) -> bool {
    match fresh(alloc) {
        Ok(mut disk) => both_agree(alloc, &mut disk, pair),
        Err(_) => false,
    }
}

// The output of the second command of the first pair that differs.
fn wrong_pair<'a>(alloc: Global, rows: &[Pair<'a>]) -> Option<&'a str> {
    for row in rows {
        if !is_pair(alloc, row) {
            return Some(row.5);
        }
    }
    None
}

const SOURCE_FAILS: Streams<'static> = Streams {
    input: b"1 store 0x100000020 5\n1 store 0x100000028 6",
    piece: 4096,
    takes: &[1],
    puts: &[],
    room: 65536,
};

const LOAD: Streams<'static> = Streams {
    input: b"1 load 0x100000000\n",
    ..SOURCE_FAILS
};

const NO_ROOM: Streams<'static> = Streams {
    input: b"1 store 0x100000020 5\n",
    takes: &[],
    room: 0,
    ..SOURCE_FAILS
};

const RENT: Streams<'static> = Streams {
    input: b"rent\n",
    takes: &[],
    puts: &[0],
    ..SOURCE_FAILS
};

const NOTHING: Streams<'static> = Streams {
    input: b"",
    takes: &[],
    ..SOURCE_FAILS
};

const UNTOUCHED: &str = "0 ok 64 1 1 1 1 0 1000\n";

const RENTED: &str = "0 ok 64 1 1 1 1 1 1000\n";

// If the source fails, the lines of the open batch are neither stored nor answered. If the sink fails, the batch is stored all the same,
// and `rent` has counted its period. An empty input changes nothing.
const PAIRS: [Pair<'static>; 6] = [
    ("vol run 2", LOAD, "5 ", "vol run", LOADS, NONE),
    ("vol run", SOURCE_FAILS, "5 ok\n", "vol run", LOADS, FIRST),
    ("vol run 2", SOURCE_FAILS, "5 ", "vol run", LOADS, NONE),
    ("vol run", NO_ROOM, "6 ", "vol run", LOADS, FIRST),
    ("vol run", RENT, "6 ", "vol check", "", RENTED),
    ("vol run", NOTHING, "0 ", "vol check", "", UNTOUCHED),
];

#[test]
fn a_source_or_a_sink_that_fails(rt: HostRuntime) -> Result<(), Fail> {
    assert_eq!(rt; wrong_pair(rt.alloc(), &PAIRS), None);
    Ok(())
}

// Whether a command ends with a fault of the disk if the first call fails.
fn fails_at_once(alloc: Global, line: &str) -> bool {
    match fresh(alloc) {
        Ok(disk) => {
            let mut disk = Fuse::new(disk, 0);
            outputs_for(alloc, line, &mut disk, STORE, "4 ")
        }
        Err(_) => false,
    }
}

#[test]
fn a_disk_that_fails_at_once(rt: HostRuntime) -> Result<(), Fail> {
    let alloc = rt.alloc();
    assert!(rt; fails_at_once(alloc, "vol check") && fails_at_once(alloc, "vol run"));
    Ok(())
}

// The number of writes and of syncs that a run makes on this disk.
fn calls_on(alloc: Global, disk: &mut MemDisk, line: &str, input: &str) -> Option<(u64, u64)> {
    match output_for(alloc, line, disk, input) {
        Ok(_) => {
            let counts = disk.counts();
            Some((counts.writes, counts.syncs))
        }
        Err(_) => None,
    }
}

// The same on a fresh volume.
fn calls(alloc: Global, line: &str, input: &str) -> Option<(u64, u64)> {
    match fresh(alloc) {
        Ok(mut disk) => calls_on(alloc, &mut disk, line, input),
        Err(_) => None,
    }
}

// Whether a run with this input makes these numbers of writes and syncs.
fn makes(alloc: Global, input: &str, wanted: (u64, u64)) -> bool {
    calls(alloc, "vol run", input) == Some(wanted)
}

// An opening makes one sync, even if no segment is open.
#[test]
fn calls_of_a_line(rt: HostRuntime) -> Result<(), Fail> {
    let alloc = rt.alloc();
    let load = "1 load 0x100000020\n";
    assert!(rt;
        makes(alloc, "", (0, 1)) && makes(alloc, STORE, (3, 3)) && makes(alloc, load, (0, 1))
    );
    Ok(())
}

// Whether 40 stores in one batch make fewer syncs than alone.
fn saves_syncs(alloc: Global) -> bool {
    let lines = repeated(alloc, STORE, 40);
    let alone = calls(alloc, "vol run", lines.as_str());
    let together = calls(alloc, "vol run 64", lines.as_str());
    match (alone, together) {
        (Some((_, alone)), Some((_, together))) => together < alone,
        _ => false,
    }
}

#[test]
fn a_batch_saves_syncs(rt: HostRuntime) -> Result<(), Fail> {
    assert!(rt; saves_syncs(rt.alloc()));
    Ok(())
}
