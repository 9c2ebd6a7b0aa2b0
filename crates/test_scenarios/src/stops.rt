// Stops the disk of a run after each call.
use crate::bench::Bench;
use crate::expected::{Expected, KnownState, Stage};
use crate::images::image_of;
use mg_disk::{Fuse, Left, MemDisk};
use std::alloc::Global;
use test_helpers::{Streams, command};
use test_scenario_files::{Report, count_lines};

/// What a stop may leave of the blocks that were written since the last sync.
const WAYS: [Left; 3] = [Left::New, Left::Old, Left::Gates];

/// A run whose disk stopped.
#[derive(Drop)]
struct Stopped {
    disk: MemDisk,
    /// What the run printed.
    printed: Vec<u8>,
}

/// Stops a run after each call of the disk that follows the opening, and returns how many images were opened again. What is opened must
/// be the state after the answered lines, or after the next batch. It must read as that state does, and answer the lines that follow as
/// the whole session does. None if it differs, or if memory runs out.
pub fn stop_run(
    report: &mut Report,
    stage: &Stage<'_>,
    disk: &MemDisk,
    expected: &Expected,
    bench: &mut Bench,
) -> Option<u64> {
    let before = bench.stops();
    let first = count_disk_calls(report.alloc(), stage.line, disk, b"")?;
    let last = count_disk_calls(report.alloc(), stage.line, disk, stage.part.run)?;
    bench.begin_run();
    for calls in first..last.saturating_add(1) {
        if !stops_well(report, stage, disk, calls, expected, bench) {
            return None;
        }
    }
    Some(bench.stops().saturating_sub(before))
}

/// The number of disk calls that a run with this input makes. None if out of memory.
pub fn count_disk_calls(alloc: Global, line: &str, disk: &MemDisk, input: &[u8]) -> Option<u64> {
    match image_of(alloc, disk, Left::New) {
        Some(mut disk) => {
            if command(alloc, line, &mut disk, &Streams::of(input)).is_ok() {
                Some(calls_of(&disk))
            } else {
                None
            }
        }
        None => None,
    }
}

/// The number of calls that were made.
fn calls_of(disk: &MemDisk) -> u64 {
    changes_of(disk).saturating_add(disk.counts().reads)
}

/// The number of writes and syncs that were made.
fn changes_of(disk: &MemDisk) -> u64 {
    let counts = disk.counts();
    counts.writes.saturating_add(counts.syncs)
}

/// Whether the run that stops after `calls` calls printed the first answers, and left one of the states.
fn stops_well(
    report: &mut Report,
    stage: &Stage<'_>,
    disk: &MemDisk,
    calls: u64,
    expected: &Expected,
    bench: &mut Bench,
) -> bool {
    match run_stopped(report.alloc(), stage.line, disk, stage.part.run, calls) {
        Some(stopped) => compare(report, stage.line, calls, &stopped, expected, bench),
        None => false,
    }
}

/// Runs this input on a copy of this disk, which stops after `calls` calls.
fn run_stopped(
    alloc: Global,
    line: &str,
    disk: &MemDisk,
    input: &[u8],
    calls: u64,
) -> Option<Stopped> {
    match image_of(alloc, disk, Left::New) {
        Some(copy) => {
            let mut fuse = Fuse::new(copy, calls);
            match command(alloc, line, &mut fuse, &Streams::of(input)) {
                Ok(outcome) => Some(Stopped {
                    disk: fuse.into_inner(),
                    printed: outcome.printed,
                }),
                Err(_) => None,
            }
        }
        None => None,
    }
}

fn compare(
    report: &mut Report,
    line: &str,
    calls: u64,
    stopped: &Stopped,
    expected: &Expected,
    bench: &mut Bench,
) -> bool {
    let answered = count_lines(&stopped.printed);
    let is_matching = if expected.answers.starts_with(&stopped.printed) {
        all_ways_match(
            report.alloc(),
            &stopped.disk,
            &expected.states,
            answered,
            bench,
        )
    } else {
        Some(false)
    };
    if is_matching == Some(false) {
        report.set(format!(in report.alloc();
            "{line}: stopped after {calls} calls and {answered} answers"
        ));
    }
    is_matching == Some(true)
}

/// Whether a stop of this disk leaves one of the states, and still does after a stop in the opening that follows.
fn all_ways_match(
    alloc: Global,
    disk: &MemDisk,
    states: &[KnownState],
    answered: usize,
    bench: &mut Bench,
) -> Option<bool> {
    for left in WAYS.into_iter().take(bench.ways(disk, answered)) {
        if !way_matches(alloc, disk, left, states, answered, bench)? {
            return Some(false);
        }
    }
    Some(true)
}

fn way_matches(
    alloc: Global,
    disk: &MemDisk,
    left: Left,
    states: &[KnownState],
    answered: usize,
    bench: &mut Bench,
) -> Option<bool> {
    match image_of(alloc, disk, left) {
        Some(mut image) => match bench.matches(alloc, &mut image, states, answered) {
            Some(true) if bench.is_chosen(&mut image) => {
                opening_stops_match(alloc, &image, states, answered, bench)
            }
            is_matching => is_matching,
        },
        None => None,
    }
}

/// Whether a volume stays in one of the states if its opening is stopped after each call, from its first write to its last sync.
fn opening_stops_match(
    alloc: Global,
    image: &MemDisk,
    states: &[KnownState],
    answered: usize,
    bench: &mut Bench,
) -> Option<bool> {
    let last = count_disk_calls(alloc, "vol run", image, b"")?;
    let changes = count_changes(alloc, image, last)?;
    let first = first_change(alloc, image, last)?;
    bench.begin_run();
    for calls in first..last {
        match changes_after(alloc, image, calls, states, answered, bench)? {
            None => return Some(false),
            Some(made) => {
                if made == changes {
                    break;
                }
            }
        }
    }
    bench.begin_run();
    Some(true)
}

/// The number of writes and syncs among the first `calls` calls of an opening, if each stop after them leaves one of the states.
/// Some(None) if a stop leaves another state. None if out of memory.
fn changes_after(
    alloc: Global,
    image: &MemDisk,
    calls: u64,
    states: &[KnownState],
    answered: usize,
    bench: &mut Bench,
) -> Option<Option<u64>> {
    match run_stopped(alloc, "vol run", image, b"", calls) {
        Some(opened) => changes_if_matching(alloc, &opened.disk, states, answered, bench),
        None => None,
    }
}

fn changes_if_matching(
    alloc: Global,
    disk: &MemDisk,
    states: &[KnownState],
    answered: usize,
    bench: &mut Bench,
) -> Option<Option<u64>> {
    for left in WAYS.into_iter().take(bench.ways(disk, answered)) {
        if !image_matches(alloc, disk, left, states, answered, bench)? {
            return Some(None);
        }
    }
    Some(Some(changes_of(disk)))
}

/// Whether a stop leaves this disk in one of the states. None if out of memory.
pub fn image_matches(
    alloc: Global,
    disk: &MemDisk,
    left: Left,
    states: &[KnownState],
    answered: usize,
    bench: &mut Bench,
) -> Option<bool> {
    match image_of(alloc, disk, left) {
        Some(mut image) => bench.matches(alloc, &mut image, states, answered),
        None => None,
    }
}

/// The number of writes and syncs among the first `calls` calls of an opening.
fn count_changes(alloc: Global, image: &MemDisk, calls: u64) -> Option<u64> {
    match run_stopped(alloc, "vol run", image, b"", calls) {
        Some(opened) => Some(changes_of(&opened.disk)),
        None => None,
    }
}

/// The least number of calls, up to `last`, among which an opening has written.
fn first_change(alloc: Global, image: &MemDisk, last: u64) -> Option<u64> {
    let mut low: u64 = 0;
    let mut high = last;
    for _ in 0..64 {
        if low >= high {
            break;
        }
        let middle = low + (high - low) / 2;
        if count_changes(alloc, image, middle)? == 0 {
            low = middle.saturating_add(1);
        } else {
            high = middle;
        }
    }
    Some(low)
}
