// Runs in which each call of the disk, the source and the sink fails once.
use crate::bench::{Bench, copy};
use crate::expected::{Expected, KnownState, Stage};
use crate::images::image_of;
use crate::stops::{count_disk_calls, image_matches};
use mg_disk::{BLOCK_SIZE, Disk, Left, MemDisk, ScratchDisk};
use mg_session::Status;
use std::alloc::{AllocError, Global};
use test_helpers::{Outcome, ROOM, Streams, command};
use test_scenario_files::{Report, count_lines};

/// The most bytes that a take gives. It is small, so that a session has many takes.
const PIECE: usize = 64;

/// The most takes or puts that a run is tried with.
const MOST_CALLS: u64 = 100_000;

/// The kind of call that fails.
#[derive(Clone, Copy)]
enum Failing {
    /// A call of the disk.
    Disk,
    /// A take of the source.
    Take,
    /// A put of the sink.
    Put,
}

/// A run of a session, with what it may print and the states that it may leave.
#[derive(Clone, Copy)]
struct Trial<'a> {
    line: &'a str,
    input: &'a [u8],
    expected: &'a Expected,
}

/// A call that fails, by its kind and number.
#[derive(Clone, Copy)]
struct Fault {
    failing: Failing,
    number: u64,
}

/// Fails each call of the disk after the opening, each take and each put, one in each run. Returns how many failed. None if a run
/// differs or memory runs out.
pub fn fail_run(
    report: &mut Report,
    stage: &Stage<'_>,
    disk: &MemDisk,
    expected: &Expected,
    bench: &mut Bench,
) -> Option<u64> {
    let first = count_disk_calls(report.alloc(), stage.line, disk, b"")?;
    let last = count_disk_calls(report.alloc(), stage.line, disk, stage.part.run)?;
    let trial = trial_of(stage, expected);
    match scratch_copy(report.alloc(), disk) {
        Some(mut volume) => fail_kinds(report, &trial, &mut volume, bench, first, last),
        None => None,
    }
}

/// Fails each take and each put of a run, one in each run. Returns how many failed. None if a run differs or memory runs out.
pub fn fail_streams(
    report: &mut Report,
    stage: &Stage<'_>,
    disk: &MemDisk,
    expected: &Expected,
    bench: &mut Bench,
) -> Option<u64> {
    let trial = trial_of(stage, expected);
    match scratch_copy(report.alloc(), disk) {
        Some(mut volume) => fail_takes_and_puts(report, &trial, &mut volume, bench),
        None => None,
    }
}

fn trial_of<'a>(stage: &Stage<'a>, expected: &'a Expected) -> Trial<'a> {
    Trial {
        line: stage.line,
        input: stage.part.run,
        expected,
    }
}

/// A copy of a disk that counts no calls. None if out of memory.
fn scratch_copy(alloc: Global, disk: &MemDisk) -> Option<ScratchDisk> {
    match image_of(alloc, disk, Left::New) {
        Some(mut from) => match ScratchDisk::new(alloc, from.blocks()) {
            Ok(mut scratch) => {
                copy(&mut from, &mut scratch);
                Some(scratch)
            }
            Err(_) => None,
        },
        None => None,
    }
}

fn fail_kinds(
    report: &mut Report,
    trial: &Trial<'_>,
    volume: &mut ScratchDisk,
    bench: &mut Bench,
    first: u64,
    last: u64,
) -> Option<u64> {
    let calls = fail_calls(report, trial, volume, bench, Failing::Disk, first, last)?;
    let streams = fail_takes_and_puts(report, trial, volume, bench)?;
    Some(calls.saturating_add(streams))
}

fn fail_takes_and_puts(
    report: &mut Report,
    trial: &Trial<'_>,
    volume: &mut ScratchDisk,
    bench: &mut Bench,
) -> Option<u64> {
    let takes = fail_calls(report, trial, volume, bench, Failing::Take, 0, MOST_CALLS)?;
    let puts = fail_calls(report, trial, volume, bench, Failing::Put, 0, MOST_CALLS)?;
    Some(takes.saturating_add(puts))
}

/// Fails the calls of one kind, one in each run, with numbers from `first` up to `last` or up to the first that the run does not reach.
/// Returns how many failed.
fn fail_calls(
    report: &mut Report,
    trial: &Trial<'_>,
    volume: &mut ScratchDisk,
    bench: &mut Bench,
    failing: Failing,
    first: u64,
    last: u64,
) -> Option<u64> {
    let mut faults: u64 = 0;
    for number in first..last {
        let fault = Fault { failing, number };
        if !fails_well(report, trial, volume, bench, &fault)? {
            break;
        }
        faults = faults.saturating_add(1);
    }
    Some(faults)
}

/// Whether the run reaches the call that fails. If it does, it must end with the status of that call, print the first answers, and
/// leave the state after these or after the next batch.
fn fails_well(
    report: &mut Report,
    trial: &Trial<'_>,
    volume: &mut ScratchDisk,
    bench: &mut Bench,
    fault: &Fault,
) -> Option<bool> {
    let numbers = [fault.number];
    let (fails, takes, puts): (&[u64], &[u64], &[u64]) = match fault.failing {
        Failing::Disk => (&numbers, &[], &[]),
        Failing::Take => (&[], &numbers, &[]),
        Failing::Put => (&[], &[], &numbers),
    };
    let streams = Streams {
        piece: PIECE,
        takes,
        puts,
        ..Streams::of(trial.input)
    };
    fail_on(report, trial, volume, bench, fault, fails, &streams)
}

/// Makes the run on a copy of the volume. The disk calls with the numbers `fails` fail.
fn fail_on(
    report: &mut Report,
    trial: &Trial<'_>,
    volume: &mut ScratchDisk,
    bench: &mut Bench,
    fault: &Fault,
    fails: &[u64],
    streams: &Streams<'_>,
) -> Option<bool> {
    match copy_with_faults(report.alloc(), volume, fails) {
        Ok(mut disk) => match command(report.alloc(), trial.line, &mut disk, streams) {
            Ok(outcome) => compare(report, trial, &disk, bench, fault, &outcome),
            Err(_) => None,
        },
        Err(_) => None,
    }
}

fn compare(
    report: &mut Report,
    trial: &Trial<'_>,
    disk: &MemDisk,
    bench: &mut Bench,
    fault: &Fault,
    outcome: &Outcome,
) -> Option<bool> {
    if outcome.status == Status::Done {
        return Some(false);
    }
    let answered = count_lines(&outcome.printed);
    let is_first = trial.expected.answers.starts_with(&outcome.printed)
        && outcome.status == status_of(fault.failing);
    let states = &trial.expected.states;
    if is_first && both_match(report.alloc(), disk, states, answered, bench)? {
        return Some(true);
    }
    let line = trial.line;
    let number = fault.number;
    let code = outcome.status.code();
    report.set(format!(in report.alloc();
        "{line}: call {number} failed, status {code}, {answered} answers"
    ));
    None
}

/// Whether two images of the disk are each in one of the states: the blocks as written, and the blocks as of the last sync.
fn both_match(
    alloc: Global,
    disk: &MemDisk,
    states: &[KnownState],
    answered: usize,
    bench: &mut Bench,
) -> Option<bool> {
    let is_new = image_matches(alloc, disk, Left::New, states, answered, bench)?;
    let is_old = image_matches(alloc, disk, Left::Old, states, answered, bench)?;
    Some(is_new && is_old)
}

/// The status of a run in which such a call fails.
fn status_of(failing: Failing) -> Status {
    match failing {
        Failing::Disk => Status::Disk,
        Failing::Take => Status::Source,
        Failing::Put => Status::Sink,
    }
}

/// A copy of a disk. Its calls with these numbers fail, counted from after the copying.
fn copy_with_faults(
    alloc: Global,
    from: &mut ScratchDisk,
    fails: &[u64],
) -> Result<MemDisk, AllocError> {
    let blocks = from.blocks();
    match fails.to_vec(alloc) {
        Ok(mut numbers) => {
            for number in numbers.iter_mut() {
                *number = number.saturating_add(blocks).saturating_add(1);
            }
            match MemDisk::new(alloc, blocks, ROOM, numbers) {
                Ok(mut disk) => {
                    fill_from(from, &mut disk);
                    Ok(disk)
                }
                Err(e) => Err(e),
            }
        }
        Err(e) => Err(e),
    }
}

/// Copies all blocks of one disk to the other, and syncs.
fn fill_from(from: &mut ScratchDisk, to: &mut MemDisk) {
    let mut block = [0; BLOCK_SIZE];
    for i in 0..from.blocks() {
        if i < from.blocks() && i < to.blocks() && from.read(i, &mut block).is_ok() {
            let _ = to.write(i, &block);
        }
    }
    let _ = to.sync();
}
