// The states that a run may leave: those after its batches, and the one before the first.
use crate::images::image_of;
use crate::running::dry;
use mg_disk::{Left, MemDisk};
use mg_session::Status;
use std::alloc::Global;
use test_helpers::{Streams, command};
use test_scenario_files::{Kind, Part, append, append_lines, count, count_lines};

/// One run of a session on a volume.
#[derive(Clone, Copy)]
pub struct Stage<'a> {
    /// The words of the command `dry`.
    pub dry: &'a str,
    /// The words of the command `run`.
    pub line: &'a str,
    pub file: &'a [u8],
    pub part: Part<'a>,
}

/// What a run may print, and the states that it may leave.
#[derive(Drop)]
pub struct Expected {
    /// The answers of this run and of those after it.
    pub answers: Vec<u8>,
    /// The states in their order.
    pub states: Vec<KnownState>,
}

/// A state, known by the answers that it gives.
#[derive(Drop)]
pub struct KnownState {
    /// The number of calls of the run before this state.
    pub calls: usize,
    /// All lines of the session that only read, and then the lines after those calls.
    pub input: Vec<u8>,
    /// The answers to `input`.
    pub answers: Vec<u8>,
}

/// The end of a run whose sink fails at a put.
#[derive(Clone, Copy)]
enum End {
    /// The number of calls that were answered.
    Answered(usize),
    /// The run makes fewer puts.
    NoPut,
    /// Memory ran out.
    NoMemory,
}

/// Sets what the run on this disk may print and leave. False if out of memory.
pub fn fill_expected(
    alloc: Global,
    stage: &Stage<'_>,
    disk: &MemDisk,
    expected: &mut Expected,
) -> bool {
    let calls = count(stage.part.run, Kind::Calls);
    append_lines(
        &mut expected.answers,
        stage.part.rest,
        Kind::Answers,
        0,
        usize::MAX,
    ) && push_batch_ends(alloc, stage, disk, calls, &mut expected.states)
        && push_state(alloc, stage, calls, &mut expected.states)
}

/// Adds the states after each batch of `calls` calls but the last, and the one before the first. A sink that fails at a put shows where
/// a batch ends: it has the answers of the batches before. False if out of memory.
fn push_batch_ends(
    alloc: Global,
    stage: &Stage<'_>,
    disk: &MemDisk,
    calls: usize,
    states: &mut Vec<KnownState>,
) -> bool {
    for put in 0..calls {
        match end_at(alloc, stage, disk, put as u64) {
            End::Answered(calls) => {
                if !push_state(alloc, stage, calls, states) {
                    return false;
                }
            }
            End::NoPut => break,
            End::NoMemory => return false,
        }
    }
    true
}

/// The end of the run if the put with this number, from 0, fails.
fn end_at(alloc: Global, stage: &Stage<'_>, disk: &MemDisk, put: u64) -> End {
    let puts = [put];
    let streams = Streams {
        puts: &puts,
        ..Streams::of(stage.part.run)
    };
    match image_of(alloc, disk, Left::New) {
        Some(mut disk) => match command(alloc, stage.line, &mut disk, &streams) {
            Ok(outcome) => {
                if outcome.status == Status::Sink {
                    End::Answered(count_lines(&outcome.printed))
                } else {
                    End::NoPut
                }
            }
            Err(_) => End::NoMemory,
        },
        None => End::NoMemory,
    }
}

/// Adds the state after `calls` calls of the run. False if out of memory.
fn push_state(
    alloc: Global,
    stage: &Stage<'_>,
    calls: usize,
    states: &mut Vec<KnownState>,
) -> bool {
    let mut state = KnownState {
        calls,
        input: Vec::new(alloc),
        answers: Vec::new(alloc),
    };
    let is_filled = fill_state(alloc, stage, &mut state);
    states.push(state).is_ok() && is_filled
}

fn fill_state(alloc: Global, stage: &Stage<'_>, state: &mut KnownState) -> bool {
    let calls = state.calls;
    append_lines(&mut state.input, stage.file, Kind::Reads, 0, usize::MAX)
        && append_reads(alloc, stage, calls, &state.input, &mut state.answers)
        && append_lines(
            &mut state.input,
            stage.part.rest,
            Kind::Calls,
            calls,
            usize::MAX,
        )
        && append_lines(
            &mut state.answers,
            stage.part.rest,
            Kind::Answers,
            calls,
            usize::MAX,
        )
}

/// Appends the answers that `dry` gives to these reads after `calls` calls of the run.
fn append_reads(
    alloc: Global,
    stage: &Stage<'_>,
    calls: usize,
    reads: &[u8],
    answers: &mut Vec<u8>,
) -> bool {
    let mut lines = Vec::new(alloc);
    append_lines(&mut lines, stage.part.before, Kind::Calls, 0, usize::MAX)
        && append_lines(&mut lines, stage.part.rest, Kind::Calls, 0, calls)
        && append_reads_after(alloc, stage.dry, reads, &mut lines, answers)
}

/// Appends the answers to these reads after these lines.
fn append_reads_after(
    alloc: Global,
    dry_line: &str,
    reads: &[u8],
    lines: &mut Vec<u8>,
    answers: &mut Vec<u8>,
) -> bool {
    match dry(alloc, dry_line, &Streams::of(lines)) {
        Ok(before) => {
            append(lines, reads) && append_rest(alloc, dry_line, lines, &before.printed, answers)
        }
        Err(_) => false,
    }
}

/// Appends the answers to these lines that follow the first answers.
fn append_rest(
    alloc: Global,
    dry_line: &str,
    lines: &[u8],
    first: &[u8],
    answers: &mut Vec<u8>,
) -> bool {
    match dry(alloc, dry_line, &Streams::of(lines)) {
        Ok(outcome) => append(answers, outcome.printed.strip_prefix(first).unwrap_or(b"")),
        Err(_) => false,
    }
}
