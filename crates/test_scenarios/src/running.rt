// Runs a session under `dry`, and under `run` with three batches.
use crate::images::image_of;
use crate::showing::{Shows, show_all};
use mg_disk::{Left, MemDisk, ScratchDisk};
use mg_session::Status;
use std::alloc::{AllocError, Global};
use test_helpers::{Outcome, Streams, command, volume};
use test_scenario_files::{
    Kind, Line, Part, Report, Session, Settings, append, append_line, count_runs, first_line,
    is_newline, line_of, part_of, place_after,
};

/// A way to run a session on a volume.
#[derive(Clone, Copy)]
struct Way {
    batch: &'static str,
    /// Its name in reports.
    how: &'static str,
    /// The words of the command.
    line: &'static str,
    /// The most bytes that a take of the source gives.
    piece: usize,
}

const ALONE: Way = Way {
    batch: "1",
    how: "run 1",
    line: "vol run 1",
    piece: 7,
};

const BY_8: Way = Way {
    batch: "8",
    how: "run 8",
    line: "vol run 8",
    piece: 256,
};

const BY_64: Way = Way {
    batch: "64",
    how: "run 64",
    line: "vol run 64",
    piece: 257,
};

/// What the first way to run the session printed. The other ways must print the same.
#[derive(Drop)]
struct Baseline {
    /// What `check` prints after the last run.
    check: Option<Vec<u8>>,
    /// The answers to the same lines once more.
    again: Option<Vec<u8>>,
}

/// Runs the session in each way, and returns whether all agree.
pub fn run_all<S: Shows>(report: &mut Report, session: &Session<'_>, shows: &S) -> bool {
    let mut baseline = Baseline {
        check: None,
        again: None,
    };
    run_ways(report, session, shows, &mut baseline)
}

fn run_ways<S: Shows>(
    report: &mut Report,
    session: &Session<'_>,
    shows: &S,
    baseline: &mut Baseline,
) -> bool {
    if let Some(line) = session.settings.check {
        if !store_copy(report.alloc(), line.as_bytes(), true, &mut baseline.check) {
            return false;
        }
    }
    if session.settings.tariff.is_none() && !run_dry(report, session, &mut baseline.again) {
        return false;
    }
    match fresh(report.alloc(), &session.settings) {
        Ok(fresh) => run_batches(report, session, shows, &fresh, baseline),
        Err(_) => false,
    }
}

/// Stores a copy of these bytes in `place`, with a newline after them if `is_ended`. False if out of memory.
fn store_copy(alloc: Global, bytes: &[u8], is_ended: bool, place: &mut Option<Vec<u8>>) -> bool {
    let mut copy = Vec::new(alloc);
    let is_stored = append(&mut copy, bytes) && (!is_ended || append(&mut copy, b"\n"));
    *place = Some(copy);
    is_stored
}

/// A fresh volume with these settings.
pub fn fresh(alloc: Global, settings: &Settings<'_>) -> Result<MemDisk, AllocError> {
    match settings.format_line(alloc) {
        Ok(line) => volume(alloc, line.as_str()),
        Err(e) => Err(e),
    }
}

/// Runs the lines of the file twice in one run of `dry`, which has a fresh volume with the usual tariff. The first answers must be
/// those in the file. The second answers are stored in `again`.
fn run_dry(report: &mut Report, session: &Session<'_>, again: &mut Option<Vec<u8>>) -> bool {
    let mut twice = Vec::new(report.alloc());
    append_line(&mut twice, session.file)
        && append(&mut twice, session.file)
        && run_twice(report, session, &twice, again)
}

fn run_twice(
    report: &mut Report,
    session: &Session<'_>,
    twice: &[u8],
    again: &mut Option<Vec<u8>>,
) -> bool {
    let streams = Streams {
        piece: 1,
        ..Streams::of(twice)
    };
    match session.settings.dry_line(report.alloc()) {
        Ok(line) => match dry(report.alloc(), line.as_str(), &streams) {
            Ok(outcome) => store_rest(report, session.file, &outcome, again),
            Err(_) => false,
        },
        Err(_) => false,
    }
}

/// The outcome of a command that needs no disk.
pub fn dry(alloc: Global, line: &str, streams: &Streams<'_>) -> Result<Outcome, AllocError> {
    match ScratchDisk::new(alloc, 0) {
        Ok(mut disk) => command(alloc, line, &mut disk, streams),
        Err(e) => Err(e),
    }
}

/// Stores what `dry` printed after the answers of the file.
fn store_rest(
    report: &mut Report,
    file: &[u8],
    outcome: &Outcome,
    again: &mut Option<Vec<u8>>,
) -> bool {
    match rest_after_answers(report, "dry", file, 0, &outcome.printed) {
        Some(rest) => {
            store_copy(report.alloc(), rest, false, again) && is_done(report, "dry", outcome.status)
        }
        None => false,
    }
}

/// Runs the session with each batch, on a copy of this volume each. A larger batch must make no more syncs.
fn run_batches<S: Shows>(
    report: &mut Report,
    session: &Session<'_>,
    shows: &S,
    fresh: &MemDisk,
    baseline: &mut Baseline,
) -> bool {
    match run_on_copy(report, session, shows, &ALONE, fresh, baseline) {
        Some(most) => {
            saves_syncs(report, session, shows, &BY_8, fresh, baseline, most)
                && saves_syncs(report, session, shows, &BY_64, fresh, baseline, most)
        }
        None => false,
    }
}

fn saves_syncs<S: Shows>(
    report: &mut Report,
    session: &Session<'_>,
    shows: &S,
    way: &Way,
    fresh: &MemDisk,
    baseline: &mut Baseline,
    most: u64,
) -> bool {
    match run_on_copy(report, session, shows, way, fresh, baseline) {
        Some(syncs) => {
            if syncs > most || session.settings.saves && syncs == most {
                report.describe(way.batch, "no syncs are saved");
                return false;
            }
            true
        }
        None => false,
    }
}

fn run_on_copy<S: Shows>(
    report: &mut Report,
    session: &Session<'_>,
    shows: &S,
    way: &Way,
    fresh: &MemDisk,
    baseline: &mut Baseline,
) -> Option<u64> {
    match image_of(report.alloc(), fresh, Left::New) {
        Some(mut disk) => run_batch(report, session, shows, way, &mut disk, baseline),
        None => None,
    }
}

/// Makes the runs on a volume, with a stop after each. Then come `check`, the texts, and the same lines once more. Returns how many
/// syncs the runs made.
fn run_batch<S: Shows>(
    report: &mut Report,
    session: &Session<'_>,
    shows: &S,
    way: &Way,
    disk: &mut MemDisk,
    baseline: &mut Baseline,
) -> Option<u64> {
    let mut syncs: u64 = 0;
    for i in 0..count_runs(session.file) {
        let more = run_part(report, way, &part_of(session.file, i), disk)?;
        syncs = syncs.saturating_add(more);
    }
    if check(report, way, disk, &mut baseline.check)
        && are_shown(report, way, session, shows, disk)
        && run_again(report, way, session.file, disk, &mut baseline.again)
    {
        Some(syncs)
    } else {
        None
    }
}

/// Makes a run on the volume, and then a stop. The run must print its answers and nothing else, with status 0. Returns how many syncs
/// it made.
fn run_part(report: &mut Report, way: &Way, part: &Part<'_>, disk: &mut MemDisk) -> Option<u64> {
    if !is_answered(report, way, part, disk) {
        return None;
    }
    let syncs = disk.counts().syncs;
    if reopen(report.alloc(), disk) {
        Some(syncs)
    } else {
        None
    }
}

fn is_answered(report: &mut Report, way: &Way, part: &Part<'_>, disk: &mut MemDisk) -> bool {
    let streams = Streams {
        piece: way.piece,
        ..Streams::of(part.run)
    };
    match command(report.alloc(), way.line, disk, &streams) {
        Ok(outcome) => compare(report, way.how, part, &outcome),
        Err(_) => false,
    }
}

/// Makes a disk what a stop now leaves of it, with no call made yet. False if out of memory.
pub fn reopen(alloc: Global, disk: &mut MemDisk) -> bool {
    match image_of(alloc, disk, Left::Old) {
        Some(left) => {
            *disk = left;
            true
        }
        None => false,
    }
}

/// Whether `check` prints the same line as before, and makes no write and no sync.
fn check(report: &mut Report, way: &Way, disk: &mut MemDisk, known: &mut Option<Vec<u8>>) -> bool {
    match command(report.alloc(), "vol check", disk, &Streams::of(b"")) {
        Ok(outcome) => {
            only_reads(report, way, "then check makes a write or a sync", disk)
                && is_same(report, way.how, "then check", known, &outcome.printed)
        }
        Err(_) => false,
    }
}

/// Whether the texts of the session are shown, with no write and no sync.
fn are_shown<S: Shows>(
    report: &mut Report,
    way: &Way,
    session: &Session<'_>,
    shows: &S,
    disk: &mut MemDisk,
) -> bool {
    show_all(report, way.how, shows, disk, session.texts)
        && only_reads(report, way, "then a text makes a write or a sync", disk)
}

fn only_reads(report: &mut Report, way: &Way, what: &str, disk: &MemDisk) -> bool {
    let counts = disk.counts();
    if counts.writes != 0 || counts.syncs != 0 {
        report.describe(way.how, what);
        return false;
    }
    true
}

/// Whether the lines of the file are answered once more as before.
fn run_again(
    report: &mut Report,
    way: &Way,
    file: &[u8],
    disk: &mut MemDisk,
    known: &mut Option<Vec<u8>>,
) -> bool {
    match command(report.alloc(), way.line, disk, &Streams::of(file)) {
        Ok(outcome) => is_same(
            report,
            way.how,
            "then the lines once more",
            known,
            &outcome.printed,
        ),
        Err(_) => false,
    }
}

/// Whether these bytes are the known ones. If none are known yet, these are stored.
fn is_same(
    report: &mut Report,
    how: &str,
    what: &str,
    known: &mut Option<Vec<u8>>,
    printed: &[u8],
) -> bool {
    match known {
        None => store_copy(report.alloc(), printed, false, known),
        Some(first) => {
            if first.as_slice() == printed {
                return true;
            }
            report.describe_bytes(how, what, first, printed);
            false
        }
    }
}

/// Whether a command printed the answers of this run and nothing else, with status 0.
fn compare(report: &mut Report, how: &str, part: &Part<'_>, outcome: &Outcome) -> bool {
    match rest_after_answers(report, how, part.run, part.lines, &outcome.printed) {
        Some([]) => is_done(report, how, outcome.status),
        Some(_) => {
            report.describe(how, "more answers than lines");
            false
        }
        None => false,
    }
}

/// What was printed after the answers of these lines. None if these answers were not printed first. `before` is the number of lines
/// before them in the file.
fn rest_after_answers<'a>(
    report: &mut Report,
    how: &str,
    lines: &[u8],
    before: usize,
    printed: &'a [u8],
) -> Option<&'a [u8]> {
    let mut printed = printed;
    let mut calls: usize = 0;
    for line in lines.split_inclusive(is_newline) {
        if let Line::Answer(answer) = line_of(line) {
            calls = calls.saturating_add(1);
            match after_answer(printed, answer) {
                Some(rest) => printed = rest,
                None => {
                    let (_, number) = place_after(lines, Kind::Calls, calls);
                    describe_answer(report, how, before.saturating_add(number), answer, printed);
                    return None;
                }
            }
        }
    }
    Some(printed)
}

/// The bytes after an answer and its newline.
fn after_answer<'a>(printed: &'a [u8], answer: &[u8]) -> Option<&'a [u8]> {
    match printed.strip_prefix(answer) {
        Some(rest) => rest.strip_prefix(b"\n"),
        None => None,
    }
}

/// Says that the line with this number had another answer.
fn describe_answer(report: &mut Report, how: &str, number: usize, answer: &[u8], printed: &[u8]) {
    let mut wanted = Vec::new(report.alloc());
    if append_line(&mut wanted, answer) {
        describe_line(report, how, number, &wanted, first_line(printed));
    }
}

fn describe_line(report: &mut Report, how: &str, number: usize, wanted: &[u8], found: &[u8]) {
    match format!(in report.alloc(); "line {number}") {
        Ok(what) => report.describe_bytes(how, what.as_str(), wanted, found),
        Err(_) => {}
    }
}

/// Whether the status is 0. If not, the report says so.
fn is_done(report: &mut Report, how: &str, status: Status) -> bool {
    if status == Status::Done {
        return true;
    }
    let code = status.code();
    report.set(format!(in report.alloc(); "{how}: status {code}"));
    false
}
