// A run over a mirror, from its words to its outcome and its two disks.
ghost use Rattle.std.specs.Prelude.{◌≡◌, ◌<◌};

use crate::disks::{Disks, Setup, make_disk};
use mg_disk::{Disk, Fuse, MemDisk};
use mg_io::{MemSink, MemSource, Sink, Source};
use mg_mirror::Side;
use mg_mirror_session::top_mirror;
use mg_model::Steps;
use mg_session::Status;
use std::alloc::Global;
use std::marker::Brand;
use std::sync::ledger::{Blank, Ledger};

/// The outcome that a run must have: its status, the side that is left alone, if one is, and what it prints.
#[derive(Clone, Copy)]
pub struct Expected {
    pub status: Status,
    pub alone: Option<Side>,
    pub printed: &'static str,
}

/// A run: its words, its lines, and the outcome that it must have.
#[derive(Clone, Copy)]
pub struct Run {
    pub line: &'static [&'static str],
    pub input: &'static str,
    pub expected: Expected,
}

/// A run over disks that are made for it.
#[derive(Clone, Copy)]
pub struct Case {
    pub left: Setup,
    pub right: Setup,
    pub run: Run,
}

/// A run that ended.
#[derive(Drop)]
pub struct Outcome {
    /// Whether it had the outcome that it must have.
    pub is_expected: bool,
    pub disks: Disks,
}

/// Whether a run over new disks has the outcome that it must have.
pub fn is_expected(alloc: Global, case: &Case) -> bool {
    match ran(alloc, case) {
        Some(outcome) => outcome.is_expected,
        None => false,
    }
}

/// A run over new disks.
pub fn ran(alloc: Global, case: &Case) -> Option<Outcome> {
    match make_disk(alloc, &case.left) {
        Some(left) => ran_from(alloc, case, left),
        None => None,
    }
}

fn ran_from(alloc: Global, case: &Case, left: Fuse<MemDisk>) -> Option<Outcome> {
    match make_disk(alloc, &case.right) {
        Some(right) => run_over(alloc, &case.run, Disks { left, right }),
        None => None,
    }
}

/// A run over these disks.
pub fn run_over(alloc: Global, run: &Run, disks: Disks) -> Option<Outcome> {
    match words_of(alloc, run.line) {
        Some(words) => with_words(alloc, run, &words, disks),
        None => None,
    }
}

fn with_words(alloc: Global, run: &Run, words: &[String], disks: Disks) -> Option<Outcome> {
    match run.input.as_bytes().to_vec(alloc) {
        Ok(bytes) => {
            let mut source = MemSource::new(bytes, 4096, Vec::new(alloc));
            with_source(alloc, run, words, disks, &mut source)
        }
        Err(_) => None,
    }
}

fn with_source(
    alloc: Global,
    run: &Run,
    words: &[String],
    disks: Disks,
    source: &mut MemSource,
) -> Option<Outcome> {
    match MemSink::new(alloc, 65536, Vec::new(alloc)) {
        Ok(mut sink) => Some(with_streams(alloc, run, words, disks, source, &mut sink)),
        Err(_) => None,
    }
}

fn with_streams(
    alloc: Global,
    run: &Run,
    words: &[String],
    disks: Disks,
    source: &mut MemSource,
    sink: &mut MemSink,
) -> Outcome {
    let blank = Blank::new(1);
    let (status, alone, left, right) = with_steps::<_, _, _, _, Brand>(
        alloc,
        words,
        disks.left,
        disks.right,
        source,
        sink,
        blank,
    );
    Outcome {
        is_expected: is_outcome(&run.expected, status, alone, sink.bytes()),
        disks: Disks { left, right },
    }
}

fn is_outcome(expected: &Expected, status: Status, alone: Option<Side>, printed: &[u8]) -> bool {
    status == expected.status && alone == expected.alone && printed == expected.printed.as_bytes()
}

/// The top call, with a counter of steps of its own.
fn with_steps<D: Disk, E: Disk, S: Source, K: Sink, L: Ledger>(
    alloc: Global,
    words: &[String],
    left: D,
    right: E,
    source: &mut S,
    sink: &mut K,
    blank: Blank,
) -> (Status, Option<Side>, D, E)
    requires name { blank.name ≡ L.name }
    requires parts { blank.parts ≡ L.parts }
    requires has_parts { 0 < blank.parts }
{
    let mut steps = Steps::<L>::new(blank);
    top_mirror(alloc, words, left, right, source, sink, &mut steps)
}

/// The words of a command line. None if out of memory.
fn words_of(alloc: Global, line: &[&str]) -> Option<Vec<String>> {
    let mut words = Vec::new(alloc);
    if push_words(alloc, line, &mut words) {
        Some(words)
    } else {
        None
    }
}

fn push_words(alloc: Global, line: &[&str], words: &mut Vec<String>) -> bool {
    for word in line {
        if !push_word(alloc, word, words) {
            return false;
        }
    }
    true
}

fn push_word(alloc: Global, word: &str, words: &mut Vec<String>) -> bool {
    match String::from_str(alloc, word) {
        Ok(word) => words.push(word).is_ok(),
        Err(_) => false,
    }
}
