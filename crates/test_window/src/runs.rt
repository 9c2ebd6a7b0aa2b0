// Runs with device windows on a disk in memory, from their words to their outcome.
ghost use Rattle.std.specs.Prelude.{◌≡◌, ◌<◌};

use mg_disk::{Disk, MemDisk};
use mg_io::{MemSink, MemSource, Sink, Source};
use mg_layout::format as make_volume;
use mg_model::{Params, Steps, Tariff};
use mg_session::{Status, run as run_plain};
use mg_window::{Console, Counter, Device, Latch, Windows};
use mg_window_session::{Asked, read_words, top_dev};
use std::alloc::{AllocError, Global};
use std::marker::Brand;
use std::sync::ledger::{Blank, Ledger};

/// The number of blocks of the disk: those of a volume of 64 frames.
const BLOCKS: u64 = 2660;

/// The number of calls for which the disk has room.
const ROOM: u64 = 12_000;

/// A run with device windows.
#[derive(Clone, Copy)]
pub struct Run {
    /// The words of the run.
    pub line: &'static [&'static str],
    /// Words that name the devices that the run is given. None for the words of the run. Words that spell no run name no device.
    pub devices: Option<&'static [&'static str]>,
    /// The number of stores for which each device has room.
    pub room: usize,
    /// The lines of the run: these texts one after the other.
    pub input: &'static [&'static str],
    pub status: Status,
    /// What the run prints: these texts one after the other.
    pub printed: &'static [&'static str],
    /// The number of devices that are left.
    pub left: usize,
    /// The first of the devices that are left.
    pub tapes: &'static [Left],
}

/// A device that is left: its base, its kind, the number of stores on its tape, and the value of a load at one place.
#[derive(Clone, Copy)]
pub struct Left {
    pub base: u64,
    pub kind: u64,
    pub length: u64,
    pub off: u64,
    pub value: u64,
}

/// A run of these lines on the volume without devices, with batches of 1, and what it prints.
#[derive(Clone, Copy)]
pub struct Alone {
    pub input: &'static str,
    pub printed: &'static str,
}

/// The number of these runs, from the first on, that have their outcome. They follow each other on a fresh volume of 64 frames.
pub fn count_expected(alloc: Global, runs: &[Run]) -> usize {
    match fresh(alloc) {
        Some(mut disk) => count_on(alloc, &mut disk, runs),
        None => 0,
    }
}

/// The number of these lines of words, from the first on, with which the run has its outcome, one after the other on a fresh volume.
pub fn count_words_expected(alloc: Global, run: &Run, lines: &[&'static [&'static str]]) -> usize {
    match fresh(alloc) {
        Some(mut disk) => count_words_on(alloc, &mut disk, run, lines),
        None => 0,
    }
}

fn count_words_on(
    alloc: Global,
    disk: &mut MemDisk,
    run: &Run,
    lines: &[&'static [&'static str]],
) -> usize {
    let mut passed: usize = 0;
    for line in lines {
        if !is_expected(alloc, &Run { line, ..*run }, disk) {
            break;
        }
        passed = passed.saturating_add(1);
    }
    passed
}

/// Whether this run on a fresh volume has its outcome, and then the one without devices.
pub fn are_expected(alloc: Global, run: &Run, alone: &Alone) -> bool {
    match fresh(alloc) {
        Some(mut disk) => {
            is_expected(alloc, run, &mut disk) && is_expected_alone(alloc, alone, &mut disk)
        }
        None => false,
    }
}

fn count_on(alloc: Global, disk: &mut MemDisk, runs: &[Run]) -> usize {
    let mut passed: usize = 0;
    for run in runs {
        if !is_expected(alloc, run, disk) {
            break;
        }
        passed = passed.saturating_add(1);
    }
    passed
}

/// A disk with a fresh volume of 64 frames, with the seed of zeros and 1000 credits.
fn fresh(alloc: Global) -> Option<MemDisk> {
    match MemDisk::new(alloc, BLOCKS, ROOM, Vec::new(alloc)) {
        Ok(mut disk) => {
            make(&mut disk);
            Some(disk)
        }
        Err(_) => None,
    }
}

fn make(disk: &mut MemDisk) {
    if let Some(params) = Params::new(64, [0; 32], 1000, Tariff::usual(64)) {
        let _ = make_volume(disk, &params);
    }
}

/// Whether a run has its outcome.
fn is_expected(alloc: Global, run: &Run, disk: &mut MemDisk) -> bool {
    match source_of(alloc, run.input) {
        Some(mut source) => is_expected_of(alloc, run, disk, &mut source),
        None => false,
    }
}

fn is_expected_of(alloc: Global, run: &Run, disk: &mut MemDisk, source: &mut MemSource) -> bool {
    match MemSink::new(alloc, 65536, Vec::new(alloc)) {
        Ok(mut sink) => is_expected_in(alloc, run, disk, source, &mut sink),
        Err(_) => false,
    }
}

fn is_expected_in(
    alloc: Global,
    run: &Run,
    disk: &mut MemDisk,
    source: &mut MemSource,
    sink: &mut MemSink,
) -> bool {
    match words_of(alloc, run.line) {
        Some(words) => is_expected_by(alloc, run, &words, disk, source, sink),
        None => false,
    }
}

fn is_expected_by(
    alloc: Global,
    run: &Run,
    words: &[String],
    disk: &mut MemDisk,
    source: &mut MemSource,
    sink: &mut MemSink,
) -> bool {
    match devices_of(alloc, run) {
        Some(asked) => is_expected_with(alloc, run, words, asked.as_slice(), disk, source, sink),
        None => false,
    }
}

/// The devices that a run is given. None if out of memory.
fn devices_of(alloc: Global, run: &Run) -> Option<Asked> {
    match words_of(alloc, run.devices.unwrap_or(run.line)) {
        Some(words) => match read_words(&words) {
            Some(asked) => Some(asked),
            None => Some(Asked::new()),
        },
        None => None,
    }
}

/// The boxes are made here, since no function can make them and return them.
fn is_expected_with(
    alloc: Global,
    run: &Run,
    words: &[String],
    asked: &[(u64, u64)],
    disk: &mut MemDisk,
    source: &mut MemSource,
    sink: &mut MemSink,
) -> bool {
    let mut windows = match Windows::new(alloc) {
        Ok(windows) => windows,
        Err(_) => return false,
    };
    for (kind, base) in asked {
        let device: Box<dyn Device> = match *kind {
            1 => match boxed(alloc, Latch::new(alloc, run.room)) {
                Ok(latch) => latch,
                Err(_) => return false,
            },
            2 => match boxed(alloc, Console::new(alloc, run.room)) {
                Ok(console) => console,
                Err(_) => return false,
            },
            _ => match boxed(alloc, Counter::new(alloc, run.room)) {
                Ok(counter) => counter,
                Err(_) => return false,
            },
        };
        let _ = windows.attach(*base, device);
    }
    let status = with_windows(alloc, words, disk, source, sink, &mut windows);
    status == run.status
        && are_all(run.printed, sink.bytes())
        && are_left(run, windows.into_list().as_slice())
}

/// A device in a box.
fn boxed<D: Drop>(alloc: Global, made: Result<D, AllocError>) -> Result<Box<D>, AllocError> {
    Ok(Box::new(alloc, made?)?)
}

fn with_windows(
    alloc: Global,
    words: &[String],
    disk: &mut MemDisk,
    source: &mut MemSource,
    sink: &mut MemSink,
    windows: &mut Windows,
) -> Status {
    let blank = Blank::new(1);
    with_steps::<_, _, _, Brand>(alloc, words, disk, source, sink, windows, blank)
}

/// Whether the run's number of devices is left, and the first of them are as it says.
fn are_left(run: &Run, list: &[(u64, Box<dyn Device>)]) -> bool {
    if list.len() != run.left {
        return false;
    }
    for (left, (base, device)) in run.tapes.iter().zip(list) {
        if !is_left(left, *base, device) {
            return false;
        }
    }
    run.tapes.len() <= list.len()
}

fn is_left<D: Device>(left: &Left, base: u64, device: &D) -> bool {
    base == left.base
        && device.kind() == left.kind
        && device.length() == left.length
        && device.load(left.off) == left.value
}

/// Whether these bytes are these texts one after the other.
fn are_all(texts: &[&str], printed: &[u8]) -> bool {
    let mut rest = printed;
    for text in texts {
        match rest.strip_prefix(text.as_bytes()) {
            Some(after) => rest = after,
            None => return false,
        }
    }
    rest.is_empty()
}

/// Whether a run without devices has its outcome.
fn is_expected_alone(alloc: Global, alone: &Alone, disk: &mut MemDisk) -> bool {
    match source_of(alloc, &[alone.input]) {
        Some(mut source) => is_alone_of(alloc, alone, disk, &mut source),
        None => false,
    }
}

fn is_alone_of(alloc: Global, alone: &Alone, disk: &mut MemDisk, source: &mut MemSource) -> bool {
    match MemSink::new(alloc, 65536, Vec::new(alloc)) {
        Ok(mut sink) => is_alone_in(alloc, alone, disk, source, &mut sink),
        Err(_) => false,
    }
}

fn is_alone_in(
    alloc: Global,
    alone: &Alone,
    disk: &mut MemDisk,
    source: &mut MemSource,
    sink: &mut MemSink,
) -> bool {
    let blank = Blank::new(1);
    let status = plain::<_, _, _, Brand>(alloc, disk, source, sink, blank);
    status == Status::Done && sink.bytes() == alone.printed.as_bytes()
}

/// A source of these texts one after the other. None if out of memory.
fn source_of(alloc: Global, texts: &[&str]) -> Option<MemSource> {
    let mut bytes = Vec::new(alloc);
    if append_texts(&mut bytes, texts) {
        Some(MemSource::new(bytes, 4096, Vec::new(alloc)))
    } else {
        None
    }
}

fn append_texts(bytes: &mut Vec<u8>, texts: &[&str]) -> bool {
    for text in texts {
        if bytes.extend_from_slice(text.as_bytes()).is_err() {
            return false;
        }
    }
    true
}

/// The top call, with a counter of steps of its own.
fn with_steps<D: Disk, S: Source, K: Sink, L: Ledger>(
    alloc: Global,
    words: &[String],
    disk: &mut D,
    source: &mut S,
    sink: &mut K,
    windows: &mut Windows,
    blank: Blank,
) -> Status
    requires name { blank.name ≡ L.name }
    requires parts { blank.parts ≡ L.parts }
    requires has_parts { 0 < blank.parts }
{
    let mut steps = Steps::<L>::new(blank);
    top_dev(alloc, words, disk, source, sink, windows, &mut steps)
}

/// A run without devices, with a counter of steps of its own.
fn plain<D: Disk, S: Source, K: Sink, L: Ledger>(
    alloc: Global,
    disk: &mut D,
    source: &mut S,
    sink: &mut K,
    blank: Blank,
) -> Status
    requires name { blank.name ≡ L.name }
    requires parts { blank.parts ≡ L.parts }
    requires has_parts { 0 < blank.parts }
{
    let mut steps = Steps::<L>::new(blank);
    run_plain(alloc, 1, disk, source, sink, &mut steps)
}

/// The words of a command line. None if out of memory.
fn words_of(alloc: Global, line: &[&str]) -> Option<Vec<String>> {
    let mut words = Vec::new(alloc);
    if push_words(alloc, line, &mut words) {
        Some(words)
    } else {
        None
    }
}

fn push_words(alloc: Global, line: &[&str], words: &mut Vec<String>) -> bool {
    for word in line {
        if !push_word(alloc, word, words) {
            return false;
        }
    }
    true
}

fn push_word(alloc: Global, word: &str, words: &mut Vec<String>) -> bool {
    match String::from_str(alloc, word) {
        Ok(word) => words.push(word).is_ok(),
        Err(_) => false,
    }
}
