// Runs a command from its words to its status.
ghost use Rattle.std.specs.Prelude.{◌≡◌, ◌<◌};

use mg_disk::Disk;
use mg_io::{MemSink, MemSource, Sink, Source};
use mg_model::Steps;
use mg_session::{Status, top};
use std::alloc::{AllocError, Global};
use std::marker::Brand;
use std::sync::ledger::{Blank, Ledger};

/// The input of a command, and how its source and its sink behave.
#[derive(Clone, Copy)]
pub struct Streams<'a> {
    /// The bytes of the source.
    pub input: &'a [u8],
    /// The most bytes that a take gives. 0 is read as 1.
    pub piece: usize,
    /// The numbers of the takes that fail, from 0.
    pub takes: &'a [u64],
    /// The numbers of the puts that fail, from 0.
    pub puts: &'a [u64],
    /// The number of bytes that the sink has room for.
    pub room: usize,
}

impl<'a> Streams<'a> {
    /// This input in pieces of 4096 bytes, and a sink for 65,536. No call fails.
    pub fn of(input: &'a [u8]) -> Streams<'a> {
        Streams {
            input,
            piece: 4096,
            takes: &[],
            puts: &[],
            room: 65536,
        }
    }
}

/// The end of a command.
#[derive(Drop)]
pub struct Outcome {
    pub status: Status,
    /// What the command printed: the bytes that the sink took.
    pub printed: Vec<u8>,
}

/// The words of a command line, which blanks separate.
pub fn words_of(alloc: Global, line: &str) -> Result<Vec<String>, AllocError> {
    let mut words = Vec::new(alloc);
    for word in line.split(' ').filter(|word| !word.is_empty()) {
        words.push(String::from_str(alloc, word)?)?;
    }
    Ok(words)
}

/// Runs the command that the words of this line spell, on this disk.
pub fn command<D: Disk>(
    alloc: Global,
    line: &str,
    disk: &mut D,
    streams: &Streams<'_>,
) -> Result<Outcome, AllocError> {
    match words_of(alloc, line) {
        Ok(words) => spelled(alloc, &words, disk, streams),
        Err(e) => Err(e),
    }
}

/// The same for words.
fn spelled<D: Disk>(
    alloc: Global,
    words: &[String],
    disk: &mut D,
    streams: &Streams<'_>,
) -> Result<Outcome, AllocError> {
    match source_of(alloc, streams) {
        Ok(mut source) => taken(alloc, words, disk, &mut source, streams),
        Err(e) => Err(e),
    }
}

fn source_of(alloc: Global, streams: &Streams<'_>) -> Result<MemSource, AllocError> {
    let takes = streams.takes.to_vec(alloc)?;
    match streams.input.to_vec(alloc) {
        Ok(bytes) => Ok(MemSource::new(bytes, streams.piece.max(1), takes)),
        Err(e) => Err(e),
    }
}

/// The same with this source.
fn taken<D: Disk, S: Source>(
    alloc: Global,
    words: &[String],
    disk: &mut D,
    source: &mut S,
    streams: &Streams<'_>,
) -> Result<Outcome, AllocError> {
    match sink_of(alloc, streams) {
        Ok(mut sink) => put(alloc, words, disk, source, &mut sink),
        Err(e) => Err(e),
    }
}

fn sink_of(alloc: Global, streams: &Streams<'_>) -> Result<MemSink, AllocError> {
    match streams.puts.to_vec(alloc) {
        Ok(puts) => MemSink::new(alloc, streams.room, puts),
        Err(e) => Err(e),
    }
}

/// The same with this sink too.
fn put<D: Disk, S: Source>(
    alloc: Global,
    words: &[String],
    disk: &mut D,
    source: &mut S,
    sink: &mut MemSink,
) -> Result<Outcome, AllocError> {
    let blank = Blank::new(1);
    let status = with_steps::<_, _, _, Brand>(alloc, words, disk, source, sink, blank);
    match sink.bytes().to_vec(alloc) {
        Ok(printed) => Ok(Outcome { status, printed }),
        Err(e) => Err(e),
    }
}

/// The top call, with a counter of steps of its own.
fn with_steps<D: Disk, S: Source, K: Sink, L: Ledger>(
    alloc: Global,
    words: &[String],
    disk: &mut D,
    source: &mut S,
    sink: &mut K,
    blank: Blank,
) -> Status
    requires name { blank.name ≡ L.name }
    requires parts { blank.parts ≡ L.parts }
    requires has_parts { 0 < blank.parts }
{
    let mut steps = Steps::<L>::new(blank);
    top(alloc, words, disk, source, sink, &mut steps)
}
