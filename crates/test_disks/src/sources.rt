// Sources, each once at a concrete type, and the answers of the one in memory as a table.
ghost use Rattle.std.specs.Prelude.{◌<◌};

use crate::made::owned;
use mg_io::{MemSource, ReaderSource, Source};
use std::alloc::Global;
use std::io;
use std::io::{Cursor, ErrorKind, Read};
use std::process::Abort;

/// How many bytes come in a take of up to four; 9 is a fault.
fn taken<S: Source>(source: &mut S) -> usize {
    let mut into = [0; 4];
    source.take(&mut into).unwrap_or(9)
}

/// The same of three takes.
fn three_taken<S: Source>(source: &mut S) -> [usize; 3] {
    [taken(source), taken(source), taken(source)]
}

/// The same of six takes.
fn six_taken<S: Source>(source: &mut S) -> ([usize; 3], [usize; 3]) {
    (three_taken(source), three_taken(source))
}

/// Six bytes come in pieces of this length, if these takes fail: each take gives this number of bytes.
fn gives(
    rt: &impl Abort,
    alloc: Global,
    piece: usize,
    fails: &[u64],
    first: [usize; 3],
    then: [usize; 3],
)
    requires { 0 < piece }
{
    let (bytes, fails) = (owned(rt, alloc, b"abcdef"), owned(rt, alloc, fails));
    let mut source = MemSource::new(bytes, piece, fails);
    assert!(rt; six_taken(&mut source) == (first, then));
}

#[test]
fn a_source_gives_pieces(rt: HostRuntime) {
    let alloc = rt.alloc();
    gives(&rt, alloc, 1, &[], [1, 1, 1], [1, 1, 1]);
    gives(&rt, alloc, 4, &[], [4, 2, 0], [0, 0, 0]);
    gives(&rt, alloc, 9, &[], [4, 2, 0], [0, 0, 0]);
    gives(&rt, alloc, usize::MAX, &[], [4, 2, 0], [0, 0, 0]);
    gives(&rt, alloc, 4, &[0, 2, 3], [9, 4, 9], [9, 2, 0]);
}

/// Whether a take gives `count` bytes, and the buffer then holds these three.
fn takes<S: Source>(source: &mut S, into: &mut [u8; 3], count: usize, bytes: [u8; 3]) -> bool {
    source.take(into).unwrap_or(9) == count && *into == bytes
}

fn is_read_to_its_end<S: Source>(source: &mut S) -> bool {
    let mut into = [0; 3];
    takes(source, &mut into, 3, *b"abc")
        && takes(source, &mut into, 2, *b"dec")
        && takes(source, &mut into, 0, *b"dec")
}

#[test]
fn a_reader_in_memory_is_read_to_its_end(rt: HostRuntime) {
    let bytes = owned(&rt, rt.alloc(), b"abcde");
    assert!(rt; is_read_to_its_end(&mut ReaderSource::new(Cursor::new(bytes))));
}

// Gives an `x` at each read but the second, which fails.
#[derive(Drop)]
struct Faulty {
    reads: u8,
}

impl Read for Faulty {
    fn read(&mut self, buf: &mut [u8]) -> io::Result<usize> {
        self.reads = self.reads.saturating_add(1);
        if self.reads == 2 {
            return Err(ErrorKind::TimedOut.into());
        }
        if buf.is_empty() {
            return Ok(0);
        }
        buf[0] = b'x';
        Ok(1)
    }
}

#[test]
fn a_failed_read_is_a_fault_and_no_end(rt: HostRuntime) {
    let mut source = ReaderSource::new(Faulty { reads: 0 });
    assert!(rt; three_taken(&mut source) == [1, 9, 1]);
}
