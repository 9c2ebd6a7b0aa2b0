// Sinks, each once at a concrete type, and the answers of the one in memory as tables.
use crate::made::owned;
use mg_io::{MemSink, Sink, WriterSink, put_all};
use std::alloc::Global;
use std::io;
use std::io::Write;
use std::process::Abort;

fn sink(rt: &impl Abort, alloc: Global, room: usize, fails: &[u64]) -> MemSink {
    let fails = owned(rt, alloc, fails);
    MemSink::new(alloc, room, fails).expect(rt, "memory")
}

/// How many bytes of a text are taken; 9 is a fault.
fn put<K: Sink>(sink: &mut K, text: &str) -> usize {
    sink.put(text.as_bytes()).unwrap_or(9)
}

/// Whether these numbers of bytes of four texts are taken, and the sink then has these bytes.
fn four_put(sink: &mut MemSink, texts: &[&str; 4], counts: &[usize; 4], bytes: &str) -> bool {
    put(sink, texts[0]) == counts[0]
        && put(sink, texts[1]) == counts[1]
        && put(sink, texts[2]) == counts[2]
        && put(sink, texts[3]) == counts[3]
        && sink.bytes() == bytes.as_bytes()
}

/// The same for a sink with this room whose `put` calls with these numbers fail.
fn takes(
    rt: &impl Abort,
    (alloc, room, fails): (Global, usize, &[u64]),
    texts: &[&str; 4],
    counts: &[usize; 4],
    bytes: &str,
) {
    assert!(rt; four_put(&mut sink(rt, alloc, room, fails), texts, counts, bytes));
}

#[test]
fn a_sink_takes_up_to_its_room(rt: HostRuntime) {
    let alloc = rt.alloc();
    let texts = ["", "ab", "cd", ""];
    takes(&rt, (alloc, 0, &[]), &texts, &[0, 9, 9, 0], "");
    takes(&rt, (alloc, 1, &[]), &texts, &[0, 1, 9, 0], "a");
    takes(&rt, (alloc, 3, &[]), &texts, &[0, 2, 1, 0], "abc");
    takes(&rt, (alloc, 9, &[]), &texts, &[0, 2, 2, 0], "abcd");
    takes(&rt, (alloc, 9, &[0, 2]), &["ab"; 4], &[9, 2, 9, 2], "abab");
}

/// Whether a text goes whole or not, as this says, and the sink then has these bytes.
fn whole(sink: &mut MemSink, is_whole: bool, bytes: &str) -> bool {
    put_all(sink, b"abcdef").is_ok() == is_whole && sink.bytes() == bytes.as_bytes()
}

/// The same for a sink with this room whose `put` call with this number fails.
fn goes(rt: &impl Abort, alloc: Global, room: usize, failing: u64, is_whole: bool, bytes: &str) {
    assert!(rt; whole(&mut sink(rt, alloc, room, &[failing]), is_whole, bytes));
}

#[test]
fn a_whole_text_or_a_prefix(rt: HostRuntime) {
    let alloc = rt.alloc();
    goes(&rt, alloc, 6, 9, true, "abcdef");
    goes(&rt, alloc, 4, 9, false, "abcd");
    goes(&rt, alloc, 6, 0, false, "");
    goes(&rt, alloc, 6, 1, true, "abcdef");
}

/// Whether a text goes whole into a writer, and both bytes of another one.
fn goes_twice(to: &mut Vec<u8>) -> bool {
    let mut sink = WriterSink::new(to);
    put_all(&mut sink, b"abc").is_ok() && put(&mut sink, "de") == 2
}

#[test]
fn a_writer_in_memory_gets_all(rt: HostRuntime) {
    let mut bytes = Vec::new(rt.alloc());
    assert!(rt; goes_twice(&mut bytes) && bytes.as_slice() == b"abcde".as_slice());
}

// Takes one byte a write, and nothing once it is full.
#[derive(Drop)]
struct Narrow<'a> {
    to: &'a mut Vec<u8>,
    room: usize,
}

impl Write for Narrow<'_> {
    fn write(&mut self, buf: &[u8]) -> io::Result<usize> {
        if buf.is_empty() || self.to.len() >= self.room {
            return Ok(0);
        }
        self.to.push(buf[0])?;
        Ok(1)
    }

    fn flush(&mut self) -> io::Result<()> {
        Ok(())
    }
}

/// Whether three bytes go, and then none of none, not all of three more, and a byte neither.
fn goes_until_full(to: &mut Vec<u8>) -> bool {
    let mut sink = WriterSink::new(Narrow { to, room: 4 });
    put_all(&mut sink, b"abc").is_ok()
        && put(&mut sink, "") == 0
        && put_all(&mut sink, b"def").is_err()
        && put(&mut sink, "f") == 9
}

#[test]
fn a_writer_that_takes_nothing_is_a_fault(rt: HostRuntime) {
    let mut bytes = Vec::new(rt.alloc());
    assert!(rt; goes_until_full(&mut bytes) && bytes.as_slice() == b"abcd".as_slice());
}
