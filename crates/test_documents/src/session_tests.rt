// The program's call, on sources and sinks in memory.
use mg_document_session::{Faulty, top};
use mg_io::{MemSink, MemSource};
use std::alloc::Global;
use std::process::Abort;

fn words_of(rt: &impl Abort, alloc: Global, words: &[&str]) -> Vec<String> {
    let mut owned = Vec::new(alloc);
    for word in words {
        let word = String::from_str(alloc, word).expect(rt, "memory");
        owned.push(word).expect(rt, "memory");
    }
    owned
}

/// An input that comes in pieces of 3 bytes. Takes with these numbers fail.
fn source(rt: &impl Abort, alloc: Global, input: &[u8], takes: &[u64]) -> MemSource {
    let input = input.to_vec(alloc).expect(rt, "memory");
    MemSource::new(input, 3, takes.to_vec(alloc).expect(rt, "memory"))
}

/// A sink whose `put` calls with these numbers fail.
fn sink(rt: &impl Abort, alloc: Global, puts: &[u64]) -> MemSink {
    let puts = puts.to_vec(alloc).expect(rt, "memory");
    MemSink::new(alloc, 256, puts).expect(rt, "memory")
}

/// Whether a run hands out its input exactly at a fault, and with it the number in the line that `err` took.
fn is_kept(faulty: &Option<Faulty>, input: &[u8], line: &str) -> bool {
    match faulty {
        Some(faulty) => {
            faulty.replies.as_slice() == input
                && line.as_bytes().get(6).copied() == Some(b'0' + (faulty.reply % 10) as u8)
        }
        None => line.is_empty() || line == "usage\n",
    }
}

/// What a run ends with: its status, and what the two sinks take.
type Ending = (u8, &'static str, &'static str);

fn is_end(
    alloc: Global,
    words: &[String],
    source: &mut MemSource,
    out: &mut MemSink,
    err: &mut MemSink,
    faulty: &mut Option<Faulty>,
    ending: Ending,
) -> bool {
    let status = top(alloc, words, source, out, err, faulty);
    status.code() == ending.0
        && out.bytes() == ending.1.as_bytes()
        && err.bytes() == ending.2.as_bytes()
}

/// A run of these words on this input ends so, if the `take` calls of the source and the `put` calls of both sinks with these numbers fail.
fn ends(
    rt: &impl Abort,
    alloc: Global,
    words: &[&str],
    input: &str,
    (takes, puts): (&[u64], &[u64]),
    ending: Ending,
) {
    let words = words_of(rt, alloc, words);
    let mut source = source(rt, alloc, input.as_bytes(), takes);
    let (mut out, mut err) = (sink(rt, alloc, puts), sink(rt, alloc, puts));
    let mut faulty = None;
    assert!(rt;
        is_end(
            alloc,
            &words,
            &mut source,
            &mut out,
            &mut err,
            &mut faulty,
            ending
        )
    );
    assert!(rt; is_kept(&faulty, input.as_bytes(), ending.2));
}

const PUT: &[&str] = &["put", "7", "4096"];

const GET: &[&str] = &["get", "7", "4096", "3"];

const BYTES: &[&str] = &["bytes"];

// The numbers of the calls that fail, of the source and of the sinks.
const NONE: (&[u64], &[u64]) = (&[], &[]);

const TAKE: (&[u64], &[u64]) = (&[1], &[]);

const FIRST_PUT: (&[u64], &[u64]) = (&[], &[0]);

#[test]
fn each_status_comes(rt: HostRuntime) {
    let alloc = rt.alloc();
    let stores =
        "7 store 0x0000000000001000 0x0000000000000003\n7 store 0x0000000000001008 0x0000000000434241\n";
    let loads = "7 load 0x0000000000001000\n7 load 0x0000000000001008\n";
    let replies = "ok 0x3\nok 0x434241\n";
    ends(&rt, alloc, PUT, "ABC", NONE, (0, stores, ""));
    ends(&rt, alloc, GET, "ABC", TAKE, (0, loads, ""));
    ends(&rt, alloc, BYTES, replies, NONE, (0, "ABC", ""));
    let known = (1, "", "reply 2: NoWord\n");
    ends(&rt, alloc, BYTES, "ok 0x3\nno Denied\n", NONE, known);
    let known = (1, "", "usage\n");
    ends(&rt, alloc, &["put", "7", "4097"], "ABC", NONE, known);
    ends(
        &rt,
        alloc,
        &["get", "7", "4096", "4194297"],
        "",
        NONE,
        known,
    );
    ends(&rt, alloc, &["byte"], replies, NONE, known);
    ends(&rt, alloc, PUT, "ABCD", TAKE, (5, "", ""));
    ends(&rt, alloc, GET, "", FIRST_PUT, (6, "", ""));
    ends(&rt, alloc, BYTES, "", FIRST_PUT, (6, "", ""));
}
