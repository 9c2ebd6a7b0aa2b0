// The outcomes of commands.
use mg_disk::Disk;
use mg_io::MemSink;
use mg_migrate_session::top_migrate;
use std::alloc::Global;
use std::process::Abort;
use test_helpers::{Outcome, Streams, command, words_of};

/// The status of a command, and what it prints.
pub type Expected = (u8, &'static str);

fn words(rt: &impl Abort, alloc: Global, line: &str) -> Vec<String> {
    words_of(alloc, line).expect(rt, "memory")
}

fn sink(rt: &impl Abort, alloc: Global) -> MemSink {
    MemSink::new(alloc, 256, Vec::new(alloc)).expect(rt, "memory")
}

fn ends_with<D: Disk, E: Disk>(
    alloc: Global,
    words: &[String],
    new: &mut D,
    old: &mut E,
    sink: &mut MemSink,
    expected: (u8, &str),
) -> bool {
    let status = top_migrate(alloc, words, new, old, sink);
    status.code() == expected.0 && sink.bytes() == expected.1.as_bytes()
}

/// Whether the migration that this line spells has this outcome.
pub fn line_ends<D: Disk, E: Disk>(
    rt: &impl Abort,
    alloc: Global,
    line: &str,
    new: &mut D,
    old: &mut E,
    expected: (u8, &str),
) -> bool {
    ends_with(
        alloc,
        &words(rt, alloc, line),
        new,
        old,
        &mut sink(rt, alloc),
        expected,
    )
}

/// Whether a migration has this outcome.
pub fn migrates<D: Disk, E: Disk>(
    rt: &impl Abort,
    alloc: Global,
    new: &mut D,
    old: &mut E,
    expected: (u8, &str),
) -> bool {
    line_ends(rt, alloc, "new migrate old", new, old, expected)
}

/// The outcome of another command.
pub fn outcome<D: Disk>(
    rt: &impl Abort,
    alloc: Global,
    line: &str,
    disk: &mut D,
    input: &str,
) -> Outcome {
    command(alloc, line, disk, &Streams::of(input.as_bytes())).expect(rt, "memory")
}

/// Whether an outcome has this status and this text.
pub fn is_outcome(outcome: &Outcome, code: u8, text: &str) -> bool {
    outcome.status.code() == code && outcome.printed.as_slice() == text.as_bytes()
}

/// Whether a check of a disk has this outcome.
pub fn checks<D: Disk>(rt: &impl Abort, alloc: Global, disk: &mut D, expected: (u8, &str)) -> bool {
    is_outcome(
        &outcome(rt, alloc, "new check", disk, ""),
        expected.0,
        expected.1,
    )
}
