// What is printed of a disk.
use mg_disk::{Disk, MemDisk};
use mg_io::MemSink;
use mg_show::top_show;
use std::alloc::Global;
use std::process::Abort;
use test_helpers::{MAKING, Streams, command, volume, words_of};

/// The status of a command, and what it printed.
pub type Told<'a> = (u8, &'a str);

fn words(rt: &impl Abort, alloc: Global, line: &str) -> Vec<String> {
    words_of(alloc, line).expect(rt, "memory")
}

// A sink of 65,536 bytes of which the `put` calls with these numbers fail.
fn sink(rt: &impl Abort, alloc: Global, fails: &[u64]) -> MemSink {
    let fails = fails.to_vec(alloc).expect(rt, "memory");
    MemSink::new(alloc, 65536, fails).expect(rt, "memory")
}

fn puts<D: Disk>(
    alloc: Global,
    words: &[String],
    disk: &mut D,
    sink: &mut MemSink,
    told: Told<'_>,
) -> bool {
    let status = top_show(alloc, words, disk, sink);
    status.code() == told.0 && sink.bytes() == told.1.as_bytes()
}

/// Whether this is printed if the `put` calls with these numbers fail.
pub fn tells_through<D: Disk>(
    rt: &impl Abort,
    alloc: Global,
    line: &str,
    disk: &mut D,
    fails: &[u64],
    told: Told<'_>,
) -> bool {
    puts(
        alloc,
        &words(rt, alloc, line),
        disk,
        &mut sink(rt, alloc, fails),
        told,
    )
}

/// Whether this is printed.
pub fn tells<D: Disk>(
    rt: &impl Abort,
    alloc: Global,
    line: &str,
    disk: &mut D,
    told: Told<'_>,
) -> bool {
    tells_through(rt, alloc, line, disk, &[], told)
}

/// A fresh volume of 64 frames on which these lines ran.
pub fn made(rt: &impl Abort, alloc: Global, lines: &str) -> MemDisk {
    let mut disk = volume(alloc, MAKING).expect(rt, "memory");
    let _ = command(alloc, "vol run", &mut disk, &Streams::of(lines.as_bytes()));
    disk
}

/// A disk of `blocks` blocks of zeros, whose calls of these numbers fail.
pub fn zeros(rt: &impl Abort, alloc: Global, blocks: u64, fails: &[u64]) -> MemDisk {
    let fails = fails.to_vec(alloc).expect(rt, "memory");
    MemDisk::new(alloc, blocks, 10_000, fails).expect(rt, "memory")
}
