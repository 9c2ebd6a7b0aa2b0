//! The program: it hands the words of its command line, the files that they name, standard input and standard output to
//! [`program::carry_out`], and exits with its result.
//!
//! That function is the program over any disks, source and sink. It calls [`mg_session::top_migrate`] if the words are `VOLUME
//! migrate OLD`, and otherwise [`mg_session::top`]. It ensures what these two ensure for the words. It also ensures that the exit
//! status is the number of their status, and that nothing is written on a disk, taken or put after them. Here the real objects are
//! made. The file of `check` and the file OLD are only read, and are not made if they are missing. Standard error says why a command
//! failed.
//!
//! A reply is written as soon as its batch closes. Under `run` with no BATCH or with BATCH 1 each reply is written before more input is
//! read. With a larger BATCH up to 63 replies may wait for more input, or for its end.
#![tactic(auto)]

ghost use Rattle.std.specs.Prelude.{◌≡◌, ◌<◌};

mod program;

use mg_console::{MUNGI, NO_WORDS, Stream, begin, volume_of, word};
use mg_file::FileDisk;
use mg_io::{ReaderSource, Sink, Source, WriterSink};
use mg_model::Steps;
use mg_session::is_migrate;
use program::carry_out;
use std::io::IsTerminal;
use std::marker::Brand;
use std::process::ExitCode;
use std::sync::ledger::{Blank, Ledger};

fn main(rt: HostRuntime) -> ExitCode {
    match begin(&rt, MUNGI) {
        Some((words, _numbers)) => ExitCode::from(on_streams::<Brand>(&rt, &words, Blank::new(1))),
        None => ExitCode::from(NO_WORDS),
    }
}

/// Carries out the command on the standard streams, with a counter of steps of its own.
fn on_streams<L: Ledger>(rt: &HostRuntime, words: &[String], blank: Blank) -> u8
    requires name { blank.name ≡ L.name }
    requires parts { blank.parts ≡ L.parts }
    requires has_parts { 0 < blank.parts }
{
    let mut source = ReaderSource::new(rt.stdin());
    let mut sink = WriterSink::new(rt.stdout());
    let mut steps = Steps::<L>::new(blank);
    on_files(rt, words, &mut source, &mut sink, &mut steps)
}

/// Carries out the command on the files of the first and the third word.
fn on_files<S: Source + Stream, K: Sink + Stream, L: Ledger>(
    rt: &HostRuntime,
    words: &[String],
    source: &mut S,
    sink: &mut K,
    steps: &mut Steps<L>,
) -> u8 {
    let mut disk = volume_of(rt, words, is_migrate(words), rt.stderr().is_terminal());
    let mut old = FileDisk::reader(rt, word(words, 2));
    carry_out(rt, words, &mut disk, &mut old, source, sink, steps)
}
