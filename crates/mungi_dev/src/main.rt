//! The program: it hands the words of its command line, the files that they name, standard input and standard output to
//! [`mg_dev_program::carry_out`], and exits with its result.
//!
//! That function is the program over any two disks, devices, source and sink. It calls [`mg_mirror_session::top_mirror`] if the second
//! word is `mirror`, and otherwise [`mg_window_session::top_dev`]. It ensures what these two ensure for the words. It also ensures that
//! the exit status is the number of their status, and that outside of these calls the disks are only read. Here the real objects are
//! made, with a new device for each word `KIND:BASE`; `top_dev` refuses others. Standard error says why a command failed. It says at
//! once that a side of a mirror was dropped, and that no object begins at a base.
#![tactic(auto)]

ghost use Rattle.std.specs.Prelude.{◌≡◌, ◌<◌};

use mg_console::{NO_WORDS, Task, are_one_file, begin, disk_in, report, report_status, word};
use mg_dev_program::{carry_out, is_mirror};
use mg_io::{ReaderSource, WriterSink};
use mg_model::Steps;
use mg_session::Status;
use mg_window::{Console, Counter, Device, Latch, Windows};
use mg_window_session::read_words;
use std::alloc::{AllocError, Global};
use std::io::IsTerminal;
use std::marker::Brand;
use std::process::ExitCode;
use std::sync::ledger::{Blank, Ledger};

/// The program's name.
const NAME: &str = "mungi_dev";

/// The number of stores for which the tape of a device has room.
const ROOM: usize = 1024;

fn main(rt: HostRuntime) -> ExitCode {
    match begin(&rt, NAME) {
        Some((words, _numbers)) => ExitCode::from(on_files::<Brand>(&rt, &words, Blank::new(1))),
        None => ExitCode::from(NO_WORDS),
    }
}

/// Carries out the command on the files of the first and the third word and on the standard streams, with a new device for each word
/// that names one, in their order, and with a counter of steps of its own.
fn on_files<L: Ledger>(rt: &HostRuntime, words: &[String], blank: Blank) -> u8
    requires name { blank.name ≡ L.name }
    requires parts { blank.parts ≡ L.parts }
    requires has_parts { 0 < blank.parts }
{
    let (left_path, right_path) = (word(words, 0), word(words, 2));
    let mirrors = is_mirror(words);
    if mirrors && left_path != right_path && are_one_file(rt, left_path, right_path) {
        report(rt, NAME, "LEFT and RIGHT are one file");
    }
    let task = if mirrors { Task::Side } else { Task::Volume };
    let is_terminal = rt.stderr().is_terminal();
    let left = disk_in(rt, NAME, left_path, task, right_path, is_terminal);
    let right = disk_in(rt, NAME, right_path, task, left_path, is_terminal);
    let mut source = ReaderSource::new(rt.stdin());
    let mut sink = WriterSink::new(rt.stdout());
    let mut windows = match Windows::new(rt.alloc()) {
        Ok(windows) => windows,
        Err(_) => return without_memory(rt),
    };
    let asked = read_words(words).unwrap_or_default();
    for (kind, base) in asked.as_slice() {
        let device: Box<dyn Device> = match *kind {
            1 => match boxed(rt.alloc(), Latch::new(rt.alloc(), ROOM)) {
                Ok(latch) => latch,
                Err(_) => return without_memory(rt),
            },
            2 => match boxed(rt.alloc(), Console::new(rt.alloc(), ROOM)) {
                Ok(console) => console,
                Err(_) => return without_memory(rt),
            },
            _ => match boxed(rt.alloc(), Counter::new(rt.alloc(), ROOM)) {
                Ok(counter) => counter,
                Err(_) => return without_memory(rt),
            },
        };
        let _ = windows.attach(*base, device);
    }
    let mut steps = Steps::<L>::new(blank);
    carry_out(
        rt,
        words,
        left,
        right,
        &mut source,
        &mut sink,
        &mut windows,
        &mut steps,
    )
    .code
}

/// A device in a box.
fn boxed<D: Drop>(alloc: Global, made: Result<D, AllocError>) -> Result<Box<D>, AllocError> {
    Ok(Box::new(alloc, made?)?)
}

/// The outcome if there is not enough memory for the devices. Nothing was done.
fn without_memory(rt: &HostRuntime) -> u8 {
    report_status(rt, NAME, Status::Memory, None, None);
    Status::Memory.code()
}
