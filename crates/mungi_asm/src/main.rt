//! The program: it hands the words of its command line, its standard input, its standard output and its standard error to
//! [`program::carry_out`], and exits with the result.
//!
//! That function is the program over any source and sinks. It calls [`mg_asm_session::top`] and ensures what that ensures, that the
//! exit status is the number of its status, and that source and sinks are left alone after it. The messages on standard error come
//! last: why the program failed.
#![tactic(auto)]

mod faulty;
mod program;
mod usage;

use mg_console::{NO_WORDS, words_or_tell};
use mg_io::{ReaderSource, WriterSink};
use program::carry_out;
use std::process::ExitCode;

/// The program's name.
const NAME: &str = "mungi_asm";

fn main(rt: HostRuntime) -> ExitCode {
    match words_or_tell(&rt, NAME) {
        Some(words) => ExitCode::from(on_streams(&rt, &words)),
        None => ExitCode::from(NO_WORDS),
    }
}

/// Carries out the command that the words spell, on the standard streams.
fn on_streams(rt: &HostRuntime, words: &[String]) -> u8 {
    let mut source = ReaderSource::new(rt.stdin());
    let mut out = WriterSink::new(rt.stdout());
    let mut err = WriterSink::new(rt.stderr());
    carry_out(rt, words, &mut source, &mut out, &mut err)
}
