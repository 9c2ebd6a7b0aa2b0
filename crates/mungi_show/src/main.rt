//! The program: the words of its command line, the file of the first one, and its standard output, handed to
//! [`program::carry_out`], whose result it exits with.
//!
//! That function is the program over any disk and sink. It calls [`mg_show::top_show`] and ensures of the words what that ensures, that
//! the exit status is the number of its status, and that nothing is written on the disk or on the sink after it. The file is only
//! read, and is not made if there is none. Standard error says why it failed.
#![tactic(auto)]

mod program;

use mg_console::{NO_WORDS, begin, word};
use mg_file::FileDisk;
use mg_io::WriterSink;
use program::carry_out;
use std::process::ExitCode;

/// The program's name.
const NAME: &str = "mungi_show";

fn main(rt: HostRuntime) -> ExitCode {
    match begin(&rt, NAME) {
        Some((words, _numbers)) => ExitCode::from(on_file(&rt, &words)),
        None => ExitCode::from(NO_WORDS),
    }
}

/// Carries out what the words ask for, on the file of the first word and standard output.
fn on_file(rt: &HostRuntime, words: &[String]) -> u8 {
    let mut disk = FileDisk::reader(rt, word(words, 0));
    let mut sink = WriterSink::new(rt.stdout());
    carry_out(rt, words, &mut disk, &mut sink)
}
