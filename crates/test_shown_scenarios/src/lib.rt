//! Runs the scenarios with the texts that `mungi_show` prints of the volumes that they leave.
#![tactic(auto)]

use mg_disk::MemDisk;
use mg_io::MemSink;
use mg_session::Status;
use mg_show::top_show;
use std::alloc::Global;
use std::io;
use std::rt::{Env, Files};
use test_scenarios::Shows;

/// The texts are those of `mungi_show`.
struct Show;

impl Shows for Show {
    fn show(
        &self,
        alloc: Global,
        words: &[String],
        disk: &mut MemDisk,
        sink: &mut MemSink,
    ) -> Status {
        top_show(alloc, words, disk, sink)
    }
}

/// Prints a line for each file of sessions and returns whether all agree, as [`test_scenarios::check_files`] does.
pub fn check_files<R: Files + Env + Print + AllocGlobal + Clone + Drop>(
    rt: &R,
) -> io::Result<bool> {
    test_scenarios::check_files(rt, &Show)
}
