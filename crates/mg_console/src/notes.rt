// Lines on standard error while a command runs.
use crate::endings::cause_of;
use mg_file::{FileFault, Watch};
use std::io::Eprint;

/// The number of blocks between two lines that say how far a copy is: 8 MiB.
const STEP: u64 = 2048;

/// The use of a file, which decides what is reported while a command runs.
#[derive(Clone, Copy, PartialEq, Eq)]
pub enum Task {
    /// A volume of its own. Its first fault ends the command, and is reported then.
    Volume,
    /// A volume that is made by copying another one.
    Copy,
    /// A side of a mirror. If it fails, the command continues.
    Side,
}

/// Lines about one file, on standard error.
///
/// For a side of a mirror the first read and the first write that fail are reported at once. After that write the side is dropped. If
/// standard error is a terminal, a line says how many bytes of a copy or a side were copied. It is overwritten as the copy continues,
/// and erased at the first sync.
#[derive(Drop)]
pub struct Notes<'a, R: Eprint> {
    rt: &'a R,
    program: &'static str,
    path: &'a str,
    task: Task,
    is_terminal: bool,
    // Whether a failed read, and a failed write, was reported.
    read_told: bool,
    write_told: bool,
    // The number of blocks that were copied, the number that the line on the terminal shows, and whether there is such a line.
    copied: u64,
    shown: u64,
    is_shown: bool,
}

impl<'a, R: Eprint> Notes<'a, R> {
    /// Notes of this program on the file at `path`.
    pub fn new(
        rt: &'a R,
        program: &'static str,
        path: &'a str,
        task: Task,
        is_terminal: bool,
    ) -> Notes<'a, R> {
        Notes {
            rt,
            program,
            path,
            task,
            is_terminal,
            read_told: false,
            write_told: false,
            copied: 0,
            shown: 0,
            is_shown: false,
        }
    }

    /// Erases the line on the terminal.
    fn clear(&mut self) {
        if self.is_shown {
            let _ = eprint!(self.rt; "\r\x1b[K");
            self.is_shown = false;
        }
    }

    fn show(&mut self) {
        let (program, path, megabytes) = (self.program, self.path, self.copied / 256);
        let _ = eprint!(self.rt; "\r{program}: {path}: {megabytes} MiB copied\x1b[K");
        self.is_shown = true;
        self.shown = self.copied;
    }
}

impl<'a, R: Eprint> Watch for Notes<'a, R> {
    fn read_failed(&mut self, fault: &FileFault) {
        self.clear();
        if self.task == Task::Side && !self.read_told {
            let (program, path) = (self.program, self.path);
            let cause = cause_of(fault);
            let _ = eprintln!(self.rt; "{program}: {path}: a read failed: {cause}");
            self.read_told = true;
        }
    }

    fn write_failed(&mut self, fault: &FileFault) {
        self.clear();
        if self.task == Task::Side && !self.write_told {
            let (program, path) = (self.program, self.path);
            let cause = cause_of(fault);
            let _ = eprintln!(self.rt; "{program}: {path}: {cause}; this side is dropped");
            self.write_told = true;
        }
    }

    fn wrote(&mut self, _: u64, count: usize) {
        // Only a copy writes several blocks in one call.
        if !self.is_terminal || self.task == Task::Volume || count < 2 {
            return;
        }
        self.copied = self.copied.saturating_add(count as u64);
        if self.copied.saturating_sub(self.shown) >= STEP {
            self.show();
        }
    }

    fn synced(&mut self) {
        self.clear();
    }
}
