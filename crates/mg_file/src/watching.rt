// What a disk in a file reports during its calls.
use std::fmt;
use std::fmt::Formatter;
use std::io::{self, ErrorKind};

/// Why a call of a [`FileDisk`](crate::FileDisk) failed: the error of the system, in its words, or that another run holds
/// the file; and the block at which the call began, if it had one.
#[derive(Drop)]
pub struct FileFault {
    /// The error of the system. Its kind is `WouldBlock` if another run holds the file.
    pub error: io::Error,
    /// The first block that was to be read or written; none for a sync.
    pub block: Option<u64>,
}

impl fmt::Display for FileFault {
    fn fmt<W: fmt::Write>(&self, f: &mut Formatter<W>) -> fmt::Result {
        if self.error.kind() == ErrorKind::WouldBlock {
            return f.write_str("another run holds it, and has for 0.3 s");
        }
        match self.block {
            Some(block) => write!(f, "{}, at block {block}", self.error),
            None => write!(f, "{}", self.error),
        }
    }
}

/// What gets a call for each call of a [`FileDisk`](crate::FileDisk) while a command runs. It changes no answer.
pub trait Watch {
    /// A read failed.
    fn read_failed(&mut self, fault: &FileFault);

    /// A write or a sync failed.
    fn write_failed(&mut self, fault: &FileFault);

    /// `count` blocks were written, the first of them `first`.
    fn wrote(&mut self, first: u64, count: usize);

    /// What was written is on the medium.
    fn synced(&mut self);
}

/// Watches nothing.
#[derive(Drop)]
pub struct Unwatched;

impl Watch for Unwatched {
    fn read_failed(&mut self, _: &FileFault) {}

    fn write_failed(&mut self, _: &FileFault) {}

    fn wrote(&mut self, _: u64, _: usize) {}

    fn synced(&mut self) {}
}
