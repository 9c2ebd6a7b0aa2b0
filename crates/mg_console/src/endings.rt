// Lines on standard error: why a file or a stream failed.
use mg_file::FileFault;
use std::fmt;
use std::fmt::Formatter;
use std::io::{self, Eprint, ErrorKind};

/// The system's number for the error of a stream that is not open.
const NOT_OPEN: i32 = 9;

/// The text for a write that took only a part of its bytes.
const ONLY_A_PART: &str = "took only a part: the disk may be full";

/// Prints this text.
pub fn report<R: Eprint>(rt: &R, program: &str, text: &str) {
    let _ = eprintln!(rt; "{program}: {text}");
}

/// Prints this text about a file or a stream.
pub fn report_of<R: Eprint>(rt: &R, program: &str, what: &str, text: &str) {
    let _ = eprintln!(rt; "{program}: {what}: {text}");
}

/// Why a call of a file failed. If the system's words don't say what to do about it, these do.
#[derive(Clone, Copy)]
pub(crate) struct Cause<'a> {
    fault: &'a FileFault,
}

/// Why this call failed.
pub(crate) fn cause_of(fault: &FileFault) -> Cause<'_> {
    Cause { fault }
}

impl<'a> fmt::Display for Cause<'a> {
    fn fmt<W: fmt::Write>(&self, f: &mut Formatter<W>) -> fmt::Result {
        let kind = self.fault.error.kind();
        if kind == ErrorKind::WriteZero {
            f.write_str(ONLY_A_PART)
        } else if kind == ErrorKind::NotSeekable {
            f.write_str("a pipe or a terminal can hold no volume")
        } else if is_of_opening(kind) {
            write!(f, "{}", self.fault.error)
        } else {
            write!(f, "{}", self.fault)
        }
    }
}

/// Whether an error of this kind comes of opening a file, and so belongs to no block of it.
fn is_of_opening(kind: ErrorKind) -> bool {
    kind == ErrorKind::IsADirectory
        || kind == ErrorKind::PermissionDenied
        || kind == ErrorKind::NotFound
}

/// Whether a call with this fault had the file, so that the file's size may be the cause.
pub(crate) fn had_its_file(fault: &FileFault) -> bool {
    let kind = fault.error.kind();
    !is_of_opening(kind) && kind != ErrorKind::NotSeekable && kind != ErrorKind::WouldBlock
}

/// Says why a call of a file failed, if one did.
pub fn report_fault<R: Eprint>(rt: &R, program: &str, path: &str, fault: Option<&FileFault>) {
    if let Some(fault) = fault {
        let cause = cause_of(fault);
        let _ = eprintln!(rt; "{program}: {path}: {cause}");
    }
}

/// Prints an error of the system and what it happened to, if there is one.
pub fn report_error<R: Eprint>(rt: &R, program: &str, what: &str, error: Option<&io::Error>) {
    if let Some(error) = error {
        let _ = eprintln!(rt; "{program}: {what}: {error}");
    }
}

/// Says why standard input failed, if it did.
///
/// A program that reserves the numbers of the standard streams ([`begin`](crate::begin)) has a folder in place of a closed input. So it
/// can't distinguish the two.
pub(crate) fn report_input<R: Eprint>(rt: &R, program: &str, error: Option<&io::Error>) {
    let what = "standard input";
    match error {
        Some(error) if error.kind() == ErrorKind::IsADirectory => {
            report_of(rt, program, what, "it is closed, or a folder");
        }
        Some(error) if error.raw_os_error() == Some(NOT_OPEN) => {
            report_of(rt, program, what, "it is closed");
        }
        _ => report_error(rt, program, what, error),
    }
}

/// Says why standard output failed, if it did.
pub(crate) fn report_output<R: Eprint>(rt: &R, program: &str, error: Option<&io::Error>) {
    let what = "standard output";
    match error {
        Some(error) if error.kind() == ErrorKind::WriteZero => {
            report_of(rt, program, what, ONLY_A_PART);
        }
        Some(error) if error.raw_os_error() == Some(NOT_OPEN) => {
            report_of(rt, program, what, "it is closed");
        }
        _ => report_error(rt, program, what, error),
    }
}
