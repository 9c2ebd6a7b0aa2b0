// Parts of a session: its runs, and its lines of one kind.
use crate::lines::{Kind, is_newline, text_of};

/// A run of a file, and the bytes before and after it.
#[derive(Clone, Copy)]
pub struct Part<'a> {
    /// The bytes before the run.
    pub before: &'a [u8],
    /// The bytes of the run, notes included.
    pub run: &'a [u8],
    /// The bytes of the run and of all runs after it.
    pub rest: &'a [u8],
    /// The number of lines before the run.
    pub lines: usize,
}

/// The run with this number, from 0. After the last one it has no lines.
pub fn part_of(file: &[u8], run: usize) -> Part<'_> {
    let (at, lines) = place_after(file, Kind::Reopens, run);
    let (before, rest) = file.split_at(at.min(file.len()));
    let (end, _) = place_after(rest, Kind::Reopens, 1);
    let (run, _) = rest.split_at(end.min(rest.len()));
    Part {
        before,
        run,
        rest,
        lines,
    }
}

/// The number of bytes and of lines up to the end of line number `count`, from 1, of this kind.
pub fn place_after(bytes: &[u8], kind: Kind, count: usize) -> (usize, usize) {
    let mut at: usize = 0;
    let mut lines: usize = 0;
    let mut found: usize = 0;
    for line in bytes.split_inclusive(is_newline) {
        if found >= count {
            break;
        }
        if text_of(line, kind).is_some() {
            found = found.saturating_add(1);
        }
        at = at.saturating_add(line.len());
        lines = lines.saturating_add(1);
    }
    (at, lines)
}

/// The number of lines of this kind.
pub fn count(bytes: &[u8], kind: Kind) -> usize {
    let mut lines: usize = 0;
    for line in bytes.split_inclusive(is_newline) {
        if text_of(line, kind).is_some() {
            lines = lines.saturating_add(1);
        }
    }
    lines
}

/// The number of runs of a file.
pub fn count_runs(file: &[u8]) -> usize {
    count(file, Kind::Reopens).saturating_add(1)
}

/// Appends the lines of this kind with the numbers `from` up to before `to`, from 0. False if out of memory.
pub fn append_lines(out: &mut Vec<u8>, bytes: &[u8], kind: Kind, from: usize, to: usize) -> bool {
    let mut number: usize = 0;
    for line in bytes.split_inclusive(is_newline) {
        if let Some(text) = text_of(line, kind) {
            if number >= from && number < to && !append_line(out, text) {
                return false;
            }
            number = number.saturating_add(1);
        }
    }
    true
}

/// Appends these bytes and a newline. False if out of memory.
pub fn append_line(out: &mut Vec<u8>, text: &[u8]) -> bool {
    append(out, text) && append(out, b"\n")
}

/// Appends these bytes. False if out of memory.
pub fn append(out: &mut Vec<u8>, bytes: &[u8]) -> bool {
    out.extend_from_slice(bytes).is_ok()
}
