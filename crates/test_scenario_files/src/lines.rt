// The lines of a file, and their kinds.

/// The most bytes of a blank line or a note. A longer line is a call, whatever it holds.
const LINE_LIMIT: usize = 256;

/// The calls that only read.
const READS: [&[u8]; 4] = [b"load", b"info", b"balance", b"apdlist"];

/// What a line is. The bytes are without the newline.
#[derive(Clone, Copy)]
pub enum Line<'a> {
    /// A call, which is answered.
    Call(&'a [u8]),
    /// The answer of a call.
    Answer(&'a [u8]),
    /// The end of a run. The next one begins after it.
    Reopen,
    /// A setting of the session.
    Setting(&'a [u8]),
    Note,
}

/// The lines that are meant.
#[derive(Clone, Copy)]
pub enum Kind {
    /// The calls.
    Calls,
    /// The calls that only read.
    Reads,
    Answers,
    /// The ends of runs.
    Reopens,
}

/// What a line is. It may end with a newline.
pub fn line_of(line: &[u8]) -> Line<'_> {
    let text = line.strip_suffix(b"\n").unwrap_or(line);
    if is_call(text) {
        Line::Call(text)
    } else if let Some(answer) = text.strip_prefix(b"#= ") {
        Line::Answer(answer)
    } else if text == b"#: reopen".as_slice() {
        Line::Reopen
    } else if let Some(setting) = text.strip_prefix(b"#: ") {
        Line::Setting(setting)
    } else {
        Line::Note
    }
}

/// The text of a line of this kind. None for a line of another kind.
pub fn text_of(line: &[u8], kind: Kind) -> Option<&[u8]> {
    match (kind, line_of(line)) {
        (Kind::Calls, Line::Call(text)) => Some(text),
        (Kind::Reads, Line::Call(text)) => { if is_read(text) { Some(text) } else { None } }
        (Kind::Answers, Line::Answer(text)) => Some(text),
        (Kind::Reopens, Line::Reopen) => Some(b""),
        _ => None,
    }
}

/// Whether a line is answered: it has words and is no note, or it is too long.
fn is_call(text: &[u8]) -> bool {
    for byte in text {
        if !is_blank(byte) {
            return *byte != b'#' || text.len() > LINE_LIMIT;
        }
    }
    text.len() > LINE_LIMIT
}

/// Whether the second word of a line names a call that reads.
fn is_read(line: &[u8]) -> bool {
    let mut is_second = false;
    for word in line.split(is_blank) {
        if !word.is_empty() {
            if is_second {
                return READS.contains(&word);
            }
            is_second = true;
        }
    }
    false
}

/// Whether a byte separates words.
fn is_blank(byte: &u8) -> bool {
    *byte == b' ' || *byte == b'\t' || *byte == b'\r'
}

/// Whether a byte ends a line.
pub fn is_newline(byte: &u8) -> bool {
    *byte == b'\n'
}

/// The number of newlines in these bytes.
pub fn count_lines(bytes: &[u8]) -> usize {
    let mut lines: usize = 0;
    for byte in bytes {
        if is_newline(byte) {
            lines = lines.saturating_add(1);
        }
    }
    lines
}

/// The bytes up to the first newline, including it.
pub fn first_line(bytes: &[u8]) -> &[u8] {
    match bytes.split_inclusive(is_newline).next() {
        Some(line) => line,
        None => bytes,
    }
}
