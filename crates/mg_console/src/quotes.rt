// A part of an input, as a line on standard error shows it.
ghost use Rattle.std.specs.Prelude.{◌≤◌, length};

use std::fmt;
use std::fmt::Formatter;

/// The most bytes that a line shows.
const SHOWN: usize = 256;

/// Bytes of an input, as a line shows them. Each byte that is no printable ASCII character is shown as `\xNN`, and so is `\`.
/// Of more than 256 bytes the first are shown, and `..` follows.
#[derive(Clone, Copy)]
pub struct Quote<'a> {
    bytes: &'a [u8],
}

/// These bytes, as a line shows them.
pub fn quoted(bytes: &[u8]) -> Quote<'_> {
    Quote { bytes }
}

impl<'a> fmt::Display for Quote<'a> {
    fn fmt<W: fmt::Write>(&self, f: &mut Formatter<W>) -> fmt::Result {
        for byte in self.bytes.iter().take(SHOWN) {
            if is_shown(*byte) {
                write!(f, "{}", *byte as char)?;
            } else {
                write!(f, "\\x{:02x}", *byte)?;
            }
        }
        if self.bytes.len() > SHOWN {
            f.write_str("..")
        } else {
            Ok(())
        }
    }
}

/// Whether a byte is shown as it is.
fn is_shown(byte: u8) -> bool {
    byte >= b' ' && byte <= b'~' && byte != b'\\'
}

/// The line of a text with this number, from 1, without its newline. It is empty if there is none.
pub fn line_of(text: &[u8], number: u64) -> &[u8] {
    let mut rest = text;
    for _ in 1..number {
        rest = after_line(rest);
    }
    let (line, _) = rest.split_at(before_newline(rest));
    line
}

/// What follows the first newline.
fn after_line(text: &[u8]) -> &[u8] {
    let (_, rest) = text.split_at(before_newline(text));
    if rest.is_empty() { rest } else { &rest[1..] }
}

/// The number of bytes before the first newline.
fn before_newline(text: &[u8]) -> usize
    ensures { result ≤ length text.now }
{
    text.iter().take_while(|byte| **byte != b'\n').count()
}
