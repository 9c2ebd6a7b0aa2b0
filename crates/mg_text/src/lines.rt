// From the bytes of a line to its call.
ghost use Rattle.std.specs.Prelude.{◌≡◌};
ghost use Rattle.mg_model.specs.Lines.{call_line, is_note, line_of, line_with, spelled_line, thread_line, is_lone};
ghost use Rattle.mg_model.specs.Words.{words};

use crate::calls::read_call;
use crate::numbers::read_number;
use crate::words::{is_word, next_word};
use mg_model::{Call, Line};

/// The most bytes that a line may have.
const LINE_LIMIT: usize = 256;

/// A line that is no known call.
const BAD: Line = Line {
    thread: 0,
    call: Call::Bad,
};

/// The call that a line spells, given without its newline; None if the line has no words or is a note. A line of more than
/// 256 bytes is `Bad`, whatever it holds, and so is a line that is no known call.
pub fn read_line(bytes: &[u8]) -> Option<Line>
    ensures { result ≡ line_of bytes.now }
{
    if bytes.len() > LINE_LIMIT {
        return Some(BAD);
    }
    let (first, more) = next_word(bytes)?;
    if is_note(first) {
        None
    } else {
        Some(spelled(first, more))
    }
}

/// Whether a word begins a note.
fn is_note(word: &[u8]) -> bool
    ensures { result ≡ is_note word.now }
{
    match word {
        [b'#', ..] => true,
        _ => false,
    }
}

/// The line of a first word and of the words in the bytes after it.
fn spelled(first: &[u8], more: &[u8]) -> Line
    ensures { result ≡ spelled_line first.now (words more.now) }
{
    if stands_alone(first) {
        return call_by(0, first, more);
    }
    match read_number(first) {
        Some(thread) => thread_call(thread, more),
        None => BAD,
    }
}

/// The line of a thread and of the words in the bytes after its number.
fn thread_call(thread: u64, more: &[u8]) -> Line
    ensures { result ≡ thread_line thread (words more.now) }
{
    match next_word(more) {
        None => BAD,
        Some((word, args)) => {
            if stands_alone(word) {
                BAD
            } else {
                call_by(thread, word, args)
            }
        }
    }
}

/// The line of a call word and of the words in the bytes after it.
#[inline(always)]
fn call_by(thread: u64, word: &[u8], args: &[u8]) -> Line
    ensures { result ≡ call_line thread word.now (words args.now) }
{
    match read_call(word, args) {
        None => BAD,
        Some(call) => line_with(thread, call),
    }
}

/// The line of a call that was read.
fn line_with(thread: u64, call: Call) -> Line
    ensures { result ≡ line_with thread call }
{
    match call {
        Call::Bad => BAD,
        call => Line { thread, call },
    }
}

/// Whether a call word begins its line, with no thread's number before it.
fn stands_alone(word: &[u8]) -> bool
    ensures { result ≡ is_lone word.now }
{
    is_word(word, b"next") || is_word(word, b"rent")
}
