// The outcome of a command as one text, and comparisons with it.
use crate::{Outcome, Streams, command, volume};
use mg_disk::{BLOCK_SIZE, Disk, MemDisk};
use mg_layout::{BLOCK_WORDS, put_number};
use mg_text::read_number;
use std::alloc::{AllocError, Global};

/// A block, an offset in it, and the new byte there.
pub type Byte = (u64, usize, u8);

/// The number of blocks of a volume of 64 frames.
pub const BLOCKS: u64 = 2660;

/// The words that make a volume of 64 frames.
pub const MAKING: &str =
    "vol format 64 0000000000000000000000000000000000000000000000000000000000000000 1000";

/// These words as a `String`.
pub fn making(alloc: Global) -> Result<String, AllocError> {
    String::from_str(alloc, MAKING)
}

/// A fresh volume of 64 frames, with no call made yet.
pub fn fresh(alloc: Global) -> Result<MemDisk, AllocError> {
    volume(alloc, MAKING)
}

/// The status of a command, a blank, and what it printed.
pub fn output<D: Disk>(
    alloc: Global,
    line: &str,
    disk: &mut D,
    streams: &Streams<'_>,
) -> Result<String, AllocError> {
    match command(alloc, line, disk, streams) {
        Ok(outcome) => text_of(alloc, &outcome),
        Err(e) => Err(e),
    }
}

fn text_of(alloc: Global, outcome: &Outcome) -> Result<String, AllocError> {
    let code = outcome.status.code();
    match String::from_utf8_lossy(alloc, &outcome.printed) {
        Ok(printed) => format!(in alloc; "{code} {printed}"),
        Err(e) => Err(e),
    }
}

/// The same for a command with this input.
pub fn output_for<D: Disk>(
    alloc: Global,
    line: &str,
    disk: &mut D,
    input: &str,
) -> Result<String, AllocError> {
    output(alloc, line, disk, &Streams::of(input.as_bytes()))
}

/// Whether [`output`] returns this text. False if out of memory.
pub fn outputs<D: Disk>(
    alloc: Global,
    line: &str,
    disk: &mut D,
    streams: &Streams<'_>,
    wanted: &str,
) -> bool {
    match output(alloc, line, disk, streams) {
        Ok(found) => found.as_str() == wanted,
        Err(_) => false,
    }
}

/// Whether [`output_for`] returns this text. False if out of memory.
pub fn outputs_for<D: Disk>(
    alloc: Global,
    line: &str,
    disk: &mut D,
    input: &str,
    wanted: &str,
) -> bool {
    outputs(alloc, line, disk, &Streams::of(input.as_bytes()), wanted)
}

/// Whether a command ends with this status and prints these bytes. False if out of memory.
pub fn ends<D: Disk>(
    alloc: Global,
    line: &str,
    disk: &mut D,
    streams: &Streams<'_>,
    code: u8,
    printed: &[u8],
) -> bool {
    match command(alloc, line, disk, streams) {
        Ok(outcome) => outcome.status.code() == code && outcome.printed.as_slice() == printed,
        Err(_) => false,
    }
}

/// Whether a command that reads this session ends with status 0 and prints its answers. Each answer follows its line as `#= ANSWER`,
/// which is a note for the command. False if out of memory.
pub fn answers<D: Disk>(alloc: Global, line: &str, disk: &mut D, session: &str) -> bool {
    let mut replies = String::new(alloc);
    let streams = Streams::of(session.as_bytes());
    push_replies(&mut replies, session) && ends(alloc, line, disk, &streams, 0, replies.as_bytes())
}

/// Appends the answers of a session. False if out of memory.
fn push_replies(replies: &mut String, session: &str) -> bool {
    for line in session.split('\n') {
        if let Some(reply) = line.strip_prefix("#= ") {
            if !push_line(replies, reply) {
                return false;
            }
        }
    }
    true
}

fn push_line(text: &mut String, line: &str) -> bool {
    text.push_str(line).is_ok() && text.push_str("\n").is_ok()
}

/// Writes bytes to a disk, listed as `BLOCK OFFSET BYTE, BLOCK OFFSET BYTE, ..`. False if the list can't be read.
pub fn write_bytes(disk: &mut MemDisk, bytes: &str) -> bool {
    for item in bytes.split(", ") {
        match three(item) {
            Some((block, at, byte)) => write_byte(disk, block, at as usize, (byte % 256) as u8),
            None if item.is_empty() => (),
            None => return false,
        }
    }
    true
}

/// Three numbers, separated by single blanks.
fn three(item: &str) -> Option<(u64, u64, u64)> {
    let (first, rest) = item.split_once(' ')?;
    let (second, third) = rest.split_once(' ')?;
    Some((number(first)?, number(second)?, number(third)?))
}

fn number(word: &str) -> Option<u64> {
    read_number(word.as_bytes())
}

/// Writes words to a disk, listed as `BLOCK PLACE WORD, BLOCK PLACE WORD, ..`. The places of a block are 0 to 511. False if the list
/// can't be read.
pub fn write_words(disk: &mut MemDisk, words: &str) -> bool {
    for item in words.split(", ") {
        match three(item) {
            Some((block, place, word)) => write_word(disk, block, place as usize, word),
            None => return false,
        }
    }
    true
}

fn write_word(disk: &mut MemDisk, block: u64, place: usize, word: u64) {
    let mut bytes = [0; BLOCK_SIZE];
    if place < BLOCK_WORDS as usize
        && block < disk.blocks()
        && disk.read(block, &mut bytes).is_ok()
    {
        put_number(&mut bytes, 8 * place, word);
        let _ = disk.write(block, &bytes);
    }
}

/// Writes bytes to a disk.
pub fn write_each(disk: &mut MemDisk, bytes: &[Byte]) {
    for (block, at, byte) in bytes {
        write_byte(disk, *block, *at, *byte);
    }
}

fn write_byte(disk: &mut MemDisk, block: u64, at: usize, byte: u8) {
    let mut bytes = [0; BLOCK_SIZE];
    if block < disk.blocks() && disk.read(block, &mut bytes).is_ok() {
        if let Some(place) = bytes.get_mut(at) {
            *place = byte;
        }
        let _ = disk.write(block, &bytes);
    }
}
