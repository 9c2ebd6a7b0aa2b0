// The words of the command line.
ghost use Rattle.std.specs.Prelude.{◌≡◌, IfSome};
ghost use Rattle.mg_document_session.specs.Commands.{HasPlace, bytes_of, command_of, get_of, is_few, put_of};
ghost use Rattle.mg_io.specs.Arguments.{arguments};

use mg_asm::may_store_at;
use mg_document::BYTE_LIMIT;
use mg_text::{is_word, read_number};

/// What the program is asked to do.
#[derive(Clone, Copy, PartialEq, Eq)]
pub enum Command {
    /// Write the calls by which this thread stores the input as a document, from this address on.
    Put(u64, u64),
    /// Write the calls by which this thread loads a document, from this address on. The last number is that of its bytes.
    Get(u64, u64, u64),
    /// Write the bytes of the document that the replies of the input give.
    Bytes,
}

/// The command that these words spell, which follow the program's name. None exactly if they spell none.
///
/// They are `put THREAD ADDRESS`, `get THREAD ADDRESS BYTES` or `bytes`. The numbers are as in lines of calls. ADDRESS is a
/// multiple of 8 below `2^52`, the end of all objects, and BYTES at most [`BYTE_LIMIT`].
pub fn read_words(words: &[String]) -> Option<Command>
    ensures command { result ≡ command_of (arguments words.now) }
    ensures place { IfSome result HasPlace }
{
    match words {
        [word] => bytes(word.as_bytes()),
        [word, thread, address] => put(word.as_bytes(), thread.as_bytes(), address.as_bytes()),
        [word, thread, address, bytes] => get(
            word.as_bytes(),
            thread.as_bytes(),
            address.as_bytes(),
            bytes.as_bytes(),
        ),
        _ => None,
    }
}

fn bytes(word: &[u8]) -> Option<Command>
    ensures command { result ≡ bytes_of word.now }
    ensures place { IfSome result HasPlace }
{
    if is_word(word, b"bytes") {
        Some(Command::Bytes)
    } else {
        None
    }
}

fn put(word: &[u8], thread: &[u8], address: &[u8]) -> Option<Command>
    ensures command { result ≡ put_of word.now thread.now address.now }
    ensures place { IfSome result HasPlace }
{
    if !is_word(word, b"put") {
        return None;
    }
    let thread = read_number(thread)?;
    let address = read_number(address)?;
    if may_store_at(address) {
        Some(Command::Put(thread, address))
    } else {
        None
    }
}

fn get(word: &[u8], thread: &[u8], address: &[u8], bytes: &[u8]) -> Option<Command>
    ensures command { result ≡ get_of word.now thread.now address.now bytes.now }
    ensures place { IfSome result HasPlace }
{
    if !is_word(word, b"get") {
        return None;
    }
    let thread = read_number(thread)?;
    let address = read_number(address)?;
    let bytes = read_number(bytes)?;
    if may_store_at(address) && is_few(bytes) {
        Some(Command::Get(thread, address, bytes))
    } else {
        None
    }
}

/// Whether a document may have this number of bytes.
fn is_few(bytes: u64) -> bool
    ensures { result ≡ is_few bytes }
{
    bytes <= BYTE_LIMIT
}
