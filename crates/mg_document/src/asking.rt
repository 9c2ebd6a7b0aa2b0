// The calls that store a document, and those that load it.
ghost use Rattle.std.specs.Prelude.{◌≡◌, ◌<◌, ◌≤◌, ◌^◌, ◌++◌, [], IfOk, OnOk};
ghost use Rattle.mg_document.specs.Asked.{get_text, load_line, put_calls, put_text};
ghost use Rattle.mg_document.specs.Documents.{byte_limit};
ghost use Rattle.mg_model.specs.Lines.{lines};

use crate::packing::{words_for, words_of};
use arrayvec::ArrayVec;
use mg_asm::store_lines;
use mg_text::{push_text, push_word};
use std::alloc::{AllocError, Global};

/// Lines of calls by which a thread stores a document, from an address below `2^52` on. Each line stores one word: first the number
/// of the document's bytes, then its bytes.
pub fn put_lines(
    alloc: Global,
    thread: u64,
    address: u64,
    bytes: &[u8],
) -> Result<Vec<u8>, AllocError>
    requires { address < 2 ^ 52 }
    ensures text { IfOk result (λ text. text.items ≡ put_text thread address bytes.now) }
    ensures calls { IfOk result (λ text. lines text.items ≡ put_calls thread address bytes.now) }
{
    let words = words_of(alloc, bytes)?;
    store_lines(alloc, thread, address, &words)
}

/// Lines of calls by which a thread loads a document, from an address below `2^52` on. The document has `bytes` bytes, at most
/// [`BYTE_LIMIT`](crate::BYTE_LIMIT). Each line loads one word, by `THREAD load ADDR`: first the word with the number of bytes, then
/// the words of the bytes.
pub fn get_lines(
    alloc: Global,
    thread: u64,
    address: u64,
    bytes: u64,
) -> Result<Vec<u8>, AllocError>
    requires place { address < 2 ^ 52 }
    requires at_most_byte_limit_bytes { bytes ≤ byte_limit }
    ensures { IfOk result (λ text. text.items ≡ get_text thread address bytes) }
{
    let mut text = Vec::new(alloc);
    for i in 0..1 + words_for(bytes) {
        put_load(&mut text, thread, address + 8 * i)?;
    }
    Ok(text)
}

/// The line that loads a word.
fn put_load(out: &mut Vec<u8>, thread: u64, address: u64) -> Result<(), AllocError>
    ensures { OnOk result (out.new.items ≡ out.old.items ++ load_line thread address) }
{
    let mut line = ArrayVec::new();
    print_load(thread, address, &mut line);
    out.extend_from_slice(line.as_slice())?;
    Ok(())
}

/// Writes the line that loads a word into an empty buffer.
fn print_load(thread: u64, address: u64, out: &mut ArrayVec<u8, 256>)
    requires empty { out.old.items ≡ [] }
    ensures { out.new.items ≡ load_line thread address }
{
    let mut digits = itoa::Buffer::new();
    push_text(out, digits.format(thread).as_bytes());
    push_text(out, b" load");
    push_word(out, address);
    push_text(out, b"\n");
}
