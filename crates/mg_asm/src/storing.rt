// From words to the calls that store them.
ghost use Rattle.std.specs.Prelude.{◌≡◌, ◌<◌, ◌^◌, ◌++◌, IfOk, OnOk};
ghost use Rattle.mg_asm.specs.Stored.{may_store_at, store_calls, store_line, store_lines};
ghost use Rattle.mg_model.specs.Lines.{lines};

use crate::printing::{put_hex, put_number};
use mg_model::limits::{PAGE_END, PAGE_SIZE};
use std::alloc::{AllocError, Global};

/// Whether words may be stored at this address: it is a multiple of 8 below `2^52`, the end of the pages that objects may have.
pub fn may_store_at(address: u64) -> bool
    ensures { result ≡ may_store_at address }
{
    address % 8 == 0 && address < PAGE_END * PAGE_SIZE
}

/// Lines of calls by which a thread stores these words, from an address below `2^52` on. Each line stores one word. It is
/// `THREAD store ADDR WORD`, with the thread's number in decimal and the other two in hexadecimal.
pub fn store_lines(
    alloc: Global,
    thread: u64,
    address: u64,
    words: &[u64],
) -> Result<Vec<u8>, AllocError>
    requires { address < 2 ^ 52 }
    ensures text { IfOk result (λ text. text.items ≡ store_lines thread address words.now) }
    ensures calls { IfOk result (λ text. lines text.items ≡ store_calls thread address words.now) }
{
    let mut text = Vec::new(alloc);
    for i in 0..words.len() {
        put_store(&mut text, thread, address + 8 * i as u64, words[i])?;
    }
    Ok(text)
}

/// The line that stores a word.
fn put_store(out: &mut Vec<u8>, thread: u64, address: u64, word: u64) -> Result<(), AllocError>
    ensures { OnOk result (out.new.items ≡ out.old.items ++ store_line thread address word) }
{
    put_number(out, b"", thread)?;
    out.extend_from_slice(b" store")?;
    put_hex(out, address)?;
    put_hex(out, word)?;
    out.push(b'\n')?;
    Ok(())
}
