// From bytes to the words of a document.
ghost use Rattle.std.specs.Prelude.{◌≡◌, IfOk, slice_index};
ghost use Rattle.std.specs.Int.{from_le_bytes, w64};
ghost use Rattle.mg_document.specs.Documents.{document, words_for};

use mg_model::limits::{OBJECT_PAGE_LIMIT, PAGE_SIZE};
use std::alloc::{AllocError, Global};

/// The most bytes of a document, 4,194,296: what an object of 1,024 pages holds after its first word.
pub const BYTE_LIMIT: u64 = OBJECT_PAGE_LIMIT * PAGE_SIZE - 8;

/// The number of words that `bytes` bytes fill. They may fill the last one in part.
pub(crate) fn words_for(bytes: u64) -> u64
    ensures { result ≡ words_for bytes }
{
    let begun = if bytes % 8 == 0 { 0 } else { 1 };
    bytes / 8 + begun
}

/// The words of a document: the number of its bytes, and then the bytes, eight a word. The first byte of a word is the lowest. The
/// last word is filled with zeros.
pub fn words_of(alloc: Global, bytes: &[u8]) -> Result<Vec<u64>, AllocError>
    ensures { IfOk result (λ words. words.items ≡ document bytes.now) }
{
    let length = bytes.len() as u64;
    let mut words = Vec::new(alloc);
    words.push(length)?;
    for k in 0..words_for(length) as usize {
        words.push(word(&bytes[8 * k..]))?;
    }
    Ok(words)
}

/// The word of the first eight of these bytes. A byte that is missing is zero.
fn word(bytes: &[u8]) -> u64
    ensures { result ≡ from_le_bytes w64 bytes.now }
{
    u64::from_le_bytes([
        byte(bytes, 0),
        byte(bytes, 1),
        byte(bytes, 2),
        byte(bytes, 3),
        byte(bytes, 4),
        byte(bytes, 5),
        byte(bytes, 6),
        byte(bytes, 7),
    ])
}

/// The byte at a place, or 0 if there is none.
fn byte(bytes: &[u8], place: usize) -> u8
    ensures { result ≡ slice_index bytes.now place }
{
    bytes.get(place).copied().unwrap_or(0)
}
