// Reading a source whole.
ghost use Rattle.std.specs.Prelude.{◌≡◌, ◌≢◌, ◌+◌, Err, IfOk};
ghost use Rattle.mg_io.specs.Known.{TakesAtMost};
ghost use Rattle.mg_filter.specs.Whole.{OfWhole, TakesMore};
ghost use Rattle.mg_faults.specs.Faults.{Rose};

use mg_io::{PIECE, Source};
use std::alloc::Global;

/// Why a source was not read to its end.
#[derive(Clone, Copy, PartialEq, Eq)]
pub enum Unread {
    /// There was not enough memory.
    Memory,
    /// A take failed.
    Source,
    /// The source has more bytes than the limit.
    TooLong,
}

/// All that a source has left, at most `limit` bytes. Memory comes only if an allocation failed. Whatever the result is,
/// at most `limit` bytes and a piece of 4,096 were taken.
pub fn read_whole<S: Source>(alloc: Global, limit: usize, source: &mut S) -> Result<Vec<u8>, Unread>
    ensures whole { IfOk result (λ text. OfWhole (S.left source.old) (S.left source.new) (λ input. text.items ≡ input)) }
    ensures within { result ≢ Err Unread.TooLong → TakesAtMost limit (S.left source.old) (S.left source.new) }
    ensures too_long { result ≡ Err Unread.TooLong → TakesMore limit (S.left source.old) (S.left source.new) }
    ensures bounded { TakesAtMost (limit + 4096) (S.left source.old) (S.left source.new) }
    ensures source { result ≡ Err Unread.Source → Rose (S.faults source.old) (S.faults source.new) (S.is_spent source.new) }
{
    let mut text = Vec::new(alloc);
    let mut piece = [0; PIECE];
    'pieces: loop {
        let count = match source.take(&mut piece) {
            Ok(count) => count,
            Err(_) => return Err(Unread::Source),
        };
        if count == 0 {
            return Ok(text);
        }
        if count > limit - text.len() {
            return Err(Unread::TooLong);
        }
        if text.extend_from_slice(&piece[..count]).is_err() {
            return Err(Unread::Memory);
        }
    }
}
