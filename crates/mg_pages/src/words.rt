// The words of a block.
ghost use Rattle.std.specs.Prelude.{◌≡◌, ◌≢◌, ◌<◌, ◌*◌, ℕ, IsSomeAnd, MatchOption, None};
ghost use Rattle.mg_journal.specs.Staged.{waiting};
ghost use Rattle.mg_model.specs.Bytes.{number_at};

use mg_bytes::{number_at, put_number};
use mg_disk::Block;
use mg_journal::Writes;

/// The word at an index of a block, below 512.
pub(crate) fn word_at(block: &Block, index: u64) -> u64
    requires { index < 512 }
    ensures { result ≡ number_at block.now (8 * index) }
{
    number_at(block, 8 * index as usize)
}

/// Writes a word at an index of a block, below 512.
pub(crate) fn put_word(block: &mut Block, index: u64, word: u64)
    requires { index < 512 }
    ensures word { number_at block.new (8 * index) ≡ word }
    ensures others { (j : ℕ) → j ≢ index → number_at block.new (8 * j) ≡ number_at block.old (8 * j) }
{
    put_number(block, 8 * index as usize, word);
}

/// The word at an index, below 512, of what goes to a block.
pub(crate) fn staged_word(writes: &Writes, block: u64, index: u64) -> Option<u64>
    requires { index < 512 }
    ensures { MatchOption result (waiting writes.now block ≡ None) (λ word. IsSomeAnd (waiting writes.now block) (λ bytes. word ≡ number_at bytes (8 * index))) }
{
    match writes.get(block) {
        Some(bytes) => Some(word_at(bytes, index)),
        None => None,
    }
}
