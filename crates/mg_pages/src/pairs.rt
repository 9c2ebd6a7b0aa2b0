// A search through the pairs of words of a block.
ghost use Rattle.std.specs.Prelude.{◌≡◌, ◌+◌, ◌*◌, ◌%◌, ◌^◌, ◌≤◌, ◌<◌, IfSome, slice_index};
ghost use Rattle.mg_model.specs.Bytes.{block_words, number_at};
ghost use Rattle.mg_pages.specs.Pairs.{ArePlaces, IsNextPair, words_looked_at};

use crate::counting::count_word;
use crate::words::word_at;
use mg_disk::Block;
use mg_model::Steps;
use std::sync::ledger::Ledger;

/// The first of the pairs from place `from` on, and before place `count`, whose first word is `first`: its place and its second
/// word. Pair j has words 2 + 2 * j and 3 + 2 * j of the block. Each word that is looked at is counted.
pub(crate) fn next_pair<L: Ledger>(
    block: &Block,
    from: u64,
    count: u64,
    first: u64,
    words: &mut u64,
    steps: &mut Steps<L>,
) -> Option<(u64, u64)>
    requires { ArePlaces from count }
    ensures found { IsNextPair (λ index. slice_index (block_words block.now) index) from count first result }
    ensures place { IfSome result (λ pair. (from ≤ pair.0) × (pair.0 < count)) }
    ensures words { words.new % 2 ^ 64 ≡ (words.old + words_looked_at from count result) % 2 ^ 64 }
    ensures ticks { steps.new ≡ steps.old + words_looked_at from count result }
{
    for j in from..count {
        if counted_word(block, 2 + 2 * j, words, steps) == first {
            return Some((j, counted_word(block, 3 + 2 * j, words, steps)));
        }
    }
    None
}

// The word at an index of a block, below 512, which is counted.
fn counted_word<L: Ledger>(block: &Block, index: u64, words: &mut u64, steps: &mut Steps<L>) -> u64
    requires { index < 512 }
    ensures word { result ≡ number_at block.now (8 * index) }
    ensures words { words.new ≡ (words.old + 1) % 2 ^ 64 }
    ensures ticks { steps.new ≡ steps.old + 1 }
{
    count_word(words, steps);
    word_at(block, index)
}
