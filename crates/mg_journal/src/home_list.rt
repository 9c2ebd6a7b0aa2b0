// Blocks in an order, and a quick look for the place of one.
ghost use Rattle.std.specs.Prelude.{◌≡◌, ◌==◌, ◌<◌, ◌≤◌, ◌%◌, [], ◌∷◌, ◌++◌, IfOk, None, length, position, slice_index_or};
ghost use Rattle.mg_model.specs.Layout.{body_limit};

use mg_model::layout::BODY_LIMIT;
use std::alloc::{AllocError, Global};
use std::marker::Model;

/// How many hints there are.
const HINTS: usize = 256;

/// Up to 160 blocks in the order in which they came, and no block twice.
#[derive(Drop)]
pub(crate) struct Homes {
    homes: Vec<u64>,
    // 256 of them, by the lowest eight bits of a block's number: 0 if no block has these bits, else one more than the place of
    // the last block that has them.
    hints: Vec<u8>,
}

impl Model for Homes {
    ghost use Rattle.std.specs.Prelude.{◌≤◌, ℕ, List, vec_capacity};
    ghost use Rattle.mg_model.specs.Layout.{body_limit};
    ghost use Rattle.mg_journal.specs.Hinted.{AreHinted};

    ghost Value = { List ℕ };

    ghost view = { λ h. h.homes.items };

    ghost invariant = { λ h. (body_limit ≤ vec_capacity h.homes) × AreHinted h.homes.items h.hints.items };
}

impl Homes {
    /// No blocks, with room for 160. All memory that they will need is taken here.
    pub(crate) fn new(alloc: Global) -> Result<Homes, AllocError>
        ensures empty { IfOk result (λ homes. homes ≡ []) }
    {
        let homes = Vec::with_capacity(alloc, BODY_LIMIT as usize)?;
        let hints = vec![in alloc; 0; HINTS]?;
        Ok(Homes { homes, hints })
    }

    /// How many blocks there are, 0 to 160.
    pub(crate) fn len(&self) -> usize
        ensures count { result ≡ length self.now }
        ensures at_most_160 { result ≤ body_limit }
    {
        self.homes.len()
    }

    /// Block `k`. They are numbered from 0.
    pub(crate) fn at(&self, k: usize) -> u64
        requires there { k < length self.now }
        ensures home { result ≡ slice_index_or self.now k 0 }
    {
        self.homes[k]
    }

    /// The place of this block. It is found by one look, unless another block with the same lowest eight bits came later.
    pub(crate) fn place_of(&self, block: u64) -> Option<usize>
        ensures { result ≡ position (λ home. home == block) self.now }
    {
        let hint = self.hints[row_of(block)] as usize;
        if hint == 0 {
            return None;
        }
        if self.homes[hint - 1] == block {
            return Some(hint - 1);
        }
        place_among(&self.homes, block)
    }

    /// Adds a block after the others. It takes no memory.
    pub(crate) fn push(&mut self, block: u64)
        requires fewer_than_160 { length self.old < body_limit }
        requires new { position (λ home. home == block) self.old ≡ None }
        ensures added { self.new ≡ self.old ++ block ∷ [] }
    {
        self.homes.push_reserved(block);
        self.hints[row_of(block)] = self.homes.len() as u8;
    }

    /// No blocks.
    pub(crate) fn clear(&mut self)
        ensures { self.new ≡ [] }
    {
        self.homes.clear();
        self.hints.fill(0);
    }
}

// Which hint is for this block.
fn row_of(block: u64) -> usize
    ensures row { result ≡ block % 256 }
    ensures below_256 { result < 256 }
{
    (block % 256) as usize
}

// The first place of this block among these.
fn place_among(homes: &[u64], block: u64) -> Option<usize>
    ensures { result ≡ position (λ home. home == block) homes.now }
{
    homes.iter().position(|home| *home == block)
}
