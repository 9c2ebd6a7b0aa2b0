// Writes that wait for a commit.
ghost use Rattle.std.specs.Prelude.{◌≡◌, ◌==◌, ◌<◌, ◌≤◌, ◌⊎◌, ◌+◌, [], ◌∷◌, ◌++◌, IfOk, IfSome, IsSome, MatchOption, None, Some, drop, is_some, length, position, slice_set, true};
ghost use Rattle.std.specs.List.{splice};
ghost use Rattle.mg_model.specs.Abbreviations.{word_bytes};
ghost use Rattle.mg_model.specs.Layout.{block_size, body_limit};
ghost use Rattle.mg_journal.specs.Staged.{IsRunOf, are_once, bytes_of, goes_to, home_at, staged, waiting};

use crate::home_list::Homes;
use crate::index::{add_home, clear_index};
use mg_bytes::put_number;
use mg_disk::{BLOCK_SIZE, Block};
use mg_model::layout::BODY_LIMIT;
use std::alloc::{AllocError, Global};
use std::marker::Model;

/// How many writes a commit takes at most.
pub(crate) const MOST_WRITES: usize = BODY_LIMIT as usize;

/// Up to 160 blocks that wait for a commit, each with what will be written there. No block is there twice.
#[derive(Drop)]
pub struct Writes {
    // The blocks that are to be written.
    homes: Homes,
    // The index of a segment that has these homes, and after it what will be written at each.
    blocks: Vec<Block>,
}

impl Model for Writes {
    ghost use Rattle.std.specs.Prelude.{◌≤◌, ◌+◌, ℕ, List, vec_capacity};
    ghost use Rattle.mg_model.specs.Layout.{body_limit};
    ghost use Rattle.mg_journal.specs.Staged.{AreHeld, paired};

    ghost Value = { List (ℕ × List ℕ) };

    ghost view = { λ w. paired w.homes w.blocks.items 1 };

    ghost invariant = { λ w. (body_limit + 1 ≤ vec_capacity w.blocks) × AreHeld w.homes w.blocks.items };
}

impl Writes {
    /// No writes, with room for 160. All memory that they will need is taken here.
    pub fn new(alloc: Global) -> Result<Writes, AllocError>
        ensures empty { IfOk result (λ writes. writes ≡ []) }
    {
        let homes = Homes::new(alloc)?;
        let mut blocks = Vec::with_capacity(alloc, MOST_WRITES + 1)?;
        let mut index = [0; BLOCK_SIZE];
        clear_index(&mut index);
        blocks.push(index)?;
        Ok(Writes { homes, blocks })
    }

    /// How many blocks wait, 0 to 160.
    #[tactic(auto, using(crate::proofs::Pairs::pairs_count))]
    pub fn len(&self) -> usize
        ensures count { result ≡ length self.now }
        ensures at_most_160 { result ≤ body_limit }
        ensures once { are_once self.now ≡ true }
    {
        self.homes.len()
    }

    // The place of the write to this block.
    fn place_of(&self, block: u64) -> Option<usize>
        ensures place { result ≡ position (goes_to block) self.now }
        ensures waits { MatchOption result (waiting self.now block ≡ None) (λ place. (place < length self.now) × (waiting self.now block ≡ Some (bytes_of self.now place))) }
    {
        self.homes.place_of(block)
    }

    /// The block that write `k` goes to. They are numbered from 0, in the order in which their blocks were first staged.
    pub fn home(&self, k: usize) -> u64
        requires there { k < length self.now }
        ensures home { result ≡ home_at self.now k }
    {
        self.homes.at(k)
    }

    /// What write `k` writes there, numbered as for [`Writes::home`].
    pub fn body(&self, k: usize) -> &Block
        requires there { k < length self.now }
        ensures body { result.now ≡ bytes_of self.now k }
    {
        &self.blocks[k + 1]
    }

    /// The index of a segment that holds these writes, and after it what they write, in their order.
    pub(crate) fn run(&self) -> &[Block]
        ensures run { IsRunOf self.now result.now }
    {
        &self.blocks
    }

    /// What waits for this block.
    pub fn get(&self, block: u64) -> Option<&Block>
        ensures { MatchOption result (waiting self.now block ≡ None) (λ bytes. waiting self.now block ≡ Some bytes.now) }
    {
        match self.place_of(block) {
            Some(place) => Some(self.body(place)),
            None => None,
        }
    }

    /// Stages a write, in place of the one to that block if there is one. It takes no memory.
    pub fn stage(&mut self, block: u64, from: &Block)
        requires there_or_fewer_than_160 { IsSome (position (goes_to block) self.old) ⊎ (length self.old < body_limit) }
        ensures { self.new ≡ staged self.old block from.now }
    {
        match self.place_of(block) {
            Some(place) => self.replace(place, from),
            None => self.add(block, from),
        }
    }

    /// Stages a write of a block that begins with these bytes and continues as `rest` does, in place of the write to that block
    /// if there is one. It takes no memory.
    pub fn stage_over(&mut self, block: u64, first: &[u8], rest: &Block)
        requires there_or_fewer_than_160 { IsSome (position (goes_to block) self.old) ⊎ (length self.old < body_limit) }
        requires within { length first.now ≤ block_size }
        ensures { self.new ≡ staged self.old block (first.now ++ drop (length first.now) rest.now) }
    {
        match self.place_of(block) {
            Some(place) => {
                self.replace(place, rest);
                self.put_first_into(place, first);
            }
            None => {
                let last = self.len();
                self.add(block, rest);
                self.put_first_into(last, first);
            }
        }
    }

    /// Writes a word at a byte offset, 0 to 4,088, into what waits for this block, and says whether anything does.
    pub fn put(&mut self, block: u64, at: usize, word: u64) -> bool
        requires within { at + 8 ≤ block_size }
        ensures waits { result ≡ is_some (waiting self.old block) }
        ensures put { MatchOption (waiting self.old block) (self.new ≡ self.old) (λ bytes. self.new ≡ staged self.old block (splice bytes at (at + 8) (word_bytes word))) }
        ensures whole { IfSome (waiting self.old block) (λ bytes. length bytes ≡ block_size) }
    {
        match self.place_of(block) {
            Some(place) => {
                self.put_into(place, at, word);
                true
            }
            None => false,
        }
    }

    // Writes other bytes into the k-th write.
    fn replace(&mut self, k: usize, from: &Block)
        requires there { k < length self.old }
        ensures { self.new ≡ slice_set self.old k (home_at self.old k, from.now) }
    {
        self.blocks[k + 1] = *from;
    }

    // Writes a word at an offset into the k-th write.
    fn put_into(&mut self, k: usize, at: usize, word: u64)
        requires there { k < length self.old }
        requires within { at + 8 ≤ block_size }
        ensures put { self.new ≡ slice_set self.old k (home_at self.old k, splice (bytes_of self.old k) at (at + 8) (word_bytes word)) }
        ensures whole { length (bytes_of self.old k) ≡ block_size }
    {
        put_number(&mut self.blocks[k + 1], at, word);
    }

    // Writes other bytes over the first ones of the k-th write.
    fn put_first_into(&mut self, k: usize, first: &[u8])
        requires there { k < length self.old }
        requires within { length first.now ≤ block_size }
        ensures { self.new ≡ slice_set self.old k (home_at self.old k, first.now ++ drop (length first.now) (bytes_of self.old k)) }
    {
        put_first(&mut self.blocks[k + 1], first);
    }

    // Stages a write after the others.
    fn add(&mut self, block: u64, from: &Block)
        requires fewer_than_160 { length self.old < body_limit }
        requires new { waiting self.old block ≡ None }
        ensures { self.new ≡ self.old ++ (block, from.now) ∷ [] }
    {
        add_home(&mut self.blocks[0], self.homes.len(), block);
        self.homes.push(block);
        self.blocks.push_reserved(*from);
    }

    /// Nothing waits.
    pub fn clear(&mut self)
        ensures { self.new ≡ [] }
    {
        self.homes.clear();
        self.blocks.truncate(1);
        clear_index(&mut self.blocks[0]);
    }
}

// Writes other bytes over the first ones of a block.
fn put_first(block: &mut Block, first: &[u8])
    requires { length first.now ≤ block_size }
    ensures { block.new ≡ first.now ++ drop (length first.now) block.old }
{
    block[..first.len()].copy_from_slice(first);
}
