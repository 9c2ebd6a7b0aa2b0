// The frame blocks that were read or written last.
ghost use Rattle.std.specs.Prelude.{[], ◌≡◌, ◌<◌, ◌*◌, IfOk, IfSome, IsSomeAnd, MatchOption, None, Some, false, is_some, length, true};
ghost use Rattle.mg_journal.specs.Staged.{staged};
ghost use Rattle.mg_model.specs.Bytes.{number_at};
ghost use Rattle.mg_model.specs.Layout.{body_limit};
ghost use Rattle.mg_pages.specs.Kept.{KeepsSame, KeepsThis, kept_at};

use crate::words::word_at;
use lru::LruCache;
use mg_disk::Block;
use mg_journal::Writes;
use std::alloc::{AllocError, Global};
use std::marker::Model;
use std::num::NonZeroUsize;

/// How many blocks are kept at most.
const MOST_KEPT: usize = 256;

/// How many sets the blocks make by their numbers, one after another.
const SETS: usize = 256;

/// Up to 256 blocks of the contents, those that were used last. One that is read is kept, and so is one that is written while there
/// is room. In a full cache one that is written and not kept is kept from its second write on, if no other such block of its set
/// came between: blocks that are written once, as by a copy, push none out, and no bytes are copied for them.
#[derive(Drop)]
pub(crate) struct Cache {
    // In boxes, so that a block which goes out of a full cache is not copied on the way.
    blocks: LruCache<u64, Box<Block>>,
    // The box of the block that went out last. It takes the next one that comes.
    spare: Option<Box<Block>>,
    // Of each set the block that was written last while it was not kept; 0, which is no frame's block, if there is none.
    written: [u64; SETS],
    alloc: Global,
}

impl Model for Cache {
    ghost use Rattle.std.specs.Prelude.{ℕ, List};
    ghost use Rattle.mg_pages.specs.Kept.{shown};

    ghost Value = { List (ℕ × List ℕ) };

    ghost view = { λ c. shown (λ b. b.value) c.blocks.entries };
}

impl Cache {
    /// None yet.
    pub(crate) fn new(alloc: Global) -> Result<Cache, AllocError>
        ensures { IfOk result (λ cache. cache ≡ []) }
    {
        let most = match NonZeroUsize::new(MOST_KEPT) {
            Some(most) => most,
            None => unreachable!(),
        };
        Ok(Cache {
            blocks: LruCache::new(alloc, most)?,
            spare: None,
            written: [0; SETS],
            alloc,
        })
    }

    /// The word at an index of a block that is kept.
    pub(crate) fn word(&mut self, block: u64, index: u64) -> Option<u64>
        requires { index < 512 }
        ensures word { IfSome result (λ word. IsSomeAnd (kept_at self.old block) (λ bytes. word ≡ number_at bytes (8 * index))) }
        ensures same { KeepsSame self.old self.new }
    {
        match self.blocks.get(&block) {
            Some(bytes) => Some(word_at(bytes, index)),
            None => None,
        }
    }

    /// The bytes of a block that is kept. It counts as used no more than it did.
    pub(crate) fn held(&self, block: u64) -> Option<&Block>
        ensures { IfSome result (λ bytes. kept_at self.now block ≡ Some bytes.now) }
    {
        match self.blocks.peek(&block) {
            Some(bytes) => Some(bytes),
            None => None,
        }
    }

    /// Stages a copy of a block that is kept, and says whether it is.
    pub(crate) fn stage(&self, block: u64, writes: &mut Writes) -> bool
        requires fewer_than_160_writes { length writes.old < body_limit }
        ensures kept { result ≡ is_some (kept_at self.now block) }
        ensures staged { MatchOption (kept_at self.now block) (writes.new ≡ writes.old) (λ bytes. writes.new ≡ staged writes.old block bytes) }
    {
        match self.blocks.peek(&block) {
            Some(bytes) => {
                writes.stage(block, bytes);
                true
            }
            None => false,
        }
    }

    /// Keeps a block in place of what was kept of it. If memory is refused, nothing is kept of it.
    pub(crate) fn put(&mut self, block: u64, bytes: &Block)
        ensures { KeepsThis block bytes.now self.old self.new }
    {
        if !self.replace(block, bytes) {
            self.add(block, bytes);
        }
    }

    // Writes bytes in place of what is kept of a block, and says whether anything is.
    fn replace(&mut self, block: u64, bytes: &Block) -> bool
        ensures put { result ≡ true → KeepsThis block bytes.now self.old self.new }
        ensures same { result ≡ false → self.new ≡ self.old }
        ensures none { result ≡ false → kept_at self.old block ≡ None }
    {
        match self.blocks.get_mut(&block) {
            Some(kept) => {
                **kept = *bytes;
                true
            }
            None => false,
        }
    }

    // Keeps a block of which nothing is kept. If memory is refused, nothing is then either.
    fn add(&mut self, block: u64, bytes: &Block)
        requires none { kept_at self.old block ≡ None }
        ensures { KeepsThis block bytes.now self.old self.new }
    {
        let Some(boxed) = self.boxed(bytes) else {
            return;
        };
        match self.blocks.push(block, boxed) {
            Ok(Some((_, gone))) => self.spare = Some(gone),
            Ok(None) => {}
            Err(_) => {}
        }
    }

    // A box with these bytes: the spare one, if there is one. None if memory is refused.
    fn boxed(&mut self, bytes: &Block) -> Option<Box<Block>>
        ensures holds { IfSome result (λ boxed. boxed.value ≡ bytes.now) }
        ensures same { self.new ≡ self.old }
    {
        match self.spare.take() {
            Some(mut spare) => {
                *spare = *bytes;
                Some(spare)
            }
            None => match Box::new(self.alloc, *bytes) {
                Ok(boxed) => Some(boxed),
                Err(_) => None,
            },
        }
    }

    /// Stores what was written to a block in place of what was kept of it. If nothing was, it is kept if there is room for it or it
    /// was written before. If memory is refused, nothing is kept of it.
    pub(crate) fn renew(&mut self, block: u64, bytes: &Block)
        ensures { KeepsThis block bytes.now self.old self.new }
    {
        if !self.replace(block, bytes) && (self.has_room() || self.was_written(block)) {
            self.add(block, bytes);
        }
    }

    // Whether one more is kept and none goes out for it.
    fn has_room(&self) -> bool {
        self.blocks.len() < MOST_KEPT
    }

    // Whether this block was the last of its set for which that was asked. It is now.
    fn was_written(&mut self, block: u64) -> bool
        ensures { self.new ≡ self.old }
    {
        let set = (block % SETS as u64) as usize;
        let was = self.written[set] == block;
        self.written[set] = block;
        was
    }
}
