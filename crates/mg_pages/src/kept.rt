// What is in memory of the contents.
ghost use Rattle.std.specs.Prelude.{[], ◌≡◌, ◌≤◌, ◌<◌, ◌*◌, ◌++◌, ℕ, IfOk, IfSome, IsSomeAnd, MatchOption, Some, is_some, length, true};
ghost use Rattle.mg_disk.specs.Disk.{Image};
ghost use Rattle.mg_journal.specs.Staged.{staged};
ghost use Rattle.mg_model.specs.Bytes.{number_at};
ghost use Rattle.mg_model.specs.Layout.{body_limit};
ghost use Rattle.mg_model.specs.Replay.{homes_fit, written};
ghost use Rattle.mg_pages.specs.Kept.{AreKept, AreKeptBut, KeepsBesides, KeepsSame, kept_at};

use crate::cache::Cache;
use crate::words::staged_word;
use mg_disk::Block;
use mg_journal::Writes;
use std::alloc::{AllocError, Global};
use std::marker::Model;
use std::mem::swap;

/// Blocks of the contents that are in memory: those that the last commit wrote, where they were staged, and before these the frame
/// blocks in a cache. A block that each commit writes is so copied once a commit, when it is staged.
#[derive(Drop)]
pub(crate) struct CachedBlocks {
    // What the last commit wrote.
    last: Writes,
    // Of a block that the last commit wrote it may have what was there before.
    cache: Cache,
}

impl Model for CachedBlocks {
    ghost use Rattle.std.specs.Prelude.{◌++◌, ℕ, List};

    ghost Value = { List (ℕ × List ℕ) };

    ghost view = { λ k. k.last ++ k.cache };
}

impl CachedBlocks {
    /// None yet.
    pub(crate) fn new(alloc: Global) -> Result<CachedBlocks, AllocError>
        ensures { IfOk result (λ kept. kept ≡ []) }
    {
        let last = Writes::new(alloc)?;
        let cache = Cache::new(alloc)?;
        Ok(CachedBlocks { last, cache })
    }

    /// The word at an index of a block that is kept.
    pub(crate) fn word(&mut self, block: u64, index: u64) -> Option<u64>
        requires { index < 512 }
        ensures word { IfSome result (λ word. IsSomeAnd (kept_at self.old block) (λ bytes. word ≡ number_at bytes (8 * index))) }
        ensures same { KeepsSame self.old self.new }
    {
        match staged_word(&self.last, block, index) {
            Some(word) => Some(word),
            None => self.cache.word(block, index),
        }
    }

    /// The bytes of a block that is kept. It counts as used no more than it did.
    pub(crate) fn held(&self, block: u64) -> Option<&Block>
        ensures { IfSome result (λ bytes. kept_at self.now block ≡ Some bytes.now) }
    {
        match self.last.get(block) {
            Some(bytes) => Some(bytes),
            None => self.cache.held(block),
        }
    }

    /// Stages a copy of a block that is kept, and says whether it is.
    pub(crate) fn stage(&self, block: u64, writes: &mut Writes) -> bool
        requires fewer_than_160_writes { length writes.old < body_limit }
        ensures kept { result ≡ is_some (kept_at self.now block) }
        ensures staged { MatchOption (kept_at self.now block) (writes.new ≡ writes.old) (λ bytes. writes.new ≡ staged writes.old block bytes) }
    {
        match self.last.get(block) {
            Some(bytes) => {
                writes.stage(block, bytes);
                true
            }
            None => self.cache.stage(block, writes),
        }
    }

    /// Keeps a block of the contents.
    pub(crate) fn put(&mut self, block: u64, bytes: &Block)
        ensures { KeepsBesides block bytes.now self.old self.new }
    {
        self.cache.put(block, bytes);
    }

    /// Takes over what a commit wrote, so that nothing is staged. What the commit before wrote, and this one not, goes into the cache
    /// if it is a block from `first` on.
    pub(crate) fn take(&mut self, writes: &mut Writes, first: u64)
        ensures kept { (total : ℕ) (r : Image) → homes_fit total writes.old ≡ true → total ≤ length r → AreKept first r self.old → AreKept first (written r writes.old) self.new }
        ensures empty { writes.new ≡ [] }
    {
        if writes.len() > 0 {
            keep_others(&mut self.cache, &self.last, writes, first);
            swap(&mut self.last, writes);
            writes.clear();
        }
    }
}

// Keeps what the commit before wrote of blocks from `first` on that were not written again.
fn keep_others(cache: &mut Cache, last: &Writes, writes: &Writes, first: u64)
    ensures { (r : Image) → AreKept first r (last.now ++ cache.old) → AreKeptBut writes.now first r cache.new }
{
    for k in 0..last.len() {
        let block = last.home(k);
        if first <= block && writes.get(block).is_none() {
            cache.renew(block, last.body(k));
        }
    }
}
