// The blocks of a volume: those of its journal's contents, those that wait for a commit over them, and frame blocks that are
// kept in memory.
ghost use Rattle.std.specs.Prelude.{[], ◌≡◌, ◌≢◌, ◌⊎◌, ◌≤◌, ◌<◌, ◌*◌, ℕ, List, IfOk, IsOk, IsSome, MatchOption, MatchResult, None, OnErr, OnOk, Some, ◌+◌, ◌++◌, is_ok, is_some, length, replicate, slice_set, true};
ghost use Rattle.std.specs.List.{position, splice};
ghost use Rattle.std.specs.Option.{ForSome};
ghost use Rattle.mg_disk.specs.Disk.{block_at};
ghost use Rattle.mg_disk.specs.Stops.{DiskCalls, Leaves};
ghost use Rattle.mg_disk.specs.Reads.{Becomes, OnlyReads};
ghost use Rattle.mg_journal.specs.Staged.{are_once, goes_to, staged, waiting};
ghost use Rattle.mg_journal.specs.Standing.{CanCommit, IsCommitted, OldOrNew, Stands, is_live, total_of};
ghost use Rattle.mg_model.specs.Abbreviations.{word_bytes};
ghost use Rattle.mg_model.specs.Bytes.{block_words, number_at, padded_to};
ghost use Rattle.mg_model.specs.Layout.{block_size, body_limit};
ghost use Rattle.mg_model.specs.Replay.{homes_fit};
ghost use Rattle.mg_pages.specs.Held.{with_writes};
ghost use Rattle.mg_pages.specs.Kept.{AreKept, kept_at};
ghost use Rattle.mg_pages.specs.Meaning.{replayed};
ghost use Rattle.mg_pages.specs.Parts.{LooksAt, StagesBlock, TakesOver, coming_of};

use crate::blank::Blank;
use crate::kept::CachedBlocks;
use crate::words::{staged_word, word_at};
use mg_disk::{BLOCK_SIZE, Block, Disk};
use mg_faults::Failed;
use mg_journal::{Store, Writes};
use std::alloc::{AllocError, Global};

/// The blocks of a volume, with what is staged.
#[derive(Drop)]
pub(crate) struct Blocks {
    store: Store,
    writes: Writes,
    kept: CachedBlocks,
    // The zeros after the bytes that a block begins with.
    blank: Blank,
}

impl Blocks {
    /// The blocks of this journal's volume, with nothing staged.
    pub(crate) fn open(alloc: Global, store: Store) -> Result<Blocks, AllocError>
        ensures store { IfOk result (λ b. b.store ≡ store) }
        ensures none { IfOk result (λ b. b.writes ≡ []) }
        ensures bare { IfOk result (λ b. b.kept ≡ []) }
    {
        let writes = Writes::new(alloc)?;
        let kept = CachedBlocks::new(alloc)?;
        Ok(Blocks {
            store,
            writes,
            kept,
            blank: Blank::new(),
        })
    }

    /// How many blocks are staged.
    pub(crate) fn staged(&self) -> usize
        ensures count { result ≡ length self.now.writes }
        ensures at_most_160 { result ≤ body_limit }
    {
        self.writes.len()
    }

    /// Whether no commit has failed.
    pub(crate) fn live(&self) -> bool
        ensures { result ≡ is_live self.now.store }
    {
        self.store.live()
    }

    /// Stages a block, in place of what was staged of it.
    pub(crate) fn stage(&mut self, block: u64, from: &Block)
        requires there_or_fewer_than_160 { IsSome (position (goes_to block) self.old.writes) ⊎ (length self.old.writes < body_limit) }
        ensures { self.new ≡ with_writes self.old (staged self.old.writes block from.now) }
    {
        self.writes.stage(block, from);
    }

    /// Stages a block that begins with these bytes and has zeros after them, in place of what was staged of it.
    pub(crate) fn stage_start(&mut self, block: u64, start: &[u8])
        requires there_or_fewer_than_160 { IsSome (position (goes_to block) self.old.writes) ⊎ (length self.old.writes < body_limit) }
        requires within { length start.now ≤ block_size }
        ensures { self.new ≡ with_writes self.old (staged self.old.writes block (padded_to block_size start.now)) }
    {
        self.writes.stage_over(block, start, self.blank.zeros());
    }

    /// Writes a word at a byte offset into a block, if it is staged, and says whether it is.
    pub(crate) fn put(&mut self, block: u64, at: usize, word: u64) -> bool
        requires within { at + 8 ≤ block_size }
        ensures waits { result ≡ is_some (waiting self.old.writes block) }
        ensures put { MatchOption (waiting self.old.writes block) (self.new ≡ self.old) (λ bytes. self.new ≡ with_writes self.old (staged self.old.writes block (splice bytes at (at + 8) (word_bytes word)))) }
    {
        self.writes.put(block, at, word)
    }

    /// The word at an index of a frame's block as it will be. A block that is staged or kept is not copied.
    pub(crate) fn word<D: Disk>(
        &mut self,
        disk: &mut D,
        block: u64,
        index: u64,
    ) -> Result<u64, Failed>
        requires stands { Stands D.Disk self.old.store disk.old }
        requires place { block < total_of self.old.store }
        requires index { index < 512 }
        requires once { are_once self.old.writes ≡ true }
        ensures word { IfOk result (λ word. ForSome (D.seen disk.old) (λ image. (first : ℕ) → first ≤ block → AreKept first (replayed (total_of self.old.store) image) self.old.kept
            → word ≡ number_at (block_at (coming_of self.old.store self.old.writes image) block) (8 * index))) }
        ensures staged { self.new.writes ≡ self.old.writes }
        ensures looks { LooksAt D.Disk self.old self.new disk.old disk.new result }
    {
        match staged_word(&self.writes, block, index) {
            Some(word) => Ok(word),
            None => match self.kept.word(block, index) {
                Some(word) => Ok(word),
                None => self.read_word(disk, block, index),
            },
        }
    }

    /// The bytes of a block as it will be, if it is staged or kept. They are not copied.
    pub(crate) fn held(&self, block: u64) -> Option<&Block>
        ensures { MatchOption result (waiting self.now.writes block ≡ None) (λ bytes. kept_at (self.now.writes ++ self.now.kept) block ≡ Some bytes.now) }
    {
        match self.writes.get(block) {
            Some(bytes) => Some(bytes),
            None => self.kept.held(block),
        }
    }

    /// A block of zeros.
    pub(crate) fn zeros(&self) -> &Block
        ensures { result.now ≡ replicate block_size 0 }
    {
        self.blank.zeros()
    }

    // The word at an index of a block of the contents, which is kept then.
    fn read_word<D: Disk>(&mut self, disk: &mut D, block: u64, index: u64) -> Result<u64, Failed>
        requires stands { Stands D.Disk self.old.store disk.old }
        requires place { block < total_of self.old.store }
        requires index { index < 512 }
        ensures word { IfOk result (λ word. ForSome (D.seen disk.old) (λ image. word ≡ number_at (block_at (replayed (total_of self.old.store) image) block) (8 * index))) }
        ensures staged { self.new.writes ≡ self.old.writes }
        ensures looks { LooksAt D.Disk self.old self.new disk.old disk.new result }
    {
        let mut bytes = [0; BLOCK_SIZE];
        match self.read(disk, block, &mut bytes) {
            Ok(()) => Ok(word_at(&bytes, index)),
            Err(Failed) => Err(Failed),
        }
    }

    /// Gives a block of the contents, and keeps it. A read that fails changes nothing.
    pub(crate) fn read<D: Disk>(
        &mut self,
        disk: &mut D,
        block: u64,
        bytes: &mut Block,
    ) -> Result<(), Failed>
        requires stands { Stands D.Disk self.old.store disk.old }
        requires place { block < total_of self.old.store }
        ensures block { OnOk result (ForSome (D.seen disk.old) (λ image. bytes.new ≡ block_at (replayed (total_of self.old.store) image) block)) }
        ensures staged { self.new.writes ≡ self.old.writes }
        ensures looks { LooksAt D.Disk self.old self.new disk.old disk.new result }
    {
        match self.store.read(disk, block, bytes) {
            Ok(()) => {
                self.kept.put(block, bytes);
                Ok(())
            }
            Err(fault) => Err(fault),
        }
    }

    /// Gives a block of the contents, which is not kept.
    pub(crate) fn contents<D: Disk>(
        &self,
        disk: &mut D,
        block: u64,
        bytes: &mut Block,
    ) -> Result<(), Failed>
        requires stands { Stands D.Disk self.now.store disk.old }
        requires place { block < total_of self.now.store }
        ensures block { OnOk result (ForSome (D.seen disk.old) (λ image. bytes.new ≡ block_at (replayed (total_of self.now.store) image) block)) }
        ensures stands { Stands D.Disk self.now.store disk.new }
        ensures reads { OnlyReads D.Disk disk.old disk.new result }
    {
        self.store.read(disk, block, bytes)
    }

    /// Stages a frame's block with one word changed. [`Failed`] comes from a read, before anything is staged.
    pub(crate) fn set_word<D: Disk>(
        &mut self,
        disk: &mut D,
        block: u64,
        index: u64,
        value: u64,
    ) -> Result<(), Failed>
        requires stands { Stands D.Disk self.old.store disk.old }
        requires place { block < total_of self.old.store }
        requires index { index < 512 }
        requires once { are_once self.old.writes ≡ true }
        requires fewer_than_160_writes { length self.old.writes < body_limit }
        ensures staged { OnOk result (StagesBlock self.old.writes self.new.writes block (λ bytes. ForSome (D.seen disk.old) (λ image. (first : ℕ) → first ≤ block → AreKept first (replayed (total_of self.old.store) image) self.old.kept
            → block_words bytes ≡ slice_set (block_words (block_at (coming_of self.old.store self.old.writes image) block)) index value))) }
        ensures failed { OnErr result (self.new.writes ≡ self.old.writes) }
        ensures looks { LooksAt D.Disk self.old self.new disk.old disk.new result }
    {
        if put_staged(&mut self.writes, block, index, value) {
            return Ok(());
        }
        match self.stage_whole(disk, block) {
            Ok(()) => {
                let _there = put_staged(&mut self.writes, block, index, value);
                Ok(())
            }
            Err(Failed) => Err(Failed),
        }
    }

    // Stages a block of the contents as it is.
    fn stage_whole<D: Disk>(&mut self, disk: &mut D, block: u64) -> Result<(), Failed>
        requires stands { Stands D.Disk self.old.store disk.old }
        requires place { block < total_of self.old.store }
        requires fewer_than_160_writes { length self.old.writes < body_limit }
        ensures staged { OnOk result (StagesBlock self.old.writes self.new.writes block (λ bytes. ForSome (D.seen disk.old) (λ image. (first : ℕ) → first ≤ block → AreKept first (replayed (total_of self.old.store) image) self.old.kept
            → bytes ≡ block_at (replayed (total_of self.old.store) image) block))) }
        ensures failed { OnErr result (self.new.writes ≡ self.old.writes) }
        ensures looks { LooksAt D.Disk self.old self.new disk.old disk.new result }
    {
        if self.kept.stage(block, &mut self.writes) {
            Ok(())
        } else {
            self.stage_read(disk, block)
        }
    }

    // Reads a block of the contents and stages it. It is not kept yet.
    fn stage_read<D: Disk>(&mut self, disk: &mut D, block: u64) -> Result<(), Failed>
        requires stands { Stands D.Disk self.old.store disk.old }
        requires place { block < total_of self.old.store }
        requires fewer_than_160_writes { length self.old.writes < body_limit }
        ensures staged { OnOk result (StagesBlock self.old.writes self.new.writes block (λ bytes. ForSome (D.seen disk.old) (λ image. bytes ≡ block_at (replayed (total_of self.old.store) image) block))) }
        ensures failed { OnErr result (self.new.writes ≡ self.old.writes) }
        ensures looks { LooksAt D.Disk self.old self.new disk.old disk.new result }
    {
        let mut bytes = [0; BLOCK_SIZE];
        match self.contents(disk, block, &mut bytes) {
            Ok(()) => {
                self.writes.stage(block, &bytes);
                Ok(())
            }
            Err(Failed) => Err(Failed),
        }
    }

    /// Makes what is staged durable. Then nothing is staged, and of each block from `first` on that was, what is kept is what was
    /// written.
    pub(crate) fn commit<D: Disk>(&mut self, disk: &mut D, first: u64) -> Result<(), Failed>
        requires ready { CanCommit D.Disk self.old.store disk.old }
        requires homes { homes_fit (total_of self.old.store) self.old.writes ≡ true }
        ensures any_moment { ForSome (D.seen disk.old) (λ image. Leaves D.Disk disk.old disk.new (OldOrNew (total_of self.old.store) self.old.writes image)) }
        ensures done { OnOk result (Becomes (IsCommitted (total_of self.old.store) self.old.writes) (D.seen disk.old) (D.seen disk.new)) }
        ensures takes { MatchResult result (λ _. TakesOver D.Disk first self.old self.new disk.new) (λ _. self.new.writes ≡ self.old.writes) }
        ensures live { is_live self.new.store ≡ is_ok result }
        ensures total { total_of self.new.store ≡ total_of self.old.store }
        ensures no_call { self.old.writes ≡ [] → (disk.new ≡ disk.old) × IsOk result }
        ensures calls { DiskCalls D.Disk disk.old disk.new result }
    {
        match self.store.commit(disk, &self.writes) {
            Ok(()) => {
                self.kept.take(&mut self.writes, first);
                Ok(())
            }
            Err(Failed) => Err(Failed),
        }
    }
}

// Writes a word into a block in place, if it is staged, and says whether it is.
fn put_staged(writes: &mut Writes, block: u64, index: u64, value: u64) -> bool
    requires { index < 512 }
    ensures waits { result ≡ is_some (waiting writes.old block) }
    ensures put { MatchOption (waiting writes.old block) (writes.new ≡ writes.old) (λ old. StagesBlock writes.old writes.new block (λ bytes.
        block_words bytes ≡ slice_set (block_words old) index value)) }
{
    writes.put(block, 8 * index as usize, value)
}
