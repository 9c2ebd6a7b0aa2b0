// The pages of a volume, and what is staged.
ghost use Rattle.std.specs.Prelude.{[], List, ◌≡◌, ◌≢◌, ◌⊎◌, ◌≤◌, ◌<◌, ◌+◌, ◌-◌, ℕ, true, false, IfOk, IfSome, IsOk, Ok, MatchOption, MatchResult, None, OnErr, OnOk, is_some, length, replicate, slice_index};
ghost use Rattle.std.specs.List.{splice};
ghost use Rattle.std.specs.Option.{ForSome};
ghost use Rattle.mg_disk.specs.Disk.{block_at};
ghost use Rattle.mg_disk.specs.Stops.{DiskCalls, Leaves};
ghost use Rattle.mg_disk.specs.Reads.{Becomes, OnlyReads};
ghost use Rattle.mg_journal.specs.Contents.{SameContents};
ghost use Rattle.mg_journal.specs.Standing as journal;
ghost use Rattle.mg_model.specs.Abbreviations.{table_of, word_bytes};
ghost use Rattle.mg_model.specs.Bytes.{are_zeros, block_words, padded_to};
ghost use Rattle.mg_model.specs.Layout.{block_size, body_limit, first_frame};
ghost use Rattle.mg_model.specs.Tests.{all_distinct};
ghost use Rattle.mg_model.specs.Volume.{bound_pages};
ghost use Rattle.mg_pages.specs.Committing.{HasContents};
ghost use Rattle.mg_pages.specs.Held.{HasFrames, IsSound};
ghost use Rattle.mg_pages.specs.Loading.{HoldFirstEntries};
ghost use Rattle.mg_pages.specs.Pairs.{ArePlaces, IsNextPair, words_looked_at};

use crate::blocks::Blocks;
use crate::coming::page_word;
use crate::counting::count_word;
use crate::loading::load_pages;
use crate::near::Near;
use crate::pairs::next_pair;
use crate::releasing::release_pages;
use crate::storing::store_word;
use crate::table::{first_block, frame_block};
use mg_bytes::Geometry;
use mg_disk::{BLOCK_SIZE, Block, Disk};
use mg_faults::Failed;
use mg_frames::Frames;
use mg_journal::Store;
use mg_model::Steps;
use std::alloc::{AllocError, Global};
use std::sync::ledger::Ledger;

/// The pages of a volume, with what is staged.
#[derive(Drop)]
pub struct Pages {
    blocks: Blocks,
    frames: Frames,
    near: Near,
    count: u64,
    ghost sound: { IsSound blocks.store.total frames blocks.writes },
}

#[tactic(auto, unfolding(crate::specs::Meaning::total_of, crate::specs::Meaning::store_of, crate::specs::Meaning::frame_count, crate::specs::Meaning::table_in, crate::specs::Meaning::coming, crate::specs::Meaning::staged_in, crate::specs::Meaning::staged_of, crate::specs::Meaning::is_staged, crate::specs::Meaning::waiting_in, crate::specs::Meaning::kept_in, crate::specs::Meaning::is_live, crate::specs::Meaning::words_in))]
impl Pages {
    ghost use Rattle.mg_pages.specs.Meaning.{AreMade, CanCommit, CountsNone, CountsOne, CountsSome, HasTable, IsBare, IsCommitted, IsKept, IsRowBlock, IsSpelledBy, Keeps, OnlyBinds, Reads, Releases, Restages, SamePages, SameShape, ServesPage, SetsWord, SpellsTable, StagesBlock, StagesMore, StandsOn, Unbinds, coming, frame_count, is_bound, is_live, is_staged, page_now, replayed, staged_of, store_of, table_in, total_of, waiting_in, words_in};

    /// The pages of a volume with this journal and these entries of its frame table, one a frame, 16 to 65,536 of them: the
    /// page that the frame holds, or 0. No page occurs twice. All memory that they will need is taken here.
    pub fn open(alloc: Global, store: Store, entries: Vec<u64>) -> Result<Pages, AllocError>
        requires frames { HasFrames (journal.total_of store) (length entries.items) }
        requires distinct { all_distinct (bound_pages entries.items) ≡ true }
        ensures made { IfOk result (AreMade store (length entries.items)) }
        ensures table { IfOk result (λ p. table_in p ≡ entries.items) }
        ensures spelled { IfOk result (λ p. (image : List (List ℕ)) → journal.IsFitting store image → journal.total_of store ≤ length image
            → HasTable entries.items (replayed (journal.total_of store) image) → IsSpelledBy p image) }
    {
        let frames = match Frames::of(alloc, entries)? {
            Some(frames) => frames,
            None => unreachable!(),
        };
        let blocks = Blocks::open(alloc, store)?;
        Ok(Pages {
            blocks,
            frames,
            near: Near::new(),
            count: 0,
        })
    }

    /// The pages of a volume with this journal, and with the places of a volume of 16 to 65,536 frames ([`Geometry::of`]). No page
    /// is bound: [`Pages::load_table`] binds those of the frame table. All memory that they will need is taken here.
    ///
    /// If the entries of the frame table are at hand already, [`Pages::open`] makes the same in one step, and the table is read
    /// once.
    pub fn new(alloc: Global, store: Store, geometry: Geometry) -> Result<Pages, AllocError>
        requires frames { HasFrames geometry.total (geometry.total - geometry.first_frame) }
        requires total { journal.total_of store ≡ geometry.total }
        ensures made { IfOk result (AreMade store (geometry.total - geometry.first_frame)) }
        ensures unbound { IfOk result (λ p. are_zeros (table_in p) ≡ true) }
    {
        let frames = Frames::new(alloc, geometry.total - geometry.first_frame)?;
        let blocks = Blocks::open(alloc, store)?;
        Ok(Pages {
            blocks,
            frames,
            near: Near::new(),
            count: 0,
        })
    }

    /// Binds the pages that the frame table of the disk's contents has, one an entry, to frames of which none is bound. An entry
    /// whose page an earlier one has is passed over, so if no page occurs twice, as in a volume, the whole table is bound.
    /// [`Failed`] comes only if a call of the disk failed; some pages may be bound then, and nothing else has changed. If the
    /// table is one of a volume, and nothing was staged since [`Pages::new`], the pages stand on the disk after Ok.
    pub fn load_table<D: Disk>(&mut self, disk: &mut D) -> Result<(), Failed>
        requires unbound { are_zeros (table_in self.old) ≡ true }
        requires stands { journal.Stands D.Disk (store_of self.old) disk.old }
        ensures first_entries { OnOk result (ForSome (D.seen disk.old) (λ image. HoldFirstEntries (table_of (replayed (total_of self.old) image) (frame_count self.old)) (table_in self.new))) }
        ensures table { OnOk result (ForSome (D.seen disk.old) (λ image. all_distinct (bound_pages (table_of (replayed (total_of self.old) image) (frame_count self.old))) ≡ true → table_in self.new ≡ table_of (replayed (total_of self.old) image) (frame_count self.old))) }
        ensures stands { OnOk result (IsBare self.old → ForSome (D.seen disk.old) (λ image. SpellsTable (frame_count self.old) (replayed (total_of self.old) image)) → StandsOn D.Disk self.new disk.new) }
        ensures binds { OnlyBinds self.old self.new }
        ensures reads { OnlyReads D.Disk disk.old disk.new result }
    {
        let frames = &mut self.frames;
        let loaded = load_pages(&self.blocks, frames, disk);
        // This says that no page has two frames.
        frames.len();
        loaded
    }

    /// The page that a frame holds, 0 if it is free.
    pub fn page_at(&self, frame: u64) -> u64
        requires { frame < frame_count self.now }
        ensures { result ≡ slice_index (table_in self.now) frame }
    {
        self.frames.page_at(frame)
    }

    /// Unbinds the pages of a range: they read as zeros. At most 32 blocks may be staged before, and at most 128 more are then.
    pub fn release(&mut self, first: u64, pages: u64)
        requires { staged_of self.old ≤ 32 }
        ensures released { (image : List (List ℕ)) → Releases self.old self.new image first pages }
        ensures spelled { (image : List (List ℕ)) → IsSpelledBy self.old image → IsSpelledBy self.new image }
        ensures unbinds { Unbinds first pages self.old self.new }
        ensures shape { SameShape self.old self.new }
        ensures staged { StagesMore 128 self.old self.new }
        ensures words { words_in self.new ≡ words_in self.old }
    {
        release_pages(&mut self.blocks, &mut self.frames, first, pages);
    }

    /// The word at an index of a page, below 512: the staged one, else that of the volume, else 0. Page 0 is no page: its words are
    /// 0, and neither the disk nor the table is read for them. [`Failed`] comes only if a call of the disk failed, and changes
    /// nothing. Ok counts one word, here and in `steps`.
    pub fn word<D: Disk, L: Ledger>(
        &mut self,
        disk: &mut D,
        page: u64,
        index: u64,
        steps: &mut Steps<L>,
    ) -> Result<u64, Failed>
        requires stands { page ≢ 0 → StandsOn D.Disk self.old disk.old }
        requires index { index < 512 }
        ensures word { page ≢ 0 → IfOk result (λ word. ForSome (D.seen disk.old) (λ image. word ≡ slice_index (page_now self.old image page) index)) }
        ensures no_page { page ≡ 0 → result ≡ Ok 0 }
        ensures keeps { Keeps self.old self.new }
        ensures stands { StandsOn D.Disk self.old disk.old → StandsOn D.Disk self.new disk.new }
        ensures reads { OnlyReads D.Disk disk.old disk.new result }
        ensures counts { MatchResult result (λ _. CountsOne self.old self.new steps.old steps.new) (λ _. CountsNone self.old self.new steps.old steps.new) }
    {
        if page == 0 {
            count_word(&mut self.count, steps);
            return Ok(0);
        }
        self.page_word(disk, page, index, steps)
    }

    /// As [`Pages::word`], for a page that is not 0, as is each page in an object: this is not tested here.
    pub fn page_word<D: Disk, L: Ledger>(
        &mut self,
        disk: &mut D,
        page: u64,
        index: u64,
        steps: &mut Steps<L>,
    ) -> Result<u64, Failed>
        requires stands { StandsOn D.Disk self.old disk.old }
        requires page { page ≢ 0 }
        requires index { index < 512 }
        ensures word { IfOk result (λ word. ForSome (D.seen disk.old) (λ image. word ≡ slice_index (page_now self.old image page) index)) }
        ensures looks { Reads D.Disk self.old self.new disk.old disk.new result }
        ensures counts { MatchResult result (λ _. CountsOne self.old self.new steps.old steps.new) (λ _. CountsNone self.old self.new steps.old steps.new) }
    {
        match page_word(
            &mut self.blocks,
            &self.frames,
            &mut self.near,
            disk,
            page,
            index,
        ) {
            Ok(word) => {
                count_word(&mut self.count, steps);
                Ok(word)
            }
            Err(Failed) => Err(Failed),
        }
    }

    /// The first of the pairs of a page's words from place `from` on, and before place `count`, whose first word is `first`: its
    /// place and its second word. Pair j is words 2 + 2 * j and 3 + 2 * j. [`Failed`] comes only if a call of the disk failed, and
    /// changes nothing. Ok counts each word that is looked at, here and in `steps`. The page is not 0, as is each page in an object.
    pub fn next_pair<D: Disk, L: Ledger>(
        &mut self,
        disk: &mut D,
        page: u64,
        from: u64,
        count: u64,
        first: u64,
        steps: &mut Steps<L>,
    ) -> Result<Option<(u64, u64)>, Failed>
        requires stands { StandsOn D.Disk self.old disk.old }
        requires page { page ≢ 0 }
        requires pairs { ArePlaces from count }
        ensures found { IfOk result (λ found. ForSome (D.seen disk.old) (λ image. IsNextPair (λ index. slice_index (page_now self.old image page) index) from count first found)) }
        ensures place { IfOk result (λ found. IfSome found (λ pair. (from ≤ pair.0) × (pair.0 < count))) }
        ensures looks { Reads D.Disk self.old self.new disk.old disk.new result }
        ensures counts { MatchResult result (λ found. CountsSome (words_looked_at from count found) self.old self.new steps.old steps.new) (λ _. CountsNone self.old self.new steps.old steps.new) }
    {
        let block = match self.near.frame_of(&self.frames, page) {
            Some(frame) => frame_block(self.frames.len(), frame),
            None => {
                let zeros = self.blocks.zeros();
                return Ok(next_pair(zeros, from, count, first, &mut self.count, steps));
            }
        };
        match self.blocks.held(block) {
            Some(bytes) => Ok(next_pair(bytes, from, count, first, &mut self.count, steps)),
            None => self.read_pair(disk, block, from, count, first, steps),
        }
    }

    /// Writes a word at an index of a page, below 512. The first store to a page binds the lowest free frame, which begins
    /// with zeros. [`Failed`] comes only if a call of the disk failed, and changes nothing. Ok counts one word, here and
    /// in `steps`.
    pub fn set_word<D: Disk, L: Ledger>(
        &mut self,
        disk: &mut D,
        page: u64,
        index: u64,
        value: u64,
        steps: &mut Steps<L>,
    ) -> Result<(), Failed>
        requires stands { StandsOn D.Disk self.old disk.old }
        requires page { page ≢ 0 }
        requires frame { (is_bound self.old page ≡ true) ⊎ (is_bound self.old 0 ≡ true) }
        requires index { index < 512 }
        requires at_most_158_staged { staged_of self.old ≤ 158 }
        ensures sets { OnOk result (ForSome (D.seen disk.old) (λ image. SetsWord self.old self.new image page index value)) }
        ensures failed { OnErr result (Keeps self.old self.new) }
        ensures serves { ServesPage page D.Disk self.old self.new disk.old disk.new result }
        ensures counts { MatchResult result (λ _. CountsOne self.old self.new steps.old steps.new) (λ _. CountsNone self.old self.new steps.old steps.new) }
    {
        match store_word(
            &mut self.blocks,
            &mut self.frames,
            &mut self.near,
            disk,
            page,
            index,
            value,
        ) {
            Ok(()) => {
                count_word(&mut self.count, steps);
                Ok(())
            }
            Err(Failed) => Err(Failed),
        }
    }

    /// Stages a block between the journal and the frame table.
    pub fn stage(&mut self, block: u64, from: &Block)
        requires place { IsRowBlock block }
        requires staged_or_fewer_than_160 { (is_staged self.old block ≡ true) ⊎ (staged_of self.old < body_limit) }
        ensures { StagesBlock block from.now self.old self.new }
    {
        self.blocks.stage(block, from);
    }

    /// Stages a block between the journal and the frame table that begins with these bytes and has zeros after them.
    pub fn stage_start(&mut self, block: u64, start: &[u8])
        requires place { IsRowBlock block }
        requires staged_or_fewer_than_160 { (is_staged self.old block ≡ true) ⊎ (staged_of self.old < body_limit) }
        requires within { length start.now ≤ block_size }
        ensures { StagesBlock block (padded_to block_size start.now) self.old self.new }
    {
        self.blocks.stage_start(block, start);
    }

    /// A block of zeros. A copy of it is made faster than a new one is cleared.
    pub fn zeros(&self) -> &Block
        ensures { result.now ≡ replicate block_size 0 }
    {
        self.blocks.zeros()
    }

    /// Writes a word at a byte offset, 0 to 4,088, into a block between the journal and the frame table, if it is staged, and says
    /// whether it is.
    pub fn put(&mut self, block: u64, at: usize, word: u64) -> bool
        requires place { IsRowBlock block }
        requires within { at + 8 ≤ block_size }
        ensures waits { result ≡ is_some (waiting_in self.old block) }
        ensures was { IfSome (waiting_in self.old block) (λ bytes. (image : List (List ℕ)) → IsSpelledBy self.old image → block_at (coming self.old image) block ≡ bytes) }
        ensures put { MatchOption (waiting_in self.old block) (self.new ≡ self.old) (λ bytes. Restages block (splice bytes at (at + 8) (word_bytes word)) self.old self.new) }
    {
        self.blocks.put(block, at, word)
    }

    /// Makes what is staged durable. It opens one of the journal's eight segments more, and writes no home; if all eight are open,
    /// their homes are written first, and one is open then. With nothing staged no call is made, and the answer is Ok. After
    /// [`Failed`], which comes only if a call of the disk failed, the pages are not live: the disk has the old contents or the new.
    pub fn commit<D: Disk>(&mut self, disk: &mut D) -> Result<(), Failed>
        requires { CanCommit D.Disk self.old disk.old }
        ensures any_moment { ForSome (D.seen disk.old) (λ image. Leaves D.Disk disk.old disk.new (λ c.
            SameContents (total_of self.old) image c ⊎ HasContents (total_of self.old) (coming self.old image) c)) }
        ensures done { OnOk result (Becomes (IsCommitted self.old) (D.seen disk.old) (D.seen disk.new)) }
        ensures ready { OnOk result (CanCommit D.Disk self.new disk.new) }
        ensures staged { OnOk result (staged_of self.new ≡ 0) }
        ensures dead { OnErr result (is_live self.new ≡ false) }
        ensures same { SamePages self.old self.new }
        ensures nothing { staged_of self.old ≡ 0 → (disk.new ≡ disk.old) × IsOk result }
        ensures calls { DiskCalls D.Disk disk.old disk.new result }
    {
        self.blocks.commit(disk, first_block(self.frames.len()))
    }

    /// States that there are 16 to 65,536 frames, and that no page has two of them. It does nothing when it runs.
    pub fn keep_rules(&self)
        ensures { IsKept self.now }
    {
        let _staged = self.staged();
    }

    /// How many blocks are staged, 0 to 160.
    pub fn staged(&self) -> usize
        ensures staged { result ≡ staged_of self.now }
        ensures at_most_160 { result ≤ body_limit }
        ensures kept { IsKept self.now }
    {
        self.blocks.staged()
    }

    /// Whether no commit has failed.
    pub fn live(&self) -> bool
        ensures { result ≡ is_live self.now }
    {
        self.blocks.live()
    }

    /// How many words were read and written, modulo `2^64`.
    pub fn words(&self) -> u64
        ensures { result ≡ words_in self.now }
    {
        self.count
    }

    // As `next_pair`, of a frame's block that is not in memory. It is not inlined, so that a search in memory clears no block.
    #[inline(never)]
    fn read_pair<D: Disk, L: Ledger>(
        &mut self,
        disk: &mut D,
        block: u64,
        from: u64,
        count: u64,
        first: u64,
        steps: &mut Steps<L>,
    ) -> Result<Option<(u64, u64)>, Failed>
        requires stands { StandsOn D.Disk self.old disk.old }
        requires low { first_frame (frame_count self.old) ≤ block }
        requires place { block < total_of self.old }
        requires waits_not { waiting_in self.old block ≡ None }
        requires pairs { ArePlaces from count }
        ensures found { IfOk result (λ found. ForSome (D.seen disk.old) (λ image. IsNextPair (λ index. slice_index (block_words (block_at (coming self.old image) block)) index) from count first found)) }
        ensures place { IfOk result (λ found. IfSome found (λ pair. (from ≤ pair.0) × (pair.0 < count))) }
        ensures looks { Reads D.Disk self.old self.new disk.old disk.new result }
        ensures counts { MatchResult result (λ found. CountsSome (words_looked_at from count found) self.old self.new steps.old steps.new) (λ _. CountsNone self.old self.new steps.old steps.new) }
    {
        let mut bytes = [0; BLOCK_SIZE];
        match self.blocks.read(disk, block, &mut bytes) {
            Ok(()) => Ok(next_pair(&bytes, from, count, first, &mut self.count, steps)),
            Err(Failed) => Err(Failed),
        }
    }
}
