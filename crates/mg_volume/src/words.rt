// The words of a volume.
ghost use Rattle.std.specs.Prelude.{◌≡◌, ◌≤◌, ◌<◌, ◌+◌, ◌*◌, true, IfOk, IfSome, MatchResult, OnErr};
ghost use Rattle.std.specs.Option.{ForSome};
ghost use Rattle.mg_disk.specs.Stops.{CountRose};
ghost use Rattle.mg_model.specs.Limits.{page_size};
ghost use Rattle.mg_model.specs.Objects.{with_word, word_at};
ghost use Rattle.mg_pages.specs.Pairs.{ArePlaces, IsNextPair, words_looked_at};
ghost use Rattle.mg_volume.specs.Calls.{KeepsRows, Reads, Serves};
ghost use Rattle.mg_volume.specs.Meaning.{Keeps, StandsOn, has_page, now_of, staged_of};
ghost use Rattle.mg_volume.specs.Staging.{ObjectsStillStaged};

use crate::volume::Volume;
use mg_disk::Disk;
use mg_faults::Failed;
use mg_model::Steps;
use std::sync::ledger::Ledger;

#[tactic(auto, unfolding(crate::specs::Meaning::settings_in, crate::specs::Meaning::counters_in, crate::specs::Meaning::objects_in, crate::specs::Meaning::accounts_in, crate::specs::Meaning::threads_in, crate::specs::Meaning::now_of, crate::specs::Meaning::staged_in, crate::specs::Meaning::staged_of, crate::specs::Meaning::is_live, crate::specs::Meaning::total_of, crate::specs::Meaning::words_in))]
impl Volume {
    /// The word at an index, below 512, of a page of an object. [`Failed`] comes only if a call of the disk failed, and
    /// changes nothing. Ok counts one word, here and in `steps`.
    pub fn word<D: Disk, L: Ledger>(
        &mut self,
        disk: &mut D,
        page: u64,
        index: u64,
        steps: &mut Steps<L>,
    ) -> Result<u64, Failed>
        requires stands { StandsOn D.Disk self.old disk.old }
        requires page { has_page self.old page ≡ true }
        requires index { index < 512 }
        ensures word { IfOk result (λ word. ForSome (D.seen disk.old) (λ image. word ≡ word_at (now_of self.old image).objects (page_size * page + 8 * index))) }
        ensures reads { Reads D.Disk self.old self.new disk.old disk.new steps.old steps.new }
        ensures objects { ObjectsStillStaged self.old self.new }
        ensures counts { MatchResult result (λ _. steps.new ≡ steps.old + 1) (λ _. steps.new ≡ steps.old) }
        ensures cause { OnErr result (CountRose D.Disk disk.old disk.new) }
    {
        self.pages.page_word(disk, page, index, steps)
    }

    /// The first of the pairs of a page's words from place `from` on, and before place `count`, whose first word is `first`: its
    /// place and its second word. Pair j is words 2 + 2 * j and 3 + 2 * j of a page of an object. [`Failed`] comes only if a call of
    /// the disk failed, and changes nothing. Ok counts each word that is looked at, here and in `steps`.
    pub fn next_pair<D: Disk, L: Ledger>(
        &mut self,
        disk: &mut D,
        page: u64,
        from: u64,
        count: u64,
        first: u64,
        steps: &mut Steps<L>,
    ) -> Result<Option<(u64, u64)>, Failed>
        requires stands { StandsOn D.Disk self.old disk.old }
        requires page { has_page self.old page ≡ true }
        requires pairs { ArePlaces from count }
        ensures found { IfOk result (λ found. ForSome (D.seen disk.old) (λ image. IsNextPair (λ index. word_at (now_of self.old image).objects (page_size * page + 8 * index)) from count first found)) }
        ensures place { IfOk result (λ found. IfSome found (λ pair. (from ≤ pair.0) × (pair.0 < count))) }
        ensures reads { Reads D.Disk self.old self.new disk.old disk.new steps.old steps.new }
        ensures objects { ObjectsStillStaged self.old self.new }
        ensures counts { MatchResult result (λ found. steps.new ≡ steps.old + words_looked_at from count found) (λ _. steps.new ≡ steps.old) }
        ensures cause { OnErr result (CountRose D.Disk disk.old disk.new) }
    {
        self.pages.next_pair(disk, page, from, count, first, steps)
    }

    /// Writes a word at an index, below 512, of a page of an object. [`Failed`] comes only if a call of the disk failed,
    /// and changes nothing. Ok counts one word, here and in `steps`.
    pub fn set_word<D: Disk, L: Ledger>(
        &mut self,
        disk: &mut D,
        page: u64,
        index: u64,
        value: u64,
        steps: &mut Steps<L>,
    ) -> Result<(), Failed>
        requires stands { StandsOn D.Disk self.old disk.old }
        requires page { has_page self.old page ≡ true }
        requires index { index < 512 }
        requires at_most_158_staged { staged_of self.old ≤ 158 }
        ensures sets { MatchResult result (λ _. ForSome (D.seen disk.old) (λ image. now_of self.new image ≡ record (now_of self.old image) { objects = with_word (now_of self.old image).objects (page_size * page + 8 * index) value })) (λ _. Keeps self.old self.new) }
        ensures rows { KeepsRows (D.seen disk.old) self.old self.new }
        ensures serves { Serves 2 D.Disk self.old self.new disk.old disk.new steps.old steps.new }
        ensures counts { MatchResult result (λ _. steps.new ≡ steps.old + 1) (λ _. steps.new ≡ steps.old) }
        ensures cause { OnErr result (CountRose D.Disk disk.old disk.new) }
    {
        self.pages.keep_rules();
        self.pages.set_word(disk, page, index, value, steps)
    }
}
