// The free pages of a volume.
ghost use Rattle.std.specs.Prelude.{◌≡◌, ◌≤◌, ◌+◌, ◌++◌, ◌∷◌, ◌⊎◌, [], All, IfOk, List, ℕ, sum_by};
ghost use Rattle.mg_model.specs.Limits.{first_page, page_end};
ghost use Rattle.mg_model.specs.Objects.{lowest_free};
ghost use Rattle.mg_model.specs.State.{Object};
ghost use Rattle.mg_ranges.specs.Gaps.{AreGapsOf, AreTaken, spans_of};
ghost use Rattle.mg_ranges.specs.Kept.{CanGive, CanTake, HasRoom, HasTaken};

use crate::gaps::{count_to, first_fit, join_before, join_behind, put_piece};
use mg_model::limits::{FIRST_PAGE, OBJECT_LIMIT, PAGE_END};
use std::alloc::{AllocError, Global};
use std::marker::Model;

/// How many gaps the ranges leave at most: one more than the ranges, of which an object takes one.
const MOST_GAPS: usize = OBJECT_LIMIT + 1;

/// The free pages of a volume.
#[derive(Drop)]
pub struct Ranges {
    // The gaps, in room for one more than the ranges that may be taken.
    gaps: Vec<(u64, u64)>,
}

impl Model for Ranges {
    ghost use Rattle.std.specs.Prelude.{ℕ, List};
    ghost use Rattle.std.specs.Vec.{vec_capacity};
    ghost use Rattle.mg_ranges.specs.Kept.{AreKept};

    ghost Value = { List (ℕ × ℕ) };

    ghost view = { λ ranges. ranges.gaps.items };

    ghost invariant = { λ ranges. AreKept ranges.gaps.items (vec_capacity ranges.gaps) };
}

impl Ranges {
    /// All pages free. All memory that their gaps will need is taken here: there is room for 4,097.
    pub fn new(alloc: Global) -> Result<Ranges, AllocError>
        ensures { IfOk result (λ ranges. AreGapsOf [] ranges) }
    {
        let mut gaps = Vec::with_capacity(alloc, MOST_GAPS)?;
        gaps.push((FIRST_PAGE, PAGE_END - FIRST_PAGE))?;
        Ok(Ranges { gaps })
    }

    /// The free pages beside these ranges, which are given in order, each with its first page and its number of pages. All
    /// memory that their gaps will need is taken here.
    pub fn of(alloc: Global, taken: &[(u64, u64)]) -> Result<Ranges, AllocError>
        requires { AreTaken taken.now }
        ensures { IfOk result (λ ranges. AreGapsOf taken.now ranges) }
    {
        let mut ranges = Ranges::new(alloc)?;
        for span in taken {
            ranges.take(span.0, span.1);
        }
        Ok(ranges)
    }

    /// The maximal free ranges from page `2^20` to before page `2^40`, each with its first page and its number of pages,
    /// ascending.
    pub fn gaps(&self) -> &[(u64, u64)]
        ensures gaps { result.now ≡ self.now }
        ensures taken { HasTaken self.now }
    {
        &self.gaps
    }

    /// The lowest page from which on `pages` pages, 1 to 1024, are free. At most 65,536 pages are taken.
    pub fn first(&self, pages: u64) -> u64
        requires at_least_1_page { 1 ≤ pages }
        requires at_most_1024_pages { pages ≤ 1024 }
        requires has_room { HasRoom self.now }
        ensures lowest { (objects : List Object) → AreGapsOf (spans_of objects) self.now → result ≡ lowest_free objects pages }
        ensures free { (taken : List (ℕ × ℕ)) → AreGapsOf taken self.now → All (λ span. (result + pages ≤ span.0) ⊎ (span.0 + span.1 ≤ result)) taken }
        ensures low { first_page ≤ result }
        ensures high { result + pages ≤ page_end }
    {
        match first_fit(&self.gaps, pages) {
            Some(gap) => gap.0,
            None => unreachable!(),
        }
    }

    /// Takes a range of pages, at least one, which are free. Fewer than 4,096 ranges are taken.
    pub fn take(&mut self, first: u64, pages: u64)
        requires { CanTake first pages self.old }
        ensures { (before behind : List (ℕ × ℕ)) → AreGapsOf (before ++ behind) self.old → AreTaken (before ++ (first, pages) ∷ behind) → AreGapsOf (before ++ (first, pages) ∷ behind) self.new }
    {
        let at = count_to(&self.gaps, first) - 1;
        let gap = self.gaps.remove(at);
        put_piece(&mut self.gaps, at, first + pages, gap.0 + gap.1);
        put_piece(&mut self.gaps, at, gap.0, first);
    }

    /// Gives a range back that was taken. What is free before it and after it is one gap with it.
    pub fn give(&mut self, first: u64, pages: u64)
        requires { CanGive first pages self.old }
        ensures { (before behind : List (ℕ × ℕ)) → AreGapsOf (before ++ (first, pages) ∷ behind) self.old → AreGapsOf (before ++ behind) self.new }
    {
        let at = count_to(&self.gaps, first);
        let end = join_behind(&mut self.gaps, at, first + pages);
        let (place, start) = join_before(&mut self.gaps, at, first);
        put_piece(&mut self.gaps, place, start, end);
    }
}
