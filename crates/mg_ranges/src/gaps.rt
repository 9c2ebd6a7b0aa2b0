// A list of gaps, each with its first page and its number of pages.
ghost use Rattle.std.specs.Prelude.{◌≡◌, ◌≢◌, ◌≤◌, ◌<◌, ◌+◌, ◌-◌, ◌++◌, All, drop, find, length, nat_le, slice_index_or, take, vec_capacity};
ghost use Rattle.std.specs.List.{AllWithin, remove};
ghost use Rattle.std.specs.Option.{option_copied};
ghost use Rattle.mg_model.specs.Limits.{page_end};
ghost use Rattle.mg_ranges.specs.Gaps.{piece};
ghost use Rattle.mg_ranges.specs.Kept.{Ascends};

/// The first gap with at least `pages` pages.
pub(crate) fn first_fit(gaps: &[(u64, u64)], pages: u64) -> Option<&(u64, u64)>
    ensures { option_copied result ≡ find (λ gap. nat_le pages gap.1) gaps.now }
{
    gaps.iter().find(|gap| pages <= gap.1)
}

/// How many gaps begin at this page or before it. It halves what is left at each step.
pub(crate) fn count_to(gaps: &[(u64, u64)], page: u64) -> usize
    requires { Ascends gaps.now }
    ensures within { result ≤ length gaps.now }
    ensures below { AllWithin (λ gap. gap.0 ≤ page) gaps.now 0 result }
    ensures above { AllWithin (λ gap. page < gap.0) gaps.now result (length gaps.now) }
{
    gaps.partition_point(|gap| gap.0 <= page)
}

/// Adds the range from one page to before another in this place, unless it has no page. There is room for one more.
pub(crate) fn put_piece(gaps: &mut Vec<(u64, u64)>, at: usize, from: u64, to: u64)
    requires place { at ≤ length gaps.old.items }
    requires has_capacity { length gaps.old.items < vec_capacity gaps.old }
    ensures gaps { gaps.new.items ≡ take at gaps.old.items ++ piece from to ++ drop at gaps.old.items }
    ensures keeps_capacity { vec_capacity gaps.old ≤ vec_capacity gaps.new }
{
    if from < to {
        // There is room.
        let _ = gaps.insert(at, (from, to - from));
    }
}

/// Takes the gap in this place out, if it begins at this page, and gives the page right after it, else the page itself.
pub(crate) fn join_behind(gaps: &mut Vec<(u64, u64)>, at: usize, page: u64) -> u64
    requires high { All (λ gap. gap.0 + gap.1 ≤ page_end) gaps.old.items }
    ensures joined { at < length gaps.old.items → (slice_index_or gaps.old.items at (0, 0)).0 ≡ page → (result ≡ page + (slice_index_or gaps.old.items at (0, 0)).1) × (gaps.new.items ≡ remove gaps.old.items at) }
    ensures apart { (at < length gaps.old.items → (slice_index_or gaps.old.items at (0, 0)).0 ≢ page) → (result ≡ page) × (gaps.new.items ≡ gaps.old.items) }
    ensures keeps_capacity { vec_capacity gaps.old ≤ vec_capacity gaps.new }
{
    if at < gaps.len() && gaps[at].0 == page {
        let gap = gaps.remove(at);
        gap.0 + gap.1
    } else {
        page
    }
}

/// Takes the gap before this place out, if it ends right before this page, and gives its place and its first page, else the
/// place and the page itself.
pub(crate) fn join_before(gaps: &mut Vec<(u64, u64)>, at: usize, page: u64) -> (usize, u64)
    requires place { at ≤ length gaps.old.items }
    requires high { All (λ gap. gap.0 + gap.1 ≤ page_end) gaps.old.items }
    ensures joined { 0 < at → (slice_index_or gaps.old.items (at - 1) (0, 0)).0 + (slice_index_or gaps.old.items (at - 1) (0, 0)).1 ≡ page → (result ≡ (at - 1, (slice_index_or gaps.old.items (at - 1) (0, 0)).0)) × (gaps.new.items ≡ remove gaps.old.items (at - 1)) }
    ensures apart { (0 < at → (slice_index_or gaps.old.items (at - 1) (0, 0)).0 + (slice_index_or gaps.old.items (at - 1) (0, 0)).1 ≢ page) → (result ≡ (at, page)) × (gaps.new.items ≡ gaps.old.items) }
    ensures keeps_capacity { vec_capacity gaps.old ≤ vec_capacity gaps.new }
{
    if at > 0 && gaps[at - 1].0 + gaps[at - 1].1 == page {
        let gap = gaps.remove(at - 1);
        (at - 1, gap.0)
    } else {
        (at, page)
    }
}
