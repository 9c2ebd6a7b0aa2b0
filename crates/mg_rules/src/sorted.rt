// Lists in order: whether their neighbours are apart, and what lies in one.
ghost use Rattle.std.specs.Prelude.{◌≡◌, ◌&&◌, All, MatchOption, false, true};
ghost use Rattle.std.specs.List.{list_all, list_any};
ghost use Rattle.mg_rules.specs.Spans.{IsSome, IsWithin, apart_from, is_in, rises_from};
ghost use Rattle.mg_model.specs.Tests.{all_distinct};

/// Whether each run begins at or after the end of the one before.
pub(crate) fn are_apart(spans: &[(u64, u64)]) -> bool
    ensures { result ≡ apart_from 0 spans.now }
{
    let mut bound = 0;
    for span in spans {
        if span.0 < bound {
            return false;
        }
        bound = span.1;
    }
    true
}

// Whether each number is above the one before.
fn rise(numbers: &[u64]) -> bool
    ensures { result ≡ rises_from 0 numbers.now }
{
    let mut bound = 0;
    for number in numbers {
        let next = u128::from(*number);
        if next < bound {
            return false;
        }
        bound = next + 1;
    }
    true
}

// Whether a number lies in a run.
fn is_in(number: u64, run: (u64, u64)) -> bool
    ensures { result ≡ is_in number run }
{
    run.0 <= number && number < run.1
}

// The run that a number lies in, of these runs, which are apart.
fn run_of(spans: &[(u64, u64)], number: u64) -> Option<(u64, u64)>
    requires apart { apart_from 0 spans.now ≡ true }
    requires no_empty_span { All IsSome spans.now }
    ensures { MatchOption result (list_any (is_in number) spans.now ≡ false) (λ run. (list_any (is_in number) spans.now ≡ true) × IsWithin run spans.now) }
{
    let place = spans.partition_point(|span| span.0 <= number);
    if place == 0 {
        return None;
    }
    let run = spans[place - 1];
    if number < run.1 { Some(run) } else { None }
}

// Whether a number lies in one of these runs, which are apart. It looks into `last` first, which is then the run that the
// number lies in: of numbers in order, few need more.
fn lies_in(spans: &[(u64, u64)], last: &mut (u64, u64), number: u64) -> bool
    requires apart { apart_from 0 spans.now ≡ true }
    requires no_empty_span { All IsSome spans.now }
    requires within { IsWithin last.old spans.now }
    ensures lies { result ≡ list_any (is_in number) spans.now }
    ensures within { IsWithin last.new spans.now }
{
    if is_in(number, *last) {
        return true;
    }
    match run_of(spans, number) {
        Some(run) => {
            *last = run;
            true
        }
        None => false,
    }
}

/// Whether no two of these numbers are the same.
pub(crate) fn are_distinct(mut numbers: Vec<u64>) -> bool
    ensures { result ≡ all_distinct numbers.items }
{
    numbers.sort_unstable();
    rise(&numbers)
}

// Whether each of these numbers lies in one of these runs, which are apart.
fn all_lie_in(spans: &[(u64, u64)], numbers: &[u64]) -> bool
    requires apart { apart_from 0 spans.now ≡ true }
    requires no_empty_span { All IsSome spans.now }
    ensures { result ≡ list_all (λ number. list_any (is_in number) spans.now) numbers.now }
{
    let mut last = (0, 0);
    for number in numbers {
        if !lies_in(spans, &mut last, *number) {
            return false;
        }
    }
    true
}

/// Whether each of these numbers lies in one of these runs, which are apart, and no two of them are the same.
pub(crate) fn are_distinct_within(spans: &[(u64, u64)], mut numbers: Vec<u64>) -> bool
    requires apart { apart_from 0 spans.now ≡ true }
    requires no_empty_span { All IsSome spans.now }
    ensures { result ≡ (list_all (λ number. list_any (is_in number) spans.now) numbers.items && all_distinct numbers.items) }
{
    numbers.sort_unstable();
    all_lie_in(spans, &numbers) && rise(&numbers)
}
