// A list of numbers and their places, which ascends by number.
ghost use Rattle.std.specs.Prelude.{◌≡◌, ◌≤◌, ◌<◌, ◌+◌, [], All, IfOk, length, false, map, nat_lt, true};
ghost use Rattle.std.specs.List.{AllPairs, AllWithin};
ghost use Rattle.std.specs.List.Sorted.{IsNonDecreasingBy};
ghost use Rattle.std.specs.Vec.{vec_capacity};
ghost use Rattle.mg_index.specs.Words.{numbers_in};
ghost use Rattle.mg_index.specs.Pairs.{Ascends, HasTwice, IsExact, IsPart, IsSortedTable, freed};

use std::alloc::{AllocError, Global};

/// The numbers of a table with their places, ascending by number, in room for a number in each place.
pub(crate) fn sorted_pairs(alloc: Global, numbers: &[u64]) -> Result<Vec<(u64, u64)>, AllocError>
    ensures { IfOk result (λ pairs. IsSortedTable numbers.now pairs.items (vec_capacity pairs)) }
{
    let mut pairs = Vec::with_capacity(alloc, numbers.len())?;
    list_pairs(numbers, &mut pairs);
    pairs.sort_unstable_by_key(|pair| pair.0);
    Ok(pairs)
}

/// Whether each number is above the one before it, in pairs that do not fall.
pub(crate) fn rise(pairs: &[(u64, u64)]) -> bool
    requires { IsNonDecreasingBy (λ pair. pair.0) pairs.now }
    ensures rising { result ≡ true → Ascends pairs.now }
    ensures twice { result ≡ false → HasTwice pairs.now }
{
    for i in 1..pairs.len() {
        if pairs[i].0 <= pairs[i - 1].0 {
            return false;
        }
    }
    true
}

// Lists the numbers of a table with their places, place by place.
fn list_pairs(numbers: &[u64], pairs: &mut Vec<(u64, u64)>)
    requires none { pairs.old.items ≡ [] }
    requires has_capacity { length numbers.now ≤ vec_capacity pairs.old }
    ensures numbers { map (λ pair. pair.0) pairs.new.items ≡ numbers_in numbers.now }
    ensures exact { IsExact numbers.now pairs.new.items }
    ensures places { AllPairs (λ a b. a.1 < b.1) pairs.new.items }
    ensures has_capacity { length numbers.now ≤ vec_capacity pairs.new }
{
    for (place, number) in numbers.iter().enumerate() {
        if *number != 0 {
            // There is room for a number in each place.
            let _ = pairs.push((*number, place as u64));
        }
    }
}

/// How many pairs have a number below this one. It halves what is left at each step.
pub(crate) fn count_below(pairs: &[(u64, u64)], number: u64) -> usize
    requires { Ascends pairs.now }
    ensures within { result ≤ length pairs.now }
    ensures below { AllWithin (λ pair. pair.0 < number) pairs.now 0 result }
    ensures above { AllWithin (λ pair. number ≤ pair.0) pairs.now result (length pairs.now) }
{
    pairs.partition_point(|pair| pair.0 < number)
}

/// Where the pairs of the numbers in a range begin and end.
pub(crate) fn part_of(pairs: &[(u64, u64)], first: u64, count: u64) -> (usize, usize)
    requires { Ascends pairs.now }
    ensures { IsPart pairs.now first count result.0 result.1 }
{
    let from = count_below(pairs, first);
    let to = count_to(pairs, first, count);
    (from, to)
}

// How many pairs have a number below the end of a range.
fn count_to(pairs: &[(u64, u64)], first: u64, count: u64) -> usize
    requires { Ascends pairs.now }
    ensures within { result ≤ length pairs.now }
    ensures below { AllWithin (λ pair. pair.0 < first + count) pairs.now 0 result }
    ensures above { AllWithin (λ pair. first + count ≤ pair.0) pairs.now result (length pairs.now) }
{
    pairs.partition_point(|pair| is_below(pair.0, first, count))
}

// Whether a number is below the end of a range.
fn is_below(number: u64, first: u64, count: u64) -> bool
    ensures { result ≡ nat_lt number (first + count) }
{
    number < first || number - first < count
}

/// Frees the places of these pairs, and gives the lowest of them, or `low` if that is lower.
pub(crate) fn free_places(numbers: &mut [u64], pairs: &[(u64, u64)], low: u64) -> u64
    requires { All (λ pair. pair.1 < length numbers.old) pairs.now }
    ensures freed { numbers.new ≡ freed numbers.old pairs.now }
    ensures low { result ≤ low }
    ensures lowest { All (λ pair. result ≤ pair.1) pairs.now }
{
    let mut lowest = low;
    for pair in pairs {
        numbers[pair.1 as usize] = 0;
        lowest = lowest.min(pair.1);
    }
    lowest
}
