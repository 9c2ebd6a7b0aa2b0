// Numbers in places.
ghost use Rattle.std.specs.Prelude.{◌≡◌, ◌≢◌, ◌≤◌, ◌<◌, ◌+◌, ◌==◌, if◌then◌else◌, IfOk, None, Some, false, length, map, position, replicate, slice_index, slice_set, true};
ghost use Rattle.std.specs.List.{list_any};
ghost use Rattle.mg_model.specs.Tests.{all_distinct};
ghost use Rattle.mg_index.specs.Words.{numbers_in};
ghost use Rattle.mg_index.specs.Pairs.{Ascends, IsExact};
ghost use Rattle.mg_index.specs.Words.{unless_within};

use crate::pairs::{count_below, free_places, part_of, rise, sorted_pairs};
use std::alloc::{AllocError, Global};
use std::marker::Model;

/// The number in each place, 0 for a free one. No number has two places.
#[derive(Drop)]
pub struct Index {
    numbers: Vec<u64>,
    // Each number with its place, ascending by number, in room for as many as there are places.
    pairs: Vec<(u64, u64)>,
    // No place before this one is free.
    low: u64,
}

impl Model for Index {
    ghost use Rattle.std.specs.Prelude.{ℕ, List};
    ghost use Rattle.std.specs.Vec.{vec_capacity};
    ghost use Rattle.mg_index.specs.Pairs.{IsIndexed};

    ghost Value = { List ℕ };

    ghost view = { λ index. index.numbers.items };

    ghost invariant = { λ index. IsIndexed index.numbers.items index.pairs.items (vec_capacity index.pairs) index.low };
}

impl Index {
    /// `places` free places, at most 65,536. All memory that they will need is taken here.
    pub fn new(alloc: Global, places: u64) -> Result<Index, AllocError>
        requires { places ≤ 65536 }
        ensures { IfOk result (λ all. all ≡ replicate places 0) }
    {
        let numbers = vec![in alloc; 0; places as usize]?;
        let pairs = Vec::with_capacity(alloc, places as usize)?;
        Ok(Index {
            numbers,
            pairs,
            low: 0,
        })
    }

    /// These numbers in their places, 0 for a free one, in at most 65,536 places: none if a number occurs twice. All
    /// memory that they will need is taken here.
    pub fn of(alloc: Global, numbers: Vec<u64>) -> Result<Option<Index>, AllocError>
        requires { length numbers.items ≤ 65536 }
        ensures { IfOk result (λ made. made ≡ (if all_distinct (numbers_in numbers.items) then Some numbers.items else None)) }
    {
        let pairs = sorted_pairs(alloc, &numbers)?;
        if rise(&pairs) {
            Ok(Some(Index {
                numbers,
                pairs,
                low: 0,
            }))
        } else {
            Ok(None)
        }
    }

    /// How many places there are.
    pub fn len(&self) -> u64
        ensures count { result ≡ length self.now }
        ensures at_most_65536 { result ≤ 65536 }
        ensures kept { all_distinct (numbers_in self.now) ≡ true }
    {
        self.numbers.len() as u64
    }

    /// The number in each place, 0 for a free one.
    pub fn as_slice(&self) -> &[u64]
        ensures { result.now ≡ self.now }
    {
        &self.numbers
    }

    /// Each number with its place, ascending by number.
    pub fn pairs(&self) -> &[(u64, u64)]
        ensures ascending { Ascends result.now }
        ensures exact { IsExact self.now result.now }
    {
        &self.pairs
    }

    /// The place that holds a number, which is not 0.
    pub fn place_of(&self, number: u64) -> Option<u64>
        requires { number ≢ 0 }
        ensures { result ≡ position (λ entry. entry == number) self.now }
    {
        let at = count_below(&self.pairs, number);
        if at < self.pairs.len() && self.pairs[at].0 == number {
            Some(self.pairs[at].1)
        } else {
            None
        }
    }

    /// As [`Index::place_of`]. The place `near`, if there is one, is looked at first.
    pub fn place_near(&self, number: u64, near: u64) -> Option<u64>
        requires { number ≢ 0 }
        ensures { result ≡ position (λ entry. entry == number) self.now }
    {
        if near < self.numbers.len() as u64 && self.numbers[near as usize] == number {
            Some(near)
        } else {
            self.place_of(number)
        }
    }

    /// The number that a place holds, 0 for a free one.
    pub fn number_at(&self, place: u64) -> u64
        requires { place < length self.now }
        ensures { result ≡ slice_index self.now place }
    {
        self.numbers[place as usize]
    }

    /// Enters a number that has no place, and is not 0, in a place that is free.
    pub fn put(&mut self, place: u64, number: u64)
        requires place { place < length self.old }
        requires number { number ≢ 0 }
        requires free { slice_index self.old place ≡ 0 }
        requires unbound { list_any (λ entry. entry == number) self.old ≡ false }
        ensures { self.new ≡ slice_set self.old place number }
    {
        let at = count_below(&self.pairs, number);
        // There is room, since a place is free.
        let _ = self.pairs.insert(at, (number, place));
        self.numbers[place as usize] = number;
    }

    /// Enters a number that has no place, and is not 0, in the lowest free place, and gives that place.
    pub fn add(&mut self, number: u64) -> u64
        requires number { number ≢ 0 }
        requires unbound { list_any (λ entry. entry == number) self.old ≡ false }
        requires free { list_any (λ entry. entry == 0) self.old ≡ true }
        ensures lowest { position (λ entry. entry == 0) self.old ≡ Some result }
        ensures bound { self.new ≡ slice_set self.old result number }
    {
        let place = self.lowest_free();
        self.put(place, number);
        self.low = place + 1;
        place
    }

    /// Frees the places of all numbers in a range.
    pub fn release_range(&mut self, first: u64, count: u64)
        ensures { self.new ≡ map (unless_within first count) self.old }
    {
        let (from, to) = part_of(&self.pairs, first, count);
        let part = &self.pairs[from..to];
        self.low = free_places(&mut self.numbers, part, self.low);
        drop(self.pairs.drain(from..to));
    }

    // The lowest free place. One is free.
    fn lowest_free(&self) -> u64
        requires { list_any (λ entry. entry == 0) self.now ≡ true }
        ensures lowest { position (λ entry. entry == 0) self.now ≡ Some result }
        ensures below_65536 { result < 65536 }
    {
        match first_free(&self.numbers[self.low as usize..]) {
            Some(at) => self.low + at as u64,
            None => unreachable!(),
        }
    }
}

// The first free place of these.
fn first_free(numbers: &[u64]) -> Option<usize>
    ensures { result ≡ position (λ entry. entry == 0) numbers.now }
{
    numbers.iter().position(|number| *number == 0)
}
