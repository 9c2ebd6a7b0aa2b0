// Where the newest body of each block lies, found by halving.
ghost use Rattle.std.specs.Prelude.{◌≡◌, ◌≤◌, ◌<◌, ◌+◌, [], ℕ, All, IfOk, find, length, option_map};
ghost use Rattle.std.specs.List.{AllWithin};
ghost use Rattle.mg_model.specs.Layout.{globals_block};
ghost use Rattle.mg_journal.specs.Newest.{Adds, Ascends, Puts, is_for};
ghost use Rattle.mg_journal.specs.Places.{IsPlace, place_limit};

use crate::writes::Writes;
use std::alloc::{AllocError, Global};
use std::marker::Model;

/// How many bodies all segments have at most.
const MOST_PLACES: usize = 1280;

/// Up to 1,280 places: the block that a body belongs to, and the block that holds the body. They ascend by the first, and
/// no block has two.
#[derive(Drop)]
pub(crate) struct Table {
    places: Vec<(u64, u64)>,
}

impl Model for Table {
    ghost use Rattle.std.specs.Prelude.{◌≤◌, ℕ, List};
    ghost use Rattle.std.specs.Vec.{vec_capacity};
    ghost use Rattle.mg_journal.specs.Newest.{Ascends};
    ghost use Rattle.mg_journal.specs.Places.{place_limit};

    ghost Value = { List (ℕ × ℕ) };

    ghost view = { λ table. table.places.items };

    ghost invariant = { λ table. (place_limit ≤ vec_capacity table.places) × Ascends table.places.items };
}

impl Table {
    /// No places, with room for 1,280. All memory that they will need is taken here.
    pub(crate) fn new(alloc: Global) -> Result<Table, AllocError>
        ensures empty { IfOk result (λ table. table ≡ []) }
    {
        Ok(Table {
            places: Vec::with_capacity(alloc, MOST_PLACES)?,
        })
    }

    /// The places, which ascend by the block that a body belongs to.
    pub(crate) fn as_slice(&self) -> &[(u64, u64)]
        ensures same { result.now ≡ self.now }
        ensures ascends { Ascends result.now }
    {
        &self.places
    }

    /// The block that holds the body of this one.
    pub(crate) fn body_of(&self, block: u64) -> Option<u64>
        ensures { result ≡ option_map (λ place. place.1) (find (is_for block) self.now) }
    {
        let at = count_below(&self.places, block);
        if at < self.places.len() && self.places[at].0 == block {
            Some(self.places[at].1)
        } else {
            None
        }
    }

    /// Enters a place, instead of the place that its block has, if it has one. It takes no memory.
    pub(crate) fn put(&mut self, place: (u64, u64))
        requires fits_in_table { length self.old < place_limit }
        ensures puts { Puts self.old place self.new }
        ensures fit { (total : ℕ) → All (IsPlace total) self.old → IsPlace total place → All (IsPlace total) self.new }
        ensures at_most_one_more { length self.new ≤ length self.old + 1 }
    {
        let at = count_below(&self.places, place.0);
        if at < self.places.len() && self.places[at].0 == place.0 {
            self.places[at] = place;
        } else {
            // There is room.
            let _ = self.places.insert(at, place);
        }
    }

    /// Enters the places of these writes, whose bodies lie from this block on.
    pub(crate) fn add(&mut self, first: u64, writes: &Writes)
        requires fits_in_table { length self.old + length writes.now ≤ place_limit }
        requires within { first + length writes.now ≤ globals_block }
        ensures added { Adds first writes.now self.old self.new }
    {
        for k in 0..writes.len() {
            self.put((writes.home(k), first + k as u64));
        }
    }

    /// No block has a place.
    pub(crate) fn clear(&mut self)
        ensures { self.new ≡ [] }
    {
        self.places.clear();
    }
}

// How many places belong to a block below this one. It halves what is left at each step.
fn count_below(places: &[(u64, u64)], block: u64) -> usize
    requires { Ascends places.now }
    ensures within { result ≤ length places.now }
    ensures below { AllWithin (λ place. place.0 < block) places.now 0 result }
    ensures above { AllWithin (λ place. block ≤ place.0) places.now result (length places.now) }
{
    places.partition_point(|place| place.0 < block)
}
