// A tape with room for a number of stores, and what is read of it.
ghost use Rattle.std.specs.Prelude.{◌≡◌, ◌<◌, ◌%◌, ◌^◌, ◌==◌, ◌∷◌, ◌++◌, [], IfOk, MatchResult, find, if◌then◌else◌, length, option_copied, reverse};
ghost use Rattle.mg_window.specs.Devices.{last_at, sum_at};

use crate::device::TapeFull;
use std::alloc::{AllocError, Global};
use std::marker::Model;

/// The stores that reached a device, in their order, and how many there may be.
#[derive(Drop)]
pub(crate) struct BoundedTape {
    room: usize,
    list: Vec<(u64, u64)>,
}

impl Model for BoundedTape {
    ghost use Rattle.std.specs.Prelude.{ℕ, ◌≤◌, length, vec_capacity};
    ghost use Rattle.mg_window.specs.Devices.{Tape};

    ghost Value = { ℕ × Tape };

    ghost view = { λ t. (t.room, t.list.items) };

    ghost invariant = { λ t. (t.room ≤ vec_capacity t.list) × (length t.list.items ≤ t.room) };
}

impl BoundedTape {
    /// An empty tape with room for `room` stores. All memory that it will need is taken here.
    pub(crate) fn new(alloc: Global, room: usize) -> Result<BoundedTape, AllocError>
        ensures { IfOk result (λ tape. tape ≡ (room, [])) }
    {
        let list = Vec::with_capacity(alloc, room)?;
        Ok(BoundedTape { room, list })
    }

    /// How many stores it holds.
    pub(crate) fn len(&self) -> u64
        ensures { result ≡ length self.now.1 }
    {
        self.list.len() as u64
    }

    /// The value that was stored last at a place, 0 if none was.
    pub(crate) fn last_at(&self, off: u64) -> u64
        ensures { result ≡ last_at self.now.1 off }
    {
        latched(&self.list, off)
    }

    /// The sum of the values that were stored at a place, modulo `2^64`.
    pub(crate) fn sum_at(&self, off: u64) -> u64
        ensures { result ≡ sum_at self.now.1 off % 2 ^ 64 }
    {
        added(&self.list, off)
    }

    /// Adds a store at the end. [`TapeFull`] comes exactly if it holds as many as it has room for, and changes nothing.
    pub(crate) fn push(&mut self, off: u64, value: u64) -> Result<(), TapeFull>
        ensures { MatchResult result
            (λ _. (length self.old.1 < self.old.0) × (self.new ≡ (self.old.0, self.old.1 ++ (off, value) ∷ [])))
            (λ full. (length self.old.1 ≡ self.old.0) × (full.room ≡ self.old.0) × (self.new ≡ self.old)) }
    {
        if self.list.len() == self.room {
            return Err(TapeFull {
                room: self.room as u64,
            });
        }
        if self.list.push((off, value)).is_err() {
            unreachable!()
        }
        Ok(())
    }
}

// The last entry of a tape at a place.
fn last(tape: &[(u64, u64)], off: u64) -> Option<&(u64, u64)>
    ensures { option_copied result ≡ find (λ entry. entry.0 == off) (reverse tape.now) }
{
    tape.iter().rev().find(|entry| entry.0 == off)
}

// The value that was stored last at a place.
fn latched(tape: &[(u64, u64)], off: u64) -> u64
    ensures { result ≡ last_at tape.now off }
{
    match last(tape, off) {
        Some(entry) => entry.1,
        None => 0,
    }
}

// The sum of the values that were stored at a place.
fn added(tape: &[(u64, u64)], off: u64) -> u64
    ensures { result ≡ sum_at tape.now off % 2 ^ 64 }
{
    let mut sum: u64 = 0;
    for entry in tape {
        sum = sum.wrapping_add(value_at(*entry, off));
    }
    sum
}

// What an entry adds at a place.
fn value_at(entry: (u64, u64), off: u64) -> u64
    ensures { result ≡ (if entry.0 == off then entry.1 else 0) }
{
    if entry.0 == off { entry.1 } else { 0 }
}
