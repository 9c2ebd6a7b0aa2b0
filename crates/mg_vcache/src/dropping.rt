// Which seats are dropped.
ghost use Rattle.std.specs.Prelude.{List, Option, ◌≡◌, ◌<◌, ◌/◌, ◌==◌, ℕ, false, true, if◌then◌else◌, length, slice_index_or, Some, None};
ghost use Rattle.mg_model.specs.declared.seats.Seat.{Seat};
ghost use Rattle.mg_model.specs.Backed.{by_each};
ghost use Rattle.mg_vcache.specs.Seats.{unless_ended, without};
ghost use Rattle.mg_vcache.specs.EndedSeats.{ended_of};
ghost use Rattle.mg_vcache.specs.Marks.{AreMarked, is_in_row};

use crate::marks::{GROUP, is_in_row};
use mg_model::Seat;

/// Seats that end.
#[derive(Clone, Copy)]
pub(crate) enum Ended {
    /// Those of a thread.
    Thread(u64),
    /// Those that a list gave.
    Given(u64),
    /// Those for an object.
    To(u64),
}

impl Ended {
    // Whether the seat is one of them.
    fn has(self, seat: &Seat) -> bool
        ensures { result ≡ ended_of self seat.now }
    {
        match self {
            Ended::Thread(thread) => seat.thread == thread,
            Ended::Given(list) => seat.via == list,
            Ended::To(base) => seat.base == base,
        }
    }

    // What is left in a seat.
    fn left(self, kept: Option<Seat>) -> Option<Seat>
        ensures { result ≡ unless_ended (ended_of self) kept }
    {
        match kept {
            Some(seat) if self.has(&seat) => None,
            other => other,
        }
    }
}

/// Drops every seat.
pub(crate) fn drop_every(seats: &mut [Option<Seat>])
    ensures { seats.new ≡ without by_each seats.old }
{
    for seat in seats.iter_mut() {
        if seat.is_some() {
            *seat = None;
        }
    }
}

/// Drops these seats, all of which have this row, and leaves the others. Seats that are not marked in the row are not read.
pub(crate) fn drop_in_row(seats: &mut [Option<Seat>], marks: &mut [bool], ended: Ended, row: usize)
    requires seats { length seats.old ≡ 256 }
    requires marks { length marks.old ≡ 3072 }
    requires row { row < 192 }
    requires in_row { (seat : Seat) → ended_of ended seat ≡ true → is_in_row row seat ≡ true }
    requires marked { AreMarked seats.old marks.old }
    ensures dropped { seats.new ≡ without (ended_of ended) seats.old }
    ensures marked { AreMarked seats.new marks.new }
    ensures marks { length marks.new ≡ 3072 }
{
    for group in 0..16 {
        if marks[GROUP * row + group] {
            marks[GROUP * row + group] = drop_in_group(seats, ended, row, group);
        }
    }
}

// Drops these seats of a group of 16. Whether one that is left there has the row.
fn drop_in_group(seats: &mut [Option<Seat>], ended: Ended, row: usize, group: usize) -> bool
    requires seats { length seats.old ≡ 256 }
    requires group { group < 16 }
    ensures dropped { (place : ℕ) → slice_index_or seats.new place None ≡ (if place / 16 == group then unless_ended (ended_of ended) (slice_index_or seats.old place None) else slice_index_or seats.old place None) }
    ensures seats { length seats.new ≡ 256 }
    ensures left { result ≡ false → (place : ℕ) → place / 16 ≡ group → (seat : Seat) → slice_index_or seats.new place None ≡ Some seat → is_in_row row seat ≡ false }
{
    let mut left = false;
    for place in GROUP * group..GROUP * group + GROUP {
        let kept = ended.left(seats[place]);
        left = left || has_row(row, kept);
        seats[place] = kept;
    }
    left
}

// Whether a seat is kept that has the row.
fn has_row(row: usize, kept: Option<Seat>) -> bool
    ensures { result ≡ false → (seat : Seat) → kept ≡ Some seat → is_in_row row seat ≡ false }
{
    match kept {
        Some(seat) => is_in_row(row, &seat),
        None => false,
    }
}
