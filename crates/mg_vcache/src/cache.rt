// The cache.
ghost use Rattle.std.specs.Prelude.{List, ◌≡◌, ◌<◌, ℕ, true, IfOk, None, Some, replicate, slice_set};
ghost use Rattle.mg_model.specs.Backed.{by_each, by_given, by_thread, by_via};
ghost use Rattle.mg_model.specs.Keys.{seat_of};
ghost use Rattle.mg_model.specs.Rights.{right_number};
ghost use Rattle.mg_model.specs.Limits.{seat_count};
ghost use Rattle.mg_vcache.specs.EndedSeats.{by_object};
ghost use Rattle.mg_vcache.specs.Seats.{is_kept, without};

use crate::dropping::{Ended, drop_every, drop_in_row};
use crate::marks::{MARK_COUNT, list_row, mark, object_row, thread_row};
use mg_model::limits::{PAGE_SIZE, PAGE_STRIDE, RIGHT_STRIDE, SEAT_COUNT};
use mg_model::{Right, Seat};
use std::alloc::{AllocError, Global};
use std::marker::Model;

/// 256 seats, in each of which one right may be kept. Marks say where those of a list, an object or a thread may be, so that
/// a drop reads few seats.
#[derive(Drop)]
pub struct VCache {
    seats: Vec<Option<Seat>>,
    marks: Vec<bool>,
}

impl Model for VCache {
    ghost use Rattle.std.specs.Prelude.{List, Option, ◌≡◌, length};
    ghost use Rattle.mg_model.specs.Limits.{seat_count};
    ghost use Rattle.mg_model.specs.declared.seats.Seat.{Seat};
    ghost use Rattle.mg_vcache.specs.Marks.{AreMarked};

    ghost Value = { List (Option Seat) };

    ghost view = { λ cache. cache.seats.items };

    ghost invariant = { λ cache. (length cache.seats.items ≡ seat_count) × (length cache.marks.items ≡ 3072) × AreMarked cache.seats.items cache.marks.items };
}

impl VCache {
    /// No right is kept. This takes its memory; nothing else here takes any.
    pub fn new(alloc: Global) -> Result<VCache, AllocError>
        ensures { IfOk result (λ cache. cache ≡ replicate seat_count None) }
    {
        let seats = Vec::from_array(alloc, [None; SEAT_COUNT])?;
        let marks = Vec::from_array(alloc, [false; MARK_COUNT])?;
        Ok(VCache { seats, marks })
    }

    /// Whether this right is kept: its seat was filled with this thread, base and right last, and not dropped since.
    pub fn hit(&self, thread: u64, base: u64, right: Right) -> bool
        ensures { result ≡ is_kept self.now (record { thread = thread; base = base; right = right }) }
    {
        match self.seats[seat_at(thread, base, right)] {
            Some(seat) => seat.thread == thread && seat.base == base && seat.right == right,
            None => false,
        }
    }

    /// Keeps a right that the capability list with the base `via` gives, in place of what its seat kept. Nothing else changes.
    pub fn fill(&mut self, thread: u64, base: u64, right: Right, via: u64)
        ensures kept { is_kept self.new (record { thread = thread; base = base; right = right }) ≡ true }
        ensures put { self.new ≡ slice_set self.old (seat_of (record { thread = thread; base = base; right = right })) (Some (record { thread = thread; base = base; right = right; via = via })) }
    {
        let seat = Seat {
            thread,
            base,
            right,
            via,
        };
        let place = seat_at(thread, base, right);
        mark(&mut self.marks, place, &seat);
        self.seats[place] = Some(seat);
    }

    /// Drops what is kept of this thread, and nothing else.
    pub fn drop_thread(&mut self, thread: u64)
        ensures { self.new ≡ without (by_thread thread) self.old }
    {
        drop_in_row(
            &mut self.seats,
            &mut self.marks,
            Ended::Thread(thread),
            thread_row(thread),
        );
    }

    /// Drops each right that the capability list with this base gave, and nothing else.
    pub fn drop_given(&mut self, list: u64)
        ensures { self.new ≡ without (by_given list) self.old }
    {
        drop_in_row(
            &mut self.seats,
            &mut self.marks,
            Ended::Given(list),
            list_row(list),
        );
    }

    /// Drops each right that the capability list with this base gave or that is to the object with this base, and nothing else.
    pub fn drop_via(&mut self, via: u64)
        ensures { self.new ≡ without (by_via via) self.old }
    {
        self.drop_given(via);
        self.drop_object(via);
    }

    // Drops each right to the object with this base, and nothing else.
    fn drop_object(&mut self, base: u64)
        ensures { self.new ≡ without (by_object base) self.old }
    {
        drop_in_row(
            &mut self.seats,
            &mut self.marks,
            Ended::To(base),
            object_row(base),
        );
    }

    /// Drops all.
    pub fn drop_all(&mut self)
        ensures { self.new ≡ without by_each self.old }
    {
        drop_every(&mut self.seats);
    }
}

// The seat that a right can take. The sum may wrap: 256 divides 2^64.
fn seat_at(thread: u64, base: u64, right: Right) -> usize
    ensures seat { result ≡ seat_of (record { thread = thread; base = base; right = right }) }
    ensures within { result < 256 }
{
    let rest = PAGE_STRIDE * (base / PAGE_SIZE) + RIGHT_STRIDE * right_number(right);
    (thread.wrapping_add(rest) % SEAT_COUNT as u64) as usize
}

// The number of a right, in the order of their bits.
fn right_number(right: Right) -> u64
    ensures number { result ≡ right_number right }
    ensures below_6 { result < 6 }
{
    match right {
        Right::R => 0,
        Right::W => 1,
        Right::X => 2,
        Right::D => 3,
        Right::P => 4,
        Right::O => 5,
    }
}
