// Which seats may be those of a list, an object or a thread.
ghost use Rattle.std.specs.Prelude.{◌≡◌, ◌+◌, ◌*◌, ◌/◌, ◌<◌, List, ℕ, length, slice_index_or, slice_set, Option, false, true};
ghost use Rattle.mg_model.specs.declared.seats.Seat.{Seat};
ghost use Rattle.mg_vcache.specs.Marks.{IsMarked, StayMarked, is_in_row, list_row, mark_at, object_row, thread_row};

use mg_model::Seat;
use mg_model::limits::PAGE_SIZE;

/// How many seats have a mark together.
pub(crate) const GROUP: usize = 16;

/// How many marks there are: 192 rows, 64 each for lists, objects and threads, of 16.
pub(crate) const MARK_COUNT: usize = 3072;

/// The row of a list, by its base.
pub(crate) fn list_row(base: u64) -> usize
    ensures row { result ≡ list_row base }
    ensures within { result < 192 }
{
    (base / PAGE_SIZE % 64) as usize
}

/// The row of an object, by its base.
pub(crate) fn object_row(base: u64) -> usize
    ensures row { result ≡ object_row base }
    ensures within { result < 192 }
{
    64 + (base / PAGE_SIZE % 64) as usize
}

/// The row of a thread.
pub(crate) fn thread_row(thread: u64) -> usize
    ensures row { result ≡ thread_row thread }
    ensures within { result < 192 }
{
    128 + (thread % 64) as usize
}

/// Whether a seat's list, object or thread has this row.
pub(crate) fn is_in_row(row: usize, seat: &Seat) -> bool
    ensures { result ≡ is_in_row row seat.now }
{
    list_row(seat.via) == row || object_row(seat.base) == row || thread_row(seat.thread) == row
}

/// Marks the place of a seat in each of its rows.
pub(crate) fn mark(marks: &mut [bool], place: usize, seat: &Seat)
    requires place { place < 256 }
    requires size { length marks.old ≡ 3072 }
    ensures marked { IsMarked marks.new place seat.now }
    ensures stays { StayMarked marks.old marks.new }
    ensures size { length marks.new ≡ 3072 }
{
    mark_in(marks, list_row(seat.via), place);
    mark_in(marks, object_row(seat.base), place);
    mark_in(marks, thread_row(seat.thread), place);
}

// Marks a place in a row.
fn mark_in(marks: &mut [bool], row: usize, place: usize)
    requires row { row < 192 }
    requires place { place < 256 }
    requires size { length marks.old ≡ 3072 }
    ensures { marks.new ≡ slice_set marks.old (mark_at row place) true }
{
    marks[GROUP * row + place / GROUP] = true;
}
