// A mark for each object: a byte with the rights that capabilities give on it, or a rank; and the walk from a start along lists, which gives
// the ranks step by step.
ghost use Rattle.std.specs.Prelude.{◌≡◌, ◌≢◌, ◌+◌, ◌≤◌, ◌<◌, ◌/◌, ◌%◌, ◌==◌, ◌&&◌, ◌||◌, [], ◌∷◌, nat_le, ℕ, All, List, MatchOption, if◌then◌else◌, length, slice_index};
ghost use Rattle.mg_model.specs.Access.{holds};
ghost use Rattle.mg_model.specs.Rights.{has_right};
ghost use Rattle.mg_model.specs.declared.rights.Right.{Right as right};
ghost use Rattle.mg_model.specs.declared.rights.Right.TheVariants.{R};
ghost use Rattle.mg_show.specs.DotText.{holds_now};
ghost use Rattle.mg_show.specs.Marking.{Finds, IsCut, IsPlaceOf, Learns, Marks, gives_rank, is_within, named_by};
ghost use Rattle.mg_show.specs.Reached.{listed};
ghost use Rattle.mg_show.specs.Shown.{CanShow, bare, held_in};
ghost use Rattle.mg_show.specs.Walked.{AreOpened, AreRanked, listed_at};

use crate::held::Shown;
use crate::pages::list_of;
use crate::writer::Writer;
use mg_disk::Disk;
use mg_model::{ObjRow, Right, Slot};
use mg_objects::Objects;

/// Each object gets, in its byte, the rights that capabilities give on it now. Nothing changes for one that names no object.
pub(crate) fn mark(shown: &Shown, capabilities: &[Slot], bytes: &mut [u8])
    requires long { length bytes.old ≡ length shown.now.objects }
    ensures { Marks has_right (holds shown.now.counters.period) shown.now.objects (named_by capabilities.now) bytes.old bytes.new }
{
    let objects = shown.objects.objects();
    let period = shown.counters.period();
    for slot in capabilities {
        if let Some(i) = place_of(objects, slot.base) {
            bytes[i] = with_rights(bytes[i], objects.nth_ref(i), slot.password, period);
        }
    }
}

/// The objects that capabilities name get this rank, if they have none.
pub(crate) fn rank(shown: &Shown, capabilities: &[Slot], rank: u64, ranks: &mut [u64])
    requires some { 1 ≤ rank }
    requires long { length ranks.old ≡ length shown.now.objects }
    ensures { Marks is_within (gives_rank rank) shown.now.objects (named_by capabilities.now) ranks.old ranks.new }
{
    let objects = shown.objects.objects();
    for slot in capabilities {
        match place_of(objects, slot.base) {
            Some(i) => ranks[i] = least(ranks[i], rank),
            None => {}
        }
    }
}

// The less of a rank and the one that an object has, if it has one.
fn least(old: u64, rank: u64) -> u64
    requires { 1 ≤ rank }
    ensures { (n : ℕ) → is_within result n ≡ (is_within old n || nat_le rank n) }
{
    if old != 0 && old <= rank { old } else { rank }
}

/// Each object gets, in its byte, R if a thread reads it as a list.
pub(crate) fn mark_opened(shown: &Shown, bytes: &mut [u8])
    requires long { length bytes.old ≡ length shown.now.objects }
    ensures opened { AreOpened shown.now bytes.new }
    ensures long { length bytes.new ≡ length bytes.old }
{
    clear(bytes);
    for i in 0..shown.threads.len() {
        let last = shown.threads[i].1.last();
        mark(shown, last.slots(), bytes);
    }
}

/// No object has a right.
pub(crate) fn clear(bytes: &mut [u8])
    ensures zeros { (i : ℕ) → slice_index bytes.new i ≡ 0 }
    ensures long { length bytes.new ≡ length bytes.old }
{
    bytes.fill(0);
}

/// Each object gets this mark.
pub(crate) fn fill(marks: &mut [u64], mark: u64)
    ensures same { (i : ℕ) → i < length marks.old → slice_index marks.new i ≡ mark }
    ensures long { length marks.new ≡ length marks.old }
{
    marks.fill(mark);
}

/// The rights that a password gives now on the object with this base, as bits; none if there is no such object.
pub(crate) fn rights_on(shown: &Shown, base: u64, password: u64) -> u8
    ensures { (x : right) → has_right result x ≡ holds_now (bare shown.now) base password x }
{
    match shown.objects.get(base) {
        Some(row) => with_rights(0, row, password, shown.counters.period()),
        None => 0,
    }
}

/// Whether bits have R.
pub(crate) fn has_r(bits: u8) -> bool
    ensures { result ≡ has_right bits Right.R }
{
    bits % 2 == 1
}

/// Whether an object with this rank is reached in fewer than `steps` steps.
pub(crate) fn is_within(rank: u64, steps: u64) -> bool
    ensures { result ≡ is_within rank steps }
{
    rank != 0 && rank <= steps
}

// The place of the object with this base in the order of the bases.
fn place_of(objects: &Objects, base: u64) -> Option<usize>
    ensures { MatchOption result (All (λ o. o.1.base ≢ base) objects.now) (λ i. IsPlaceOf objects.now base i) }
{
    let i = count_below(objects, base);
    if i >= objects.len() {
        return None;
    }
    if objects.nth_ref(i).base() != base {
        return None;
    }
    Some(i)
}

// How many objects begin before this address.
fn count_below(objects: &Objects, base: u64) -> usize
    ensures { IsCut objects.now base result }
{
    let mut low = 0;
    let mut high = objects.len();
    while low < high {
        let middle = low + (high - low) / 2;
        if objects.nth_ref(middle).base() < base {
            low = middle + 1;
        } else {
            high = middle;
        }
    }
    low
}

// The rights in a byte and those that a password gives on an object at a period.
fn with_rights(byte: u8, row: &ObjRow, password: u64, period: u64) -> u8
    ensures { (x : right) → has_right result x ≡ (has_right byte x || holds period row.now password x) }
{
    joined(byte, 1, row, password, Right::R, period)
        + 2 * joined(byte, 2, row, password, Right::W, period)
        + 4 * joined(byte, 4, row, password, Right::X, period)
        + 8 * joined(byte, 8, row, password, Right::D, period)
        + 16 * joined(byte, 16, row, password, Right::P, period)
        + 32 * joined(byte, 32, row, password, Right::O, period)
}

// 1 if a byte has this weight, or the password gives the right on the object at the period, else 0.
fn joined(byte: u8, weight: u8, row: &ObjRow, password: u64, right: Right, period: u64) -> u8
    requires { 1 ≤ weight }
    ensures { result ≡ (if byte / weight % 2 == 1 || holds period row.now password right then 1 else 0) }
{
    if byte / weight % 2 == 1 || row.holds(password, right, period) {
        1
    } else {
        0
    }
}

/// The objects that are reached in at most `steps` steps get their ranks; those of the start have theirs. A byte has R for each object that a
/// thread reads as a list. Each list is read once.
#[tactic(auto, using(crate::proofs::Learning::still_shown))]
pub(crate) fn walk<D: Disk>(
    shown: &Shown,
    bytes: &[u8],
    steps: u64,
    ranks: &mut [u64],
    disk: &mut D,
    out: &mut Writer,
)
    requires few { steps ≤ 65535 }
    requires long { length bytes.now ≡ length shown.now.objects }
    requires long_ranks { length ranks.old ≡ length shown.now.objects }
    requires opened { AreOpened shown.now bytes.now }
    requires can { CanShow D.Disk shown.now disk.old }
    ensures ranks { Learns D.Disk (held_in shown.now) (λ r. (bases : List ℕ) → AreRanked shown.now r bases 1 ranks.old → AreRanked shown.now r bases (steps + 1) ranks.new) disk.old disk.new out.old out.new }
    ensures long { length ranks.new ≡ length ranks.old }
{
    for k in 0..steps {
        go_on(shown, bytes, k + 1, ranks, disk, out);
    }
}

// A step from the lists whose rank is `last`.
#[tactic(auto, using(crate::proofs::Learning::still_shown))]
fn go_on<D: Disk>(
    shown: &Shown,
    bytes: &[u8],
    last: u64,
    ranks: &mut [u64],
    disk: &mut D,
    out: &mut Writer,
)
    requires some { 1 ≤ last }
    requires few { last ≤ 65535 }
    requires long { length bytes.now ≡ length shown.now.objects }
    requires long_ranks { length ranks.old ≡ length shown.now.objects }
    requires can { CanShow D.Disk shown.now disk.old }
    ensures { Finds D.Disk (held_in shown.now) is_within (gives_rank (last + 1)) shown.now.objects (λ r. listed_at shown.now r bytes.now ranks.old last shown.now.objects) disk.old disk.new ranks.old ranks.new out.old out.new }
{
    for i in 0..shown.count() {
        let row = shown.row(i);
        if (ranks[i] == last) & has_r(bytes[i]) {
            let list = list_of(shown, row, disk, out);
            rank(shown, list.as_slice(), last + 1, ranks);
        }
    }
}
