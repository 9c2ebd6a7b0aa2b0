// The search through the capability lists of a thread, over the words of the moment.
ghost use Rattle.std.specs.Prelude.{List, ◌≡◌, ◌≤◌, ◌<◌, ◌+◌, ◌*◌, ◌/◌, ◌==◌, ℕ, true, false, find, length, slice_index, IfOk, IfSome, IsSome, MatchOption, MatchResult, None, OnErr};
ghost use Rattle.std.specs.List.{list_any};
ghost use Rattle.std.specs.Option.{ForSome};
ghost use Rattle.mg_access.specs.Searching as searching;
ghost use Rattle.mg_access.specs.Searching.{IsOpenedBy};
ghost use Rattle.mg_disk.specs.Stops.{CountRose};
ghost use Rattle.mg_model.specs.Access.{domain_of, pairs_of};
ghost use Rattle.mg_model.specs.Limits.{page_size, search_limit};
ghost use Rattle.mg_volume.specs.Pairs.{ArePlaces, IsNextPair, words_looked_at};
ghost use Rattle.mg_volume.specs.Calls.{IsSoundOn, Reads};
ghost use Rattle.mg_volume.specs.Meaning.{has_page, now_of, objects_in, threads_in};

use mg_apd::entries;
use mg_disk::Disk;
use mg_faults::Failed;
use mg_model::limits::PAGE_SIZE;
use mg_model::{ObjRow, Right, Slot, Steps};
use mg_passwords::holds;
use mg_volume::Volume;
use std::sync::ledger::Ledger;

/// What is looked for in capability lists: an object, and a right to it at a period.
#[derive(Drop)]
pub(crate) struct Sought {
    pub(crate) object: ObjRow,
    pub(crate) right: Right,
    pub(crate) period: u64,
}

// A word of the first page of an object, which is its capability list.
fn list_word<D: Disk, L: Ledger>(
    volume: &mut Volume,
    disk: &mut D,
    list: u64,
    index: u64,
    steps: &mut Steps<L>,
) -> Result<u64, Failed>
    requires sound { IsSoundOn D.Disk volume.old disk.old }
    requires held { IsSome (find (λ row. row.base == list) (objects_in volume.old)) }
    requires page { has_page volume.old (list / page_size) ≡ true }
    requires index { index < 512 }
    ensures word { IfOk result (λ word. ForSome (D.seen disk.old) (λ image. word ≡ slice_index (searching.words_based (now_of volume.old image).objects list) index)) }
    ensures counts { MatchResult result (λ _. steps.new ≡ steps.old + 1) (λ _. steps.new ≡ steps.old) }
    ensures reads { Reads D.Disk volume.old volume.new disk.old disk.new steps.old steps.new }
    ensures cause { OnErr result (CountRose D.Disk disk.old disk.new) }
{
    volume.word(disk, list / PAGE_SIZE, index, steps)
}

// The first entry of a capability list from place `from` on, and before place `count`, that is for the object with this base: its
// place and its password. The password is read only of such an entry.
fn next_entry<D: Disk, L: Ledger>(
    volume: &mut Volume,
    disk: &mut D,
    list: u64,
    from: u64,
    count: u64,
    base: u64,
    steps: &mut Steps<L>,
) -> Result<Option<(u64, u64)>, Failed>
    requires sound { IsSoundOn D.Disk volume.old disk.old }
    requires held { IsSome (find (λ row. row.base == list) (objects_in volume.old)) }
    requires page { has_page volume.old (list / page_size) ≡ true }
    requires entries { ArePlaces from count }
    ensures found { IfOk result (λ found. ForSome (D.seen disk.old) (λ image. IsNextPair (λ index. slice_index (searching.words_based (now_of volume.old image).objects list) index) from count base found)) }
    ensures place { IfOk result (λ found. IfSome found (λ pair. (from ≤ pair.0) × (pair.0 < count))) }
    ensures counts { MatchResult result (λ found. steps.new ≡ steps.old + words_looked_at from count found) (λ _. steps.new ≡ steps.old) }
    ensures reads { Reads D.Disk volume.old volume.new disk.old disk.new steps.old steps.new }
    ensures cause { OnErr result (CountRose D.Disk disk.old disk.new) }
{
    volume.next_pair(disk, list / PAGE_SIZE, from, count, base, steps)
}

// Whether an entry of a capability list opens the object. The search stops at the first that does.
fn list_opens<D: Disk, L: Ledger>(
    volume: &mut Volume,
    disk: &mut D,
    list: u64,
    sought: &Sought,
    steps: &mut Steps<L>,
) -> Result<bool, Failed>
    requires sound { IsSoundOn D.Disk volume.old disk.old }
    requires held { IsSome (find (λ row. row.base == list) (objects_in volume.old)) }
    requires page { has_page volume.old (list / page_size) ≡ true }
    ensures opens { IfOk result (λ found. ForSome (D.seen disk.old) (λ image. found ≡ list_any (λ entry. searching.opens sought.now entry) (pairs_of (searching.words_based (now_of volume.old image).objects list)))) }
    ensures at_most_511_read { steps.new ≤ steps.old + 511 }
    ensures reads { Reads D.Disk volume.old volume.new disk.old disk.new steps.old steps.new }
    ensures cause { OnErr result (CountRose D.Disk disk.old disk.new) }
{
    let count = entries(list_word(volume, disk, list, 0, steps)?);
    let base = sought.object.base();
    let mut from = 0;
    while from < count {
        match next_entry(volume, disk, list, from, count, base, steps)? {
            Some((j, password)) => {
                if holds(&sought.object, password, sought.right, sought.period) {
                    return Ok(true);
                }
                from = j + 1;
            }
            None => return Ok(false),
        }
    }
    Ok(false)
}

// Whether a slot's capability list is opened by the slot's password, and opens the object.
fn slot_opens<D: Disk, L: Ledger>(
    volume: &mut Volume,
    disk: &mut D,
    slot: &Slot,
    sought: &Sought,
    steps: &mut Steps<L>,
) -> Result<bool, Failed>
    requires sound { IsSoundOn D.Disk volume.old disk.old }
    ensures opens { IfOk result (λ found. ForSome (D.seen disk.old) (λ image. found ≡ searching.slot_opens (now_of volume.old image) sought.now slot.now)) }
    ensures at_most_511_read { steps.new ≤ steps.old + 511 }
    ensures reads { Reads D.Disk volume.old volume.new disk.old disk.new steps.old steps.new }
    ensures cause { OnErr result (CountRose D.Disk disk.old disk.new) }
{
    let Some(clist) = volume.object_ref(slot.base) else {
        return Ok(false);
    };
    if !holds(clist, slot.password, Right::R, sought.period) {
        return Ok(false);
    }
    let list = clist.base;
    list_opens(volume, disk, list, sought, steps)
}

// The capability list of the first of these slots that opens the object. The search stops there.
fn list_among<D: Disk, L: Ledger>(
    volume: &mut Volume,
    disk: &mut D,
    slots: &[Slot],
    sought: &Sought,
    steps: &mut Steps<L>,
) -> Result<Option<u64>, Failed>
    requires sound { IsSoundOn D.Disk volume.old disk.old }
    ensures via { IfOk result (λ via. ForSome (D.seen disk.old) (λ image. MatchOption via (list_any (λ slot. searching.slot_opens (now_of volume.old image) sought.now slot) slots.now ≡ false) (λ via. IsOpenedBy (now_of volume.old image) sought.now slots.now via))) }
    ensures at_most_511_a_slot_read { steps.new ≤ steps.old + 511 * length slots.now }
    ensures reads { Reads D.Disk volume.old volume.new disk.old disk.new steps.old steps.new }
    ensures cause { OnErr result (CountRose D.Disk disk.old disk.new) }
{
    for slot in slots {
        if slot_opens(volume, disk, slot, sought, steps)? {
            return Ok(Some(slot.base));
        }
    }
    Ok(None)
}

/// The capability list by which a thread reaches the object: that of the first slot of its present frame that opens it. None
/// if none does, or no such thread lives.
pub(crate) fn list_of<D: Disk, L: Ledger>(
    volume: &mut Volume,
    disk: &mut D,
    thread: u64,
    sought: &Sought,
    steps: &mut Steps<L>,
) -> Result<Option<u64>, Failed>
    requires sound { IsSoundOn D.Disk volume.old disk.old }
    ensures via { IfOk result (λ via. ForSome (D.seen disk.old) (λ image. MatchOption via (list_any (λ slot. searching.slot_opens (now_of volume.old image) sought.now slot) (domain_of (now_of volume.old image) thread) ≡ false) (λ via. IsOpenedBy (now_of volume.old image) sought.now (domain_of (now_of volume.old image) thread) via))) }
    ensures at_most_search_limit_read { steps.new ≤ steps.old + search_limit }
    ensures nobody { find (λ other. other.number == thread) (threads_in volume.old) ≡ None → steps.new ≡ steps.old }
    ensures reads { Reads D.Disk volume.old volume.new disk.old disk.new steps.old steps.new }
    ensures cause { OnErr result (CountRose D.Disk disk.old disk.new) }
{
    match volume.frame(thread) {
        Some(present) => list_among(volume, disk, present.slots.as_slice(), sought, steps),
        None => Ok(None),
    }
}
