// Frames are entered, and left.
ghost use Rattle.std.specs.Prelude.{◌≡◌, ◌≤◌, ◌<◌, ◌+◌, ◌-◌, ◌/◌, ◌%◌, ◌^◌, ◌==◌, ◌++◌, ◌∷◌, [], nat_lt, true, false, if◌then◌else◌, length, slice_index_or, take, IfOk, MatchOption, MatchResult, None, OnErr, OnOk, Some};
ghost use Rattle.mg_apd.specs.Refusals.{entered_slots, entering_refusal, leaving_refusal};
ghost use Rattle.mg_model.specs.Domains.{kept_from, last_back};
ghost use Rattle.mg_model.specs.Limits.{slot_limit};

use crate::present::present;
use mg_model::limits::{FRAME_LIMIT, SLOT_LIMIT};
use mg_model::{Frame, Refusal, Slot, ThrRow};

/// A thread continues at an address, a multiple of 8, under a new frame, which returns to where the thread is. Its slots are
/// those of the present frame whose bit of the mask is 1, in their order (the bit with weight `2^j` is that of slot j), and
/// then the extension, if there is one. Gives how many frames there are then.
///
/// The refusals come in this order: a thread with 16 frames (Depth), more than 8 slots (SlotFull). The row then stays.
pub fn enter(row: &mut ThrRow, address: u64, mask: u8, ext: Option<Slot>) -> Result<u64, Refusal>
    requires { address % 8 ≡ 0 }
    ensures refusal { MatchResult result (λ _. entering_refusal row.old mask ext ≡ None) (λ word. entering_refusal row.old mask ext ≡ Some word) }
    ensures number { IfOk result (λ n. n ≡ length row.old.frames + 1) }
    ensures row { OnOk result (row.new ≡ record row.old { pc = address; frames = row.old.frames ++ record { back = row.old.pc; slots = entered_slots row.old mask ext } ∷ [] }) }
    ensures stays { OnErr result (row.new ≡ row.old) }
{
    let count = row.frames().len();
    if count >= FRAME_LIMIT {
        return Err(Refusal::Depth);
    }
    let Some(frame) = frame_entered(row, mask, ext) else {
        return Err(Refusal::SlotFull);
    };
    row.push_frame(frame);
    row.set_pc(address);
    Ok(count as u64 + 1)
}

/// A thread's present frame goes, and the thread continues at the address that the frame returns to, under the frame below.
/// Gives how many frames there are then. A thread with one frame is refused (NoFrame), and the row then stays.
pub fn leave(row: &mut ThrRow) -> Result<u64, Refusal>
    ensures refusal { MatchResult result (λ _. leaving_refusal row.old ≡ None) (λ word. leaving_refusal row.old ≡ Some word) }
    ensures number { IfOk result (λ n. n ≡ length row.old.frames - 1) }
    ensures row { OnOk result (row.new ≡ record row.old { pc = last_back row.old.frames; frames = take (length row.old.frames - 1) row.old.frames }) }
    ensures stays { OnErr result (row.new ≡ row.old) }
{
    let count = row.frames().len();
    if count <= 1 {
        return Err(Refusal::NoFrame);
    }
    let last = present(row);
    row.pop_frame();
    row.set_pc(last.back());
    Ok(count as u64 - 1)
}

// The frame that a thread enters; none if it would have more than 8 slots.
fn frame_entered(row: &ThrRow, mask: u8, ext: Option<Slot>) -> Option<Frame>
    ensures fits { MatchOption result (nat_lt slot_limit (length (entered_slots row.now mask ext)) ≡ true) (λ _. nat_lt slot_limit (length (entered_slots row.now mask ext)) ≡ false) }
    ensures frame { MatchOption result (Unit {0}) (λ frame. frame ≡ record { back = row.now.pc; slots = entered_slots row.now mask ext }) }
{
    let last = present(row);
    let kept = frame_kept(last.slots.as_slice(), mask, row.pc);
    match ext {
        Some(slot) => with_slot(kept, slot),
        None => Some(kept),
    }
}

// A frame with these slots, without those whose bit of the mask is 0.
fn frame_kept(slots: &[Slot], mask: u8, back: u64) -> Frame
    requires at_most_8_slots { length slots.now ≤ 8 }
    requires aligned { back % 8 ≡ 0 }
    ensures { result ≡ record { back = back; slots = kept_from mask 0 slots.now } }
{
    let mut frame = Frame::new(back);
    for place in 0..slots.len() {
        keep_slot(&mut frame, slots, mask, place);
    }
    frame
}

// The slot with this number is kept too, if its bit of the mask is 1.
fn keep_slot(frame: &mut Frame, slots: &[Slot], mask: u8, place: usize)
    requires place { place < length slots.now }
    requires place_below_8 { place < 8 }
    requires place_behind_slots { length frame.old.slots ≤ place }
    ensures { frame.new ≡ (if mask / 2 ^ place % 2 == 1 then record frame.old { slots = frame.old.slots ++ slice_index_or slots.now place (record { base = 0; password = 0 }) ∷ [] } else frame.old) }
{
    if is_kept(mask, place) {
        frame.add(slots[place]);
    }
}

// Whether the mask keeps the slot with this number.
fn is_kept(mask: u8, place: usize) -> bool
    requires { place < 8 }
    ensures { result ≡ (mask / 2 ^ place % 2 == 1) }
{
    (mask >> place) % 2 == 1
}

// A frame with one slot more; none if it has 8.
fn with_slot(frame: Frame, slot: Slot) -> Option<Frame>
    ensures fits { MatchOption result (nat_lt slot_limit (length (frame.slots ++ slot ∷ [])) ≡ true) (λ _. nat_lt slot_limit (length (frame.slots ++ slot ∷ [])) ≡ false) }
    ensures more { MatchOption result (Unit {0}) (λ more. more ≡ record frame { slots = frame.slots ++ slot ∷ [] }) }
{
    let mut more = frame;
    if more.slots().len() >= SLOT_LIMIT {
        return None;
    }
    more.add(slot);
    Some(more)
}
