// The slots of the present frame.
ghost use Rattle.std.specs.Prelude.{◌≡◌, ◌++◌, ◌∷◌, [], suc, drop, length, take, IfOk, MatchResult, None, OnErr, OnOk, Some};
ghost use Rattle.mg_apd.specs.Refusals.{dropping_refusal, pushing_refusal};
ghost use Rattle.mg_model.specs.Access.{last_slots};
ghost use Rattle.mg_model.specs.Domains.{with_last_slots};

use crate::present::{present, put_present};
use mg_model::limits::SLOT_LIMIT;
use mg_model::{Refusal, Slot, ThrRow};

/// One slot more in a thread's present frame, the last; its number, from 0 on. A frame that has 8 slots is refused (SlotFull),
/// and the row then stays. The slot itself is not tested.
pub fn push_slot(row: &mut ThrRow, slot: Slot) -> Result<u64, Refusal>
    ensures refusal { MatchResult result (λ _. pushing_refusal row.old ≡ None) (λ word. pushing_refusal row.old ≡ Some word) }
    ensures number { IfOk result (λ n. n ≡ length (last_slots row.old.frames)) }
    ensures row { OnOk result (row.new ≡ record row.old { frames = with_last_slots row.old.frames (last_slots row.old.frames ++ slot ∷ []) }) }
    ensures stays { OnErr result (row.new ≡ row.old) }
{
    let mut last = present(row);
    let count = last.slots().len();
    if count >= SLOT_LIMIT {
        return Err(Refusal::SlotFull);
    }
    last.add(slot);
    put_present(row, last);
    Ok(count as u64)
}

/// The slot with this number goes from a thread's present frame, and the later ones close up. A number that no slot has is
/// refused (NoSlot), and the row then stays.
pub fn drop_slot(row: &mut ThrRow, i: u64) -> Result<(), Refusal>
    ensures refusal { MatchResult result (λ _. dropping_refusal row.old i ≡ None) (λ word. dropping_refusal row.old i ≡ Some word) }
    ensures row { OnOk result (row.new ≡ record row.old { frames = with_last_slots row.old.frames (take i (last_slots row.old.frames) ++ drop (suc i) (last_slots row.old.frames)) }) }
    ensures stays { OnErr result (row.new ≡ row.old) }
{
    let mut last = present(row);
    if i >= last.slots().len() as u64 {
        return Err(Refusal::NoSlot);
    }
    last.remove(i as usize);
    put_present(row, last);
    Ok(())
}
