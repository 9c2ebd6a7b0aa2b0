// The calls on the slots that a thread runs under.
ghost use Rattle.std.specs.Prelude.{◌≡◌, ◌≤◌, ◌-◌, ◌++◌, true, length, map, replicate};
ghost use Rattle.mg_access.specs.Backing.{StayBacked};
ghost use Rattle.mg_model.specs.Backed.{by_thread};
ghost use Rattle.mg_model.specs.Domains as domains;
ghost use Rattle.mg_vcache.specs.Drops.{Drops};
ghost use Rattle.mg_volume.specs.Calls.{Answers, CallStages};
ghost use Rattle.mg_volume.specs.Meaning.{staged_of};
ghost use Rattle.mg_volume.specs.Staging.{lives};

use mg_access::row_of;
use mg_apd::{drop_slot, push_slot};
use mg_laws::steps_keep_backing;
use mg_model::limits::SLOT_LIMIT;
use mg_model::{Reply, Slot};
use mg_vcache::VCache;
use mg_volume::Volume;

/// One slot more for a thread's present frame, the last: a capability list, by its base, and the password that is to open it,
/// neither of which is tested. Gives the number of the slot, from 0 on. A frame that has 8 slots is refused (SlotFull). No
/// right that was found ends.
pub fn apdadd(
    volume: &mut Volume,
    cache: &mut VCache,
    thread: u64,
    clist: u64,
    password: u64,
) -> Reply
    requires lives { lives volume.old thread ≡ true }
    requires at_most_159_staged { staged_of volume.old ≤ 159 }
    ensures does { CallStages (Answers (λ state. domains.apdadd state thread clist password)) 1 volume.old volume.new result }
    ensures seats { cache.new ≡ cache.old }
    ensures backed { StayBacked volume.old volume.new cache.old cache.new }
{
    steps_keep_backing();
    let mut row = row_of(volume, thread);
    let slot = Slot {
        base: clist,
        password,
    };
    match push_slot(&mut row, slot) {
        Ok(count) => {
            volume.change_thread(thread, row);
            Reply::Count(count)
        }
        Err(word) => Reply::No(word),
    }
}

/// The slot with this number goes from a thread's present frame, and the later ones close up. All rights that were found for
/// the thread end. A number that no slot has is refused (NoSlot).
pub fn apddel(volume: &mut Volume, cache: &mut VCache, thread: u64, index: u64) -> Reply
    requires lives { lives volume.old thread ≡ true }
    requires at_most_159_staged { staged_of volume.old ≤ 159 }
    ensures does { CallStages (Answers (λ state. domains.apddel state thread index)) 1 volume.old volume.new result }
    ensures seats { Drops (by_thread thread) cache.old cache.new result }
    ensures backed { StayBacked volume.old volume.new cache.old cache.new }
{
    steps_keep_backing();
    let mut row = row_of(volume, thread);
    match drop_slot(&mut row, index) {
        Ok(()) => {
            volume.change_thread(thread, row);
            cache.drop_thread(thread);
            Reply::Done
        }
        Err(word) => Reply::No(word),
    }
}

/// How many slots a thread's present frame has, 8 at most, and the bases of their capability lists in order, with 0 past the
/// count. No password is shown.
pub fn apdlist(volume: &Volume, thread: u64) -> Reply
    requires lives { lives volume.now thread ≡ true }
    ensures { CallStages (Answers (λ state. domains.apdlist state thread)) 0 volume.now volume.now result }
{
    match volume.frame(thread) {
        Some(present) => listed(present.slots.as_slice()),
        None => unreachable!(),
    }
}

// The reply that shows these slots.
#[tactic(auto, using(crate::proofs::SlotCalls::shown_more))]
fn listed(slots: &[Slot]) -> Reply
    requires { length slots.now ≤ 8 }
    ensures { result ≡ Reply.Slots (length slots.now) (map (λ slot. slot.base) slots.now ++ replicate (8 - length slots.now) 0) }
{
    let mut bases = [0; SLOT_LIMIT];
    for place in 0..slots.len() {
        bases[place] = slots[place].base;
    }
    Reply::Slots {
        count: slots.len() as u64,
        bases,
    }
}
