// Threads are ended, and resumed.
ghost use Rattle.std.specs.Prelude.{◌≡◌, ◌≤◌, ◌==◌, true};
ghost use Rattle.mg_access.specs.Backing.{StayBacked};
ghost use Rattle.mg_model.specs.Backed.{by_thread};
ghost use Rattle.mg_model.specs.Threads as threads;
ghost use Rattle.mg_vcache.specs.Drops.{Drops};
ghost use Rattle.mg_volume.specs.Calls.{Answers, CallStages};
ghost use Rattle.mg_volume.specs.Meaning.{staged_of};
ghost use Rattle.mg_volume.specs.Staging.{lives};

use crate::owning::not_own;
use mg_access::row_of;
use mg_laws::steps_keep_backing;
use mg_model::{Refusal, Reply, ThrRow, ThrState};
use mg_vcache::VCache;
use mg_volume::Volume;

/// The thread that never ends.
const FIRST_THREAD: u64 = 1;

/// The thread with this number ends: its number is free then. It may be the calling thread itself, or one that it created; what
/// it created itself continues. All rights that were found for it end.
///
/// The refusals come in this order: no thread with the number (NoThread); thread 1, or one that is neither the calling thread nor
/// created by it (NotYours).
/// Both the state and what is kept of rights then stay.
pub fn end(volume: &mut Volume, cache: &mut VCache, thread: u64, number: u64) -> Reply
    requires lives { lives volume.old thread ≡ true }
    requires at_most_159_staged { staged_of volume.old ≤ 159 }
    ensures does { CallStages (Answers (λ state. threads.end_thread state thread number)) 1 volume.old volume.new result }
    ensures seats { Drops (by_thread number) cache.old cache.new result }
    ensures backed { StayBacked volume.old volume.new cache.old cache.new }
{
    steps_keep_backing();
    match not_own(volume, thread, number) {
        Some(word) => Reply::No(word),
        None => {
            if is_first(number) {
                return Reply::No(Refusal::NotYours);
            }
            volume.stage_thread(number, None);
            cache.drop_thread(number);
            Reply::Done
        }
    }
}

/// The thread with this number is Ready, whatever it was before; its pc, its registers and its frames stay. It may be the calling
/// thread itself, or one that it created. No right that was found ends.
///
/// The refusals come in this order: no thread with the number (NoThread); one that is neither the calling thread nor created by it
/// (NotYours). The state then stays.
pub fn resume(volume: &mut Volume, thread: u64, number: u64) -> Reply
    requires lives { lives volume.old thread ≡ true }
    requires at_most_159_staged { staged_of volume.old ≤ 159 }
    ensures { CallStages (Answers (λ state. threads.resume state thread number)) 1 volume.old volume.new result }
{
    match not_own(volume, thread, number) {
        Some(word) => Reply::No(word),
        None => {
            let row = ready(row_of(volume, number));
            volume.change_thread(number, row);
            Reply::Done
        }
    }
}

// Whether a number is that of the first thread.
fn is_first(number: u64) -> bool
    ensures { result ≡ (number == 1) }
{
    number == FIRST_THREAD
}

// A thread's row, Ready.
fn ready(row: ThrRow) -> ThrRow
    ensures { result ≡ record row { state = ThrState.Ready } }
{
    let mut ready = row;
    ready.set_state(ThrState::Ready);
    ready
}
