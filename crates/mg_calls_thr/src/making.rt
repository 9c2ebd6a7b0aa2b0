// Threads are made.
ghost use Rattle.std.specs.Prelude.{◌≡◌, ◌≤◌, ◌<◌, ◌+◌, ◌%◌, ◌||◌, true, false, nat_le, length, IfSome, MatchOption};
ghost use Rattle.std.specs.Option.{ForSome};
ghost use Rattle.mg_access.specs.Served.{CallServes, of_call};
ghost use Rattle.mg_calls_thr.specs.Making.{Begins, first_frame, first_row};
ghost use Rattle.mg_model.specs.Abbreviations as names;
ghost use Rattle.mg_model.specs.Limits.{birth_limit, thread_limit};
ghost use Rattle.mg_vcache.specs.Seats.{AllBacked};
ghost use Rattle.mg_volume.specs.Calls.{CallStages, IsSoundOn};
ghost use Rattle.mg_volume.specs.Meaning.{counters_in, now_of, staged_of, threads_in};
ghost use Rattle.mg_volume.specs.Staging.{lives};

use mg_access::{row_of, word_object};
use mg_disk::Disk;
use mg_faults::Failed;
use mg_laws::steps_keep_backing;
use mg_model::limits::BIRTH_LIMIT;
use mg_model::{Call, Frame, Globals, Line, Refusal, Reply, Right, Steps, ThrRow};
use mg_vcache::VCache;
use mg_volume::Volume;
use std::sync::ledger::Ledger;

/// A new thread, Ready at an address, with registers 0 and one frame: the slots of the thread's present frame, and 0 to return to.
/// Its number is the lowest that no thread has, 1 to 256; its birth is the next one, and its creator's is that of the thread. Gives the
/// number. If there are 256 threads, or no birth is left below `2^32`, it is refused (Limit), and nothing changes.
///
/// Whether the thread may execute at the address is not asked: [`validated_make`] asks.
pub fn make(volume: &mut Volume, thread: u64, pc: u64) -> Reply
    requires lives { lives volume.old thread ≡ true }
    requires at_most_158_staged { staged_of volume.old ≤ 158 }
    requires aligned { pc % 8 ≡ 0 }
    ensures { CallStages (Begins thread pc) 2 volume.old volume.new result }
{
    match next_number(volume) {
        Some(number) => {
            let counted = counted(volume);
            let row = first_row(&row_of(volume, thread), volume.globals().births(), pc);
            volume.stage_globals(counted);
            volume.stage_thread(number, Some(row));
            Reply::Count(number)
        }
        None => Reply::No(Refusal::Limit),
    }
}

/// A new thread as by [`make`], if the thread may execute at the address. No right that was found ends.
///
/// The refusals come in this order: an address that is no multiple of 8 (Align), before any word is read; no X (Denied); 256
/// threads, or no birth left below `2^32` (Limit). [`Failed`] comes only if a call of the disk failed, and the state then
/// stays, as after a refusal.
pub fn validated_make<D: Disk, L: Ledger>(
    volume: &mut Volume,
    cache: &mut VCache,
    disk: &mut D,
    thread: u64,
    pc: u64,
    steps: &mut Steps<L>,
) -> Result<Reply, Failed>
    requires sound { IsSoundOn D.Disk volume.old disk.old }
    requires lives { lives volume.old thread ≡ true }
    requires at_most_158_staged { staged_of volume.old ≤ 158 }
    requires backed { ForSome (D.seen disk.old) (λ image. AllBacked (now_of volume.old image) cache.old) }
    ensures { CallServes 2 D.Disk (of_call thread (Call.Thread pc)) result volume.old volume.new cache.old cache.new disk.old disk.new steps.old steps.new }
{
    steps_keep_backing();
    match word_object(volume, cache, disk, thread, pc, Right::X, steps)? {
        Ok(_) => Ok(make(volume, thread, pc)),
        Err(word) => Ok(Reply::No(word)),
    }
}

// The number that a new thread gets; none if there are 256 threads, or no birth is left.
fn next_number(volume: &Volume) -> Option<u64>
    ensures number { MatchOption result ((nat_le thread_limit (length (threads_in volume.now)) || nat_le birth_limit (counters_in volume.now).births) ≡ true)
        (λ n. ((nat_le thread_limit (length (threads_in volume.now)) || nat_le birth_limit (counters_in volume.now).births) ≡ false) × (n ≡ names.free_number (threads_in volume.now)) × (lives volume.now n ≡ false)) }
    ensures range { IfSome result (λ n. (1 ≤ n) × (n ≤ 256)) }
    ensures births { IfSome result (λ _. (counters_in volume.now).births < birth_limit) }
{
    if volume.globals().births() >= BIRTH_LIMIT {
        return None;
    }
    volume.free_number()
}

// The counters, with one birth more.
fn counted(volume: &Volume) -> Globals
    requires { (counters_in volume.now).births < birth_limit }
    ensures { result ≡ record (counters_in volume.now) { births = (counters_in volume.now).births + 1 } }
{
    let mut globals = volume.globals();
    let births = globals.births();
    globals.set_births(births + 1);
    globals
}

// The row of a new thread, made by the thread with this row, after `births` births. No thread was born later than the last, so
// its creator is the thread with this row.
fn first_row(maker: &ThrRow, births: u64, pc: u64) -> ThrRow
    requires births_below_birth_limit { births < birth_limit }
    requires aligned { pc % 8 ≡ 0 }
    ensures { result ≡ first_row maker.now births pc }
{
    let creator = maker.birth().min(births);
    ThrRow::new(births + 1, creator, pc, first_frame(maker))
}

// The one frame of a new thread: the slots of its maker's present frame.
fn first_frame(maker: &ThrRow) -> Frame
    ensures { result ≡ first_frame maker.now }
{
    let mut frame = maker.last();
    frame.set_back(0);
    frame
}
