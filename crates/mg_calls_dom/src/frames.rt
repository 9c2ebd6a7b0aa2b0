// The calls that enter an object by one of its entries, and return.
ghost use Rattle.std.specs.Prelude.{List, ◌≡◌, ◌≤◌, ◌+◌, ◌%◌, ◌==◌, ◌++◌, ◌∷◌, [], ℕ, true, find, length, IfOk, IfSome, MatchResult, None, OnErr, OnOk, Some};
ghost use Rattle.std.specs.Option.{ForSome};
ghost use Rattle.mg_access.specs.Backing.{StayBacked};
ghost use Rattle.mg_access.specs.Searching.{access_refusal};
ghost use Rattle.mg_access.specs.Served.{CallServes, of_call};
ghost use Rattle.mg_apd.specs.Refusals.{entered_slots};
ghost use Rattle.mg_calls_dom.specs.Entering.{pdx_refusal};
ghost use Rattle.mg_model.specs.Backed.{by_thread};
ghost use Rattle.mg_model.specs.Domains as domains;
ghost use Rattle.mg_model.specs.ObjectCalls.{row_at};
ghost use Rattle.mg_model.specs.State.{ThreadRow};
ghost use Rattle.mg_vcache.specs.Drops.{Drops};
ghost use Rattle.mg_vcache.specs.Seats.{AllBacked, without};
ghost use Rattle.mg_volume.specs.Calls.{Answers, CallStages, IsSoundOn, Stages};
ghost use Rattle.mg_volume.specs.Meaning.{now_of, staged_of, threads_in};
ghost use Rattle.mg_volume.specs.Staging.{lives};

use mg_access::{row_of, word_object};
use mg_apd::{enter, leave};
use mg_disk::Disk;
use mg_faults::Failed;
use mg_laws::steps_keep_backing;
use mg_model::{Call, Line, ObjRow, Refusal, Reply, Right, Steps, ThrRow};
use mg_vcache::VCache;
use mg_volume::Volume;
use std::sync::ledger::Ledger;

/// A thread continues at an address, an entry of the object that has it, under a new frame, the last. The frame returns to the
/// place of the thread before; its slots are those of the present frame whose bit of the mask is 1, in their order (bit 0, of the least
/// weight, is that of the first), and after them the object's extension, if it has one. Gives how many frames there are then.
/// All that is kept of the thread's rights is dropped.
///
/// The refusals come in this order: an address that is no multiple of 8 (Align), before any word is read; no P (Denied); an
/// address that is no entry of its object (NoEntry); 16 frames (Depth); more than 8 slots (SlotFull). [`Failed`] comes only
/// if a call of the disk failed, and the state then stays, as after a refusal.
pub fn pdx<D: Disk, L: Ledger>(
    volume: &mut Volume,
    cache: &mut VCache,
    disk: &mut D,
    thread: u64,
    address: u64,
    mask: u8,
    steps: &mut Steps<L>,
) -> Result<Reply, Failed>
    requires sound { IsSoundOn D.Disk volume.old disk.old }
    requires lives { lives volume.old thread ≡ true }
    requires at_most_158_staged { staged_of volume.old ≤ 158 }
    requires backed { ForSome (D.seen disk.old) (λ image. AllBacked (now_of volume.old image) cache.old) }
    ensures { CallServes 1 D.Disk (of_call thread (Call.Pdx address mask)) result volume.old volume.new cache.old cache.new disk.old disk.new steps.old steps.new }
{
    steps_keep_backing();
    match word_object(volume, cache, disk, thread, address, Right::P, steps)? {
        Ok(object) => match step_in(volume, cache, thread, address, mask, &object) {
            Ok(count) => Ok(Reply::Count(count)),
            Err(word) => Ok(Reply::No(word)),
        },
        Err(word) => Ok(Reply::No(word)),
    }
}

/// A thread's present frame goes, and the thread continues at the address that the frame returns to, under the frame below it.
/// Gives how many frames there are then. All that is kept of the thread's rights is dropped. A thread with one frame is
/// refused (NoFrame).
pub fn ret(volume: &mut Volume, cache: &mut VCache, thread: u64) -> Reply
    requires lives { lives volume.old thread ≡ true }
    requires at_most_159_staged { staged_of volume.old ≤ 159 }
    ensures does { CallStages (Answers (λ state. domains.ret state thread)) 1 volume.old volume.new result }
    ensures seats { Drops (by_thread thread) cache.old cache.new result }
    ensures backed { StayBacked volume.old volume.new cache.old cache.new }
{
    steps_keep_backing();
    let mut row = row_of(volume, thread);
    match leave(&mut row) {
        Ok(count) => {
            change_frames(volume, cache, thread, row);
            Reply::Count(count)
        }
        Err(word) => Reply::No(word),
    }
}

// A thread enters the object that has an address, if the access is allowed.
fn step_in(
    volume: &mut Volume,
    cache: &mut VCache,
    thread: u64,
    address: u64,
    mask: u8,
    object: &ObjRow,
) -> Result<u64, Refusal>
    requires lives { lives volume.old thread ≡ true }
    requires at_most_158_staged { staged_of volume.old ≤ 158 }
    requires aligned { address % 8 ≡ 0 }
    ensures answers { (image : List (List ℕ)) → access_refusal (now_of volume.old image) thread address Right.P ≡ None → row_at (now_of volume.old image) address ≡ object.now
        → MatchResult result (λ count. domains.pdx (now_of volume.old image) thread address mask ≡ (now_of volume.new image, Reply.Count count)) (λ word. domains.pdx (now_of volume.old image) thread address mask ≡ (now_of volume.new image, Reply.No word)) }
    ensures seats { OnOk result (cache.new ≡ without (by_thread thread) cache.old) }
    ensures kept { OnErr result (cache.new ≡ cache.old) }
    ensures stages { Stages 1 volume.old volume.new }
    ensures stays { OnErr result (volume.new ≡ volume.old) }
{
    let mut row = row_of(volume, thread);
    match enter_object(&mut row, address, mask, object) {
        Ok(count) => {
            change_frames(volume, cache, thread, row);
            Ok(count)
        }
        Err(word) => Err(word),
    }
}

// A thread's row enters an object by an address of it.
fn enter_object(row: &mut ThrRow, address: u64, mask: u8, object: &ObjRow) -> Result<u64, Refusal>
    requires { address % 8 ≡ 0 }
    ensures refusal { MatchResult result (λ _. pdx_refusal row.old object.now address mask ≡ None) (λ word. pdx_refusal row.old object.now address mask ≡ Some word) }
    ensures number { IfOk result (λ count. count ≡ length row.old.frames + 1) }
    ensures entered { OnOk result (row.new ≡ record row.old { pc = address; frames = row.old.frames ++ record { back = row.old.pc; slots = entered_slots row.old mask object.now.extension } ∷ [] }) }
{
    if !object.is_entry(address) {
        return Err(Refusal::NoEntry);
    }
    enter(row, address, mask, object.ext())
}

// Another row for a thread, with other frames: all that is kept of its rights is dropped.
fn change_frames(volume: &mut Volume, cache: &mut VCache, thread: u64, row: ThrRow)
    requires lives { lives volume.old thread ≡ true }
    requires at_most_159_staged { staged_of volume.old ≤ 159 }
    ensures now { (change : ThreadRow → ThreadRow) → IfSome (find (λ other. other.number == thread) (threads_in volume.old)) (λ other. change other.row ≡ row)
        → (image : List (List ℕ)) → now_of volume.new image ≡ domains.with_thread (now_of volume.old image) thread change }
    ensures seats { cache.new ≡ without (by_thread thread) cache.old }
    ensures stages { Stages 1 volume.old volume.new }
{
    volume.change_thread(thread, row);
    cache.drop_thread(thread);
}
