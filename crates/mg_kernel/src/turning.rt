// Turns: a thread fetches a word of its script, makes the call that the word spells, and continues after it.
ghost use Rattle.std.specs.Prelude.{List, ◌≡◌, ◌≤◌, ◌<◌, ◌%◌, ℕ, true};
ghost use Rattle.std.specs.Option.{ForSome};
ghost use Rattle.mg_access.specs.Served.{CallServes, of_line};
ghost use Rattle.mg_kernel.specs.Calls.{Asks, IsRowOf, TurnServes};
ghost use Rattle.mg_laws.specs.Scripts.{at_cursor};
ghost use Rattle.mg_model.specs.Domains.{with_thread};
ghost use Rattle.mg_model.specs.Layout.{body_limit};
ghost use Rattle.mg_model.specs.State.{ThreadRow};
ghost use Rattle.mg_model.specs.Turn.{outcome_of, as_after, is_ready, thread_is_ready};
ghost use Rattle.mg_script.specs.Effects.{HasPlace, IsSpelledBy, resumed};
ghost use Rattle.mg_vcache.specs.Seats.{AllBacked};
ghost use Rattle.mg_volume.specs.Calls.{IsSoundOn, Stages};
ghost use Rattle.mg_volume.specs.Meaning.{now_of, staged_of};
ghost use Rattle.mg_volume.specs.Staging.{lives};

use crate::answering::dispatch;
use mg_calls_dom::fetch;
use mg_calls_thr::pick;
use mg_disk::Disk;
use mg_faults::Failed;
use mg_laws::{
    accesses_go_on, backing_rests_on_the_domain, next_runs_the_least_ready_thread,
    turns_rest_on_no_cursor,
};
use mg_model::{After, Call, Line, Refusal, Reply, Steps, ThrRow, ThrState};
use mg_script::{
    Effect, begin, call, resume, standing_after, turns_are_calls, turns_search_as_calls,
};
use mg_vcache::VCache;
use mg_volume::Volume;
use std::sync::ledger::Ledger;

/// `turn`: a thread has a turn. The refusals come in this order: no such thread (NoThread), one that is not Ready (NotReady).
/// [`Failed`] comes only if a call of the disk failed, and the state then stays.
pub(crate) fn turn<D: Disk, L: Ledger>(
    volume: &mut Volume,
    cache: &mut VCache,
    disk: &mut D,
    thread: u64,
    steps: &mut Steps<L>,
) -> Result<Reply, Failed>
    requires sound { IsSoundOn D.Disk volume.old disk.old }
    requires at_most_28_staged { staged_of volume.old ≤ 28 }
    requires backed { ForSome (D.seen disk.old) (λ image. AllBacked (now_of volume.old image) cache.old) }
    ensures { CallServes 131 D.Disk (of_line (record { thread = thread; call = Call.Turn })) result volume.old volume.new cache.old cache.new disk.old disk.new steps.old steps.new }
{
    match volume.thread_ref(thread) {
        Some(row) => {
            if !takes_turns(row) {
                return Ok(Reply::No(Refusal::NotReady));
            }
            match run(volume, cache, disk, thread, steps) {
                Ok(left) => Ok(Reply::Turned(left)),
                Err(Failed) => Err(Failed),
            }
        }
        None => Ok(Reply::No(Refusal::NoThread)),
    }
}

/// `next`: the least Ready thread above the cursor, or the least of all if none is above it, has a turn, and the cursor
/// becomes its number. Refused (Idle) if no thread is Ready. [`Failed`] comes only if a call of the disk failed, and the
/// state then stays.
pub(crate) fn next<D: Disk, L: Ledger>(
    volume: &mut Volume,
    cache: &mut VCache,
    disk: &mut D,
    steps: &mut Steps<L>,
) -> Result<Reply, Failed>
    requires sound { IsSoundOn D.Disk volume.old disk.old }
    requires at_most_28_staged { staged_of volume.old ≤ 28 }
    requires backed { ForSome (D.seen disk.old) (λ image. AllBacked (now_of volume.old image) cache.old) }
    ensures { (t : ℕ) → CallServes 132 D.Disk (of_line (record { thread = t; call = Call.Next })) result volume.old volume.new cache.old cache.new disk.old disk.new steps.old steps.new }
{
    backing_rests_on_the_domain();
    next_runs_the_least_ready_thread();
    turns_rest_on_no_cursor();
    let Some(n) = pick(volume) else {
        return Ok(Reply::No(Refusal::Idle));
    };
    match volume.thread_ref(n) {
        Some(_row) => match run(volume, cache, disk, n, steps) {
            Ok(left) => {
                move_cursor(volume, n);
                Ok(Reply::Ran(n, left))
            }
            Err(Failed) => Err(Failed),
        },
        None => unreachable!(),
    }
}

// Whether a thread with this row is Ready.
fn takes_turns(row: &ThrRow) -> bool
    ensures { result ≡ is_ready row.now.state }
{
    row.state() == ThrState::Ready
}

// The turn of a Ready thread, and what it is after it. Nothing is staged before the last read that may fail:
// if a call of the disk failed, the state stays.
fn run<D: Disk, L: Ledger>(
    volume: &mut Volume,
    cache: &mut VCache,
    disk: &mut D,
    thread: u64,
    steps: &mut Steps<L>,
) -> Result<After, Failed>
    requires sound { IsSoundOn D.Disk volume.old disk.old }
    requires at_most_28_staged { staged_of volume.old ≤ 28 }
    requires backed { ForSome (D.seen disk.old) (λ image. AllBacked (now_of volume.old image) cache.old) }
    requires lives { lives volume.old thread ≡ true }
    requires ready { ForSome (D.seen disk.old) (λ image. thread_is_ready (now_of volume.old image) thread ≡ true) }
    ensures { TurnServes D.Disk thread result volume.old volume.new cache.old cache.new disk.old disk.new steps.old steps.new }
{
    accesses_go_on();
    turns_are_calls();
    turns_search_as_calls();
    let pc = pc_of(volume, thread);
    let fetched = match fetch(volume, cache, disk, thread, pc, steps) {
        Ok(fetched) => fetched,
        Err(Failed) => return Err(Failed),
    };
    let (effect, made) = asked(volume, thread, fetched);
    match dispatch(volume, cache, disk, thread, &made, steps) {
        Ok(reply) => Ok(go_on(volume, thread, &effect, &reply)),
        Err(Failed) => Err(Failed),
    }
}

// The pc of a thread that lives.
fn pc_of(volume: &Volume, thread: u64) -> u64
    requires lives { lives volume.now thread ≡ true }
    ensures value { (row : ThreadRow) → IsRowOf volume.now thread row → result ≡ row.pc }
    ensures aligned { result % 8 ≡ 0 }
{
    match volume.thread_ref(thread) {
        Some(row) => row.pc,
        None => unreachable!(),
    }
}

// The effect of the turn of a thread that lives, by the word that it fetched, and the call that it makes.
fn asked(volume: &Volume, thread: u64, fetched: Option<u64>) -> (Effect, Call)
    requires lives { lives volume.now thread ≡ true }
    ensures asks { (row : ThreadRow) → IsRowOf volume.now thread row → Asks row fetched result.0 result.1 }
    ensures place { HasPlace result.0 }
    ensures spelled { IsSpelledBy result.0 result.1 }
{
    match volume.thread_ref(thread) {
        Some(row) => {
            let effect = begin(row, fetched);
            let made = call(row, &effect);
            (effect, made)
        }
        None => unreachable!(),
    }
}

// A thread continues after the call of its turn, with the row that its effect makes of the row that the call left. It has none
// if it ended itself.
fn go_on(volume: &mut Volume, thread: u64, effect: &Effect, reply: &Reply) -> After
    requires place { HasPlace effect.now }
    requires fewer_than_160_staged { staged_of volume.old < body_limit }
    ensures now { (image : List (List ℕ)) → now_of volume.new image ≡ with_thread (now_of volume.old image) thread (λ row. resumed effect.now reply.now row) }
    ensures left { (image : List (List ℕ)) → result ≡ outcome_of (now_of volume.new image) thread }
    ensures stages { Stages 1 volume.old volume.new }
{
    match volume.thread_ref(thread) {
        Some(row) => match standing_after(row, effect, reply) {
            Some(stands) => {
                volume.move_thread(thread, stands.pc, stands.state, &stands.regs);
                after(stands.state)
            }
            None => go_on_whole(volume, thread, effect, reply),
        },
        None => After::Ended,
    }
}

// As [`go_on`], for a thread that lives and whose row may change in more than its pc, its registers and its state.
fn go_on_whole(volume: &mut Volume, thread: u64, effect: &Effect, reply: &Reply) -> After
    requires place { HasPlace effect.now }
    requires fewer_than_160_staged { staged_of volume.old < body_limit }
    ensures now { (image : List (List ℕ)) → now_of volume.new image ≡ with_thread (now_of volume.old image) thread (λ row. resumed effect.now reply.now row) }
    ensures left { (image : List (List ℕ)) → result ≡ outcome_of (now_of volume.new image) thread }
    ensures stages { Stages 1 volume.old volume.new }
{
    match volume.thread(thread) {
        Some(row) => {
            let row = resume(row, effect, reply);
            volume.change_thread(thread, row);
            after(row.state())
        }
        None => After::Ended,
    }
}

// What a thread is after its turn, if the turn left it in this state.
fn after(state: ThrState) -> After
    ensures { result ≡ as_after state }
{
    match state {
        ThrState::Ready => After::Ready,
        ThrState::Stopped => After::Stopped,
        ThrState::Faulted(kind) => After::Faulted(kind),
    }
}

// The cursor becomes the number of the thread that had the turn, at most 256.
fn move_cursor(volume: &mut Volume, thread: u64)
    requires at_most_256 { thread ≤ 256 }
    requires fewer_than_160_staged { staged_of volume.old < body_limit }
    ensures now { (image : List (List ℕ)) → now_of volume.new image ≡ at_cursor (now_of volume.old image) thread }
    ensures stages { Stages 1 volume.old volume.new }
{
    let mut globals = volume.globals();
    globals.set_cursor(thread);
    volume.stage_globals(globals);
}
