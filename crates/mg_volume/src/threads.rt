// The threads of a volume, by their numbers.
ghost use Rattle.std.specs.Prelude.{◌≡◌, ◌≤◌, ◌%◌, ◌==◌, ◌&&◌, false, nat_lt, not, [], All, IfOk, IfSome, None, Some, find, is_some, length, position, replicate, true};
ghost use Rattle.std.specs.Option.{ForSome, option_copied, option_map};
ghost use Rattle.mg_rules.specs.RowsRead.{ArePlaced};
ghost use Rattle.mg_model.specs.Limits.{thread_limit};
ghost use Rattle.mg_model.specs.Ranges.{IsThreadRow};
ghost use Rattle.mg_model.specs.State.{ThreadRow};
ghost use Rattle.mg_model.specs.Turn.{is_ready};
ghost use Rattle.mg_volume.specs.Numbered.{IsFreeNumber, has_turn, numbered, rows_with, turn_mark};
ghost use Rattle.mg_volume.specs.RowLists.{DistinctBy};
ghost use Rattle.mg_volume.specs.Standing.{stands_at};

use memchr::memchr;
use mg_model::{ThrRow, ThrState};
use std::alloc::{AllocError, Global};
use std::marker::Model;

/// How many threads a volume has at most.
const MOST_THREADS: usize = 256;

/// The mark of a thread that is Ready; that of any other place is 0.
const READY: u8 = 1;

/// The threads of a volume, in the order of their numbers.
#[derive(Drop)]
pub(crate) struct Threads {
    // The row of thread t, if it lives, in place t - 1.
    rows: Vec<Option<ThrRow>>,
    // Whether there is one in each place, and a mark of whether it is Ready: a search reads no row.
    taken: Vec<bool>,
    ready: Vec<u8>,
}

impl Model for Threads {
    ghost use Rattle.std.specs.Prelude.{ℕ, List};
    ghost use Rattle.mg_model.specs.Spelling.{thread_read};
    ghost use Rattle.mg_model.specs.State.{ThreadRow};
    ghost use Rattle.mg_objects.specs.Held.{live_from};
    ghost use Rattle.mg_volume.specs.Numbered.{AreListed, numbered};

    ghost Value = { List (ℕ × ThreadRow) };

    ghost view = { λ threads. numbered (live_from 0 threads.rows.items) };

    ghost invariant = { λ threads. AreListed threads.rows.items threads.taken.items threads.ready.items };
}

impl Threads {
    // No threads. All memory that they will need is taken here.
    fn new(alloc: Global) -> Result<Threads, AllocError>
        ensures { IfOk result (λ threads. threads ≡ []) }
    {
        let rows = no_rows(alloc)?;
        let taken = no_marks(alloc)?;
        let ready = no_turns(alloc)?;
        Ok(Threads { rows, taken, ready })
    }

    /// The threads of these rows, each with the place of its row. All memory that they will need is taken here.
    pub(crate) fn of(alloc: Global, rows: &[(u64, ThrRow)]) -> Result<Threads, AllocError>
        requires { ArePlaced thread_limit rows.now }
        ensures { IfOk result (λ threads. threads ≡ numbered rows.now) }
    {
        let mut threads = Threads::new(alloc)?;
        for row in rows {
            threads.put(row.0 + 1, Some(row.1));
        }
        Ok(threads)
    }

    /// The thread with this number, 1 to 256.
    pub(crate) fn get(&self, number: u64) -> Option<&ThrRow>
        ensures found { option_copied result ≡ option_map (λ thread. thread.1) (find (λ thread. thread.0 == number) self.now) }
        ensures t_at_least_1 { IfSome result (λ _. 1 ≤ number) }
        ensures t_at_most_256 { IfSome result (λ _. number ≤ 256) }
    {
        let rows = &self.rows;
        if number == 0 {
            return None;
        }
        match rows.get(number as usize - 1) {
            Some(row) => row.as_ref(),
            None => None,
        }
    }

    /// Another row for the thread with this number, 1 to 256, or that there is no such thread.
    pub(crate) fn put(&mut self, number: u64, row: Option<ThrRow>)
        requires t_at_least_1 { 1 ≤ number }
        requires t_at_most_256 { number ≤ 256 }
        ensures rows { self.new ≡ rows_with number row self.old }
        ensures few { length self.new ≤ 256 }
    {
        let place = number as usize - 1;
        self.taken[place] = row.is_some();
        self.ready[place] = turn_mark(&row);
        self.rows[place] = row;
    }

    /// Where the thread with this number, 1 to 256, is from now on, if it is there: its pc, a multiple of 8, its state and its registers.
    pub(crate) fn move_to(&mut self, number: u64, pc: u64, state: ThrState, regs: &[u64; 8])
        requires t_at_least_1 { 1 ≤ number }
        requires t_at_most_256 { number ≤ 256 }
        requires aligned { pc % 8 ≡ 0 }
        ensures stands { (row : ThreadRow) → option_map (λ thread. thread.1) (find (λ thread. thread.0 == number) self.old) ≡ Some row → self.new ≡ rows_with number (Some (stands_at pc state regs.now row)) self.old }
        ensures there { (row : ThreadRow) → option_map (λ thread. thread.1) (find (λ thread. thread.0 == number) self.old) ≡ Some row → option_map (λ thread. thread.1) (find (λ thread. thread.0 == number) self.new) ≡ Some (stands_at pc state regs.now row) }
        ensures kept { (row : ThreadRow) → option_map (λ thread. thread.1) (find (λ thread. thread.0 == number) self.old) ≡ Some row → IsThreadRow (stands_at pc state regs.now row) }
        ensures few { length self.new ≤ 256 }
    {
        let place = number as usize - 1;
        move_row(&mut self.rows[place], pc, state, regs);
        self.taken[place] = self.rows[place].is_some();
        self.ready[place] = turn_mark(&self.rows[place]);
    }

    /// The lowest number that no thread has; none if there are 256.
    pub(crate) fn free(&self) -> Option<u64>
        ensures number { IsFreeNumber self.now result }
        ensures range { IfSome result (λ n. (1 ≤ n) × (n ≤ 256)) }
    {
        match first_free(&self.taken) {
            Some(place) => Some(place as u64 + 1),
            None => None,
        }
    }

    /// The lowest number above this one, which is at most 256, of a thread that is Ready.
    pub(crate) fn ready_above(&self, number: u64) -> Option<u64>
        requires { number ≤ 256 }
        ensures { result ≡ option_map (λ thread. thread.0) (find (λ thread. is_ready thread.1.state && nat_lt number thread.0) self.now) }
    {
        match first_ready(&self.ready[number as usize..]) {
            Some(at) => Some(number + at as u64 + 1),
            None => None,
        }
    }

    /// There are 256 at most, no two have one number, and their rows keep their ranges. It does nothing when it runs.
    pub(crate) fn keep_rules(&self)
        ensures at_most_256 { length self.now ≤ 256 }
        ensures apart { DistinctBy (λ thread. thread.0) self.now }
        ensures rows { All (λ thread. IsThreadRow thread.1) self.now }
    {
        let _rows = &self.rows;
    }
}

// The first place that has no thread.
fn first_free(taken: &[bool]) -> Option<usize>
    ensures { result ≡ position (λ is. not is) taken.now }
{
    taken.iter().position(|is| !*is)
}

// The first place whose mark is that of a thread that is Ready.
fn first_ready(marks: &[u8]) -> Option<usize>
    ensures { result ≡ position (λ mark. mark == 1) marks.now }
{
    memchr(READY, marks)
}

// Whether a row is that of a thread that is Ready.
fn has_turn(row: &Option<ThrRow>) -> bool
    ensures value { result ≡ has_turn row.now }
    ensures kept { ForSome row.now IsThreadRow }
{
    match row {
        Some(row) => row.state == ThrState::Ready,
        None => false,
    }
}

// The mark of a row.
fn turn_mark(row: &Option<ThrRow>) -> u8
    ensures value { result ≡ turn_mark row.now }
    ensures kept { ForSome row.now IsThreadRow }
{
    if has_turn(row) { READY } else { 0 }
}

// A thread moves elsewhere, if there is one.
fn move_row(row: &mut Option<ThrRow>, pc: u64, state: ThrState, regs: &[u64; 8])
    requires aligned { pc % 8 ≡ 0 }
    ensures { row.new ≡ option_map (stands_at pc state regs.now) row.old }
{
    if let Some(row) = row {
        row.set_pc(pc);
        row.set_state(state);
        row.set_regs(*regs);
    }
}

// No thread in any place.
fn no_rows(alloc: Global) -> Result<Vec<Option<ThrRow>>, AllocError>
    ensures { IfOk result (λ rows. rows.items ≡ replicate 256 None) }
{
    let mut rows = Vec::with_capacity(alloc, MOST_THREADS)?;
    for _ in 0..MOST_THREADS {
        rows.push(None)?;
    }
    Ok(rows)
}

// Nothing is said of any place.
fn no_marks(alloc: Global) -> Result<Vec<bool>, AllocError>
    ensures { IfOk result (λ marks. marks.items ≡ replicate 256 false) }
{
    Ok(Vec::from_array(alloc, [false; MOST_THREADS])?)
}

// No thread in any place is Ready.
fn no_turns(alloc: Global) -> Result<Vec<u8>, AllocError>
    ensures { IfOk result (λ marks. marks.items ≡ replicate 256 0) }
{
    Ok(Vec::from_array(alloc, [0; MOST_THREADS])?)
}
