// What a volume stages.
ghost use Rattle.std.specs.Prelude.{List, ◌≡◌, ◌⊎◌, ◌≤◌, ◌<◌, ◌+◌, ◌%◌, ◌^◌, ◌==◌, ℕ, true, false, find, IfSome, None, Some};
ghost use Rattle.std.specs.Option.{option_map_or};
ghost use Rattle.mg_model.specs.Domains.{with_thread};
ghost use Rattle.mg_model.specs.Layout.{body_limit};
ghost use Rattle.mg_model.specs.ObjectCalls.{drawn, next_password};
ghost use Rattle.mg_model.specs.State.{ThreadRow};
ghost use Rattle.mg_volume.specs.Calls.{Stages};
ghost use Rattle.mg_volume.specs.Meaning.{counters_in, now_of, objects_in, staged_of, threads_in};
ghost use Rattle.mg_volume.specs.RowLists.{DistinctBy};
ghost use Rattle.mg_volume.specs.Standing.{stands_at};
ghost use Rattle.mg_volume.specs.Staging.{ObjectsStillStaged, are_counters_staged, is_thread_staged, lives, threads_with};

use crate::counting::respell_counters;
use crate::standing::respell;
use crate::thread_block::{stage_any, stage_held};
use crate::volume::Volume;
use mg_layout::{FIRST_THREAD_BLOCK, GLOBALS_BLOCK};
use mg_model::{Globals, ThrRow, ThrState};
use mg_passwords::Draws;
use mg_rows::{globals_start, rows_are_spelled_in_one_way};

#[tactic(auto, unfolding(crate::specs::Meaning::settings_in, crate::specs::Meaning::counters_in, crate::specs::Meaning::objects_in, crate::specs::Meaning::accounts_in, crate::specs::Meaning::threads_in, crate::specs::Meaning::now_of, crate::specs::Meaning::staged_of, crate::specs::Meaning::is_live, crate::specs::Meaning::total_of, crate::specs::Meaning::words_in))]
impl Volume {
    /// Stages the counters, in place of those of the state. Their block is staged already, or fewer than 160 blocks are; one
    /// more is at most.
    pub fn stage_globals(&mut self, counters: Globals)
        requires staged_or_fewer_than_160 { (are_counters_staged self.old ≡ true) ⊎ (staged_of self.old < body_limit) }
        ensures now { (image : List (List ℕ)) → now_of self.new image ≡ record (now_of self.old image) { counters = counters } }
        ensures rows { objects_in self.new ≡ objects_in self.old }
        ensures stages { Stages 1 self.old self.new }
        ensures objects { ObjectsStillStaged self.old self.new }
        ensures here { are_counters_staged self.new ≡ true }
    {
        if !self.put_counters(&counters) {
            self.spell_counters(counters);
        }
    }

    // Writes the counters into their block, if it is staged, and returns whether it is. If it is not, nothing changes.
    fn put_counters(&mut self, counters: &Globals) -> bool
        ensures not_staged { result ≡ false → self.new ≡ self.old }
        ensures now { result ≡ true → (image : List (List ℕ)) → now_of self.new image ≡ record (now_of self.old image) { counters = counters.now } }
        ensures rows { result ≡ true → objects_in self.new ≡ objects_in self.old }
        ensures stages { result ≡ true → Stages 1 self.old self.new }
        ensures objects { result ≡ true → ObjectsStillStaged self.old self.new }
        ensures here { result ≡ true → are_counters_staged self.new ≡ true }
    {
        rows_are_spelled_in_one_way();
        if !respell_counters(&mut self.pages, counters) {
            return false;
        }
        self.globals = *counters;
        true
    }

    // Stages the counters with their block spelled whole.
    fn spell_counters(&mut self, counters: Globals)
        requires staged_or_fewer_than_160 { (are_counters_staged self.old ≡ true) ⊎ (staged_of self.old < body_limit) }
        ensures now { (image : List (List ℕ)) → now_of self.new image ≡ record (now_of self.old image) { counters = counters } }
        ensures rows { objects_in self.new ≡ objects_in self.old }
        ensures stages { Stages 1 self.old self.new }
        ensures objects { ObjectsStillStaged self.old self.new }
        ensures here { are_counters_staged self.new ≡ true }
    {
        self.pages
            .stage_start(GLOBALS_BLOCK, &globals_start(&counters));
        self.globals = counters;
    }

    /// Stages the row of the thread with this number, 1 to 256, in place of its row, or that there is no such thread. Its block is
    /// staged already, or fewer than 160 blocks are; one more is at most.
    pub fn stage_thread(&mut self, number: u64, row: Option<ThrRow>)
        requires t_at_least_1 { 1 ≤ number }
        requires t_at_most_256 { number ≤ 256 }
        requires staged_or_fewer_than_160 { (is_thread_staged self.old number ≡ true) ⊎ (staged_of self.old < body_limit) }
        ensures now { (image : List (List ℕ)) → now_of self.new image ≡ record (now_of self.old image) { threads = threads_with number row (threads_in self.old) } }
        ensures rows { objects_in self.new ≡ objects_in self.old }
        ensures stages { Stages 1 self.old self.new }
        ensures objects { ObjectsStillStaged self.old self.new }
        ensures here { is_thread_staged self.new number ≡ true }
    {
        stage_any(&mut self.pages, FIRST_THREAD_BLOCK + number - 1, &row);
        self.threads.put(number, row);
    }

    // No two threads have one number, as in each volume.
    fn numbers_differ(&self)
        ensures { DistinctBy (λ thread. thread.number) (threads_in self.now) }
    {
        self.threads.keep_rules();
    }

    // A thread that lives has a number from 1 to 256.
    fn keep_number(&self, number: u64)
        requires { lives self.now number ≡ true }
        ensures at_least_1 { 1 ≤ number }
        ensures at_most_256 { number ≤ 256 }
    {
        let _frame = self.frame(number);
    }

    /// Stages another row of this thread, which lives. Its block is staged already, or fewer than 160 are; one more is at most. The
    /// state is what any change gives that turns the old row into this one.
    pub fn change_thread(&mut self, number: u64, row: ThrRow)
        requires lives { lives self.old number ≡ true }
        requires staged_or_fewer_than_160 { (is_thread_staged self.old number ≡ true) ⊎ (staged_of self.old < body_limit) }
        ensures now { (change : ThreadRow → ThreadRow) → IfSome (find (λ thread. thread.number == number) (threads_in self.old)) (λ thread. change thread.row ≡ row)
            → (image : List (List ℕ)) → now_of self.new image ≡ with_thread (now_of self.old image) number change }
        ensures rows { objects_in self.new ≡ objects_in self.old }
        ensures stages { Stages 1 self.old self.new }
        ensures objects { ObjectsStillStaged self.old self.new }
        ensures here { is_thread_staged self.new number ≡ true }
    {
        self.numbers_differ();
        self.keep_number(number);
        self.stage_thread(number, Some(row));
    }

    /// This thread, which lives, is elsewhere from now on: its pc, a multiple of 8, its state and its registers. Its block is
    /// staged already, or fewer than 160 are; one more is at most. If it is staged only the words that change are written. The
    /// state is what any change gives that turns the old row into such a row.
    pub fn move_thread(&mut self, number: u64, pc: u64, state: ThrState, regs: &[u64; 8])
        requires lives { lives self.old number ≡ true }
        requires aligned { pc % 8 ≡ 0 }
        requires staged_or_fewer_than_160 { (is_thread_staged self.old number ≡ true) ⊎ (staged_of self.old < body_limit) }
        ensures now { (change : ThreadRow → ThreadRow) → IfSome (find (λ thread. thread.number == number) (threads_in self.old)) (λ thread. change thread.row ≡ stands_at pc state regs.now thread.row)
            → (image : List (List ℕ)) → now_of self.new image ≡ with_thread (now_of self.old image) number change }
        ensures rows { objects_in self.new ≡ objects_in self.old }
        ensures stages { Stages 1 self.old self.new }
        ensures objects { ObjectsStillStaged self.old self.new }
        ensures here { is_thread_staged self.new number ≡ true }
    {
        if !self.move_staged(number, pc, state, regs) {
            self.move_whole(number, pc, state, regs);
        }
    }

    // Writes where the thread is into its block, if that is staged, and returns whether it is. If it is not, nothing changes.
    fn move_staged(&mut self, number: u64, pc: u64, state: ThrState, regs: &[u64; 8]) -> bool
        requires lives { lives self.old number ≡ true }
        requires aligned { pc % 8 ≡ 0 }
        ensures not_staged { result ≡ false → self.new ≡ self.old }
        ensures now { result ≡ true → (change : ThreadRow → ThreadRow) → IfSome (find (λ thread. thread.number == number) (threads_in self.old)) (λ thread. change thread.row ≡ stands_at pc state regs.now thread.row)
            → (image : List (List ℕ)) → now_of self.new image ≡ with_thread (now_of self.old image) number change }
        ensures rows { result ≡ true → objects_in self.new ≡ objects_in self.old }
        ensures stages { result ≡ true → Stages 1 self.old self.new }
        ensures objects { result ≡ true → ObjectsStillStaged self.old self.new }
        ensures here { result ≡ true → is_thread_staged self.new number ≡ true }
    {
        rows_are_spelled_in_one_way();
        self.numbers_differ();
        self.keep_number(number);
        let Some(row) = self.threads.get(number) else {
            return false;
        };
        if !respell(
            &mut self.pages,
            FIRST_THREAD_BLOCK + number - 1,
            row,
            pc,
            state,
            regs,
        ) {
            return false;
        }
        self.threads.move_to(number, pc, state, regs);
        true
    }

    // Moves the thread with its block spelled whole.
    fn move_whole(&mut self, number: u64, pc: u64, state: ThrState, regs: &[u64; 8])
        requires lives { lives self.old number ≡ true }
        requires aligned { pc % 8 ≡ 0 }
        requires staged_or_fewer_than_160 { (is_thread_staged self.old number ≡ true) ⊎ (staged_of self.old < body_limit) }
        ensures now { (change : ThreadRow → ThreadRow) → IfSome (find (λ thread. thread.number == number) (threads_in self.old)) (λ thread. change thread.row ≡ stands_at pc state regs.now thread.row)
            → (image : List (List ℕ)) → now_of self.new image ≡ with_thread (now_of self.old image) number change }
        ensures rows { objects_in self.new ≡ objects_in self.old }
        ensures stages { Stages 1 self.old self.new }
        ensures objects { ObjectsStillStaged self.old self.new }
        ensures here { is_thread_staged self.new number ≡ true }
    {
        self.numbers_differ();
        self.keep_number(number);
        match self.threads.get(number) {
            Some(_row) => {
                self.threads.move_to(number, pc, state, regs);
                stage_held(&mut self.pages, &self.threads, number);
            }
            None => unreachable!(),
        }
    }

    /// The next password that is drawn. The count of draws, below `2^32`, rises by one and is staged: the block of the
    /// counters is staged already, or fewer than 160 blocks are; one more is at most.
    pub fn next_password(&mut self) -> u64
        requires staged_or_fewer_than_160 { (are_counters_staged self.old ≡ true) ⊎ (staged_of self.old < body_limit) }
        requires fewer_than_2_32_draws { (counters_in self.old).draws < 2 ^ 32 }
        ensures drawn { (image : List (List ℕ)) → result ≡ next_password (now_of self.old image) }
        ensures now { (image : List (List ℕ)) → now_of self.new image ≡ drawn (now_of self.old image) }
        ensures rows { objects_in self.new ≡ objects_in self.old }
        ensures stages { Stages 1 self.old self.new }
        ensures objects { ObjectsStillStaged self.old self.new }
        ensures here { are_counters_staged self.new ≡ true }
    {
        let mut globals = self.globals();
        let mut draws = Draws::new(self.params().seed(), globals.draws());
        let password = draws.next();
        globals.set_draws(draws.count());
        self.stage_globals(globals);
        password
    }
}
