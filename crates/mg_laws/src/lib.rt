//! Laws of the machine that `mg_model` defines: each is the contract of a public function, which does nothing when it runs.
//!
//! `specs/` has the statements, in `Laws.antt`, `Backing.antt` and `Costs.antt`, as relations on a step, an access or a
//! search. The contracts say for which definition each holds. A crate that needs no law depends on the definitions alone,
//! and does not wait for these proofs.
#![tactic(auto)]

mod backing;
mod costs;

ghost use Rattle.mg_model.specs.Abbreviations.{free_number};
ghost use Rattle.mg_model.specs.Access.{allowed};
ghost use Rattle.mg_model.specs.Fresh.{fresh};
ghost use Rattle.mg_laws.specs.Laws.{AnswersWhateverState, BeginsWellFormed, FindsLowest, ReadsInRange, RefusedLeaves, RestsOnDomain, RunsKeepWellFormed, RunsNextReady, TakesLeastNumber, TakesLowest};
ghost use Rattle.mg_laws.specs.Scripts.{RestsOnNoCursor, RestsOnNoRegister};
ghost use Rattle.mg_model.specs.Lines.{lines};
ghost use Rattle.mg_model.specs.Objects.{lowest_free};
ghost use Rattle.mg_model.specs.Step.{after, step};
ghost use Rattle.mg_model.specs.Turn.{next, thread_call, turn_state};
ghost use Rattle.mg_model.specs.WellFormed.{KeepsWellFormed};

pub use backing::{
    backed_seats_are_allowed, backing_rests_on_the_domain, objects_end_their_own_seats,
    steps_keep_backing, stores_end_one_list,
};
pub use costs::{
    accesses_go_on, accesses_keep_the_rules_of_a_line, costs_add_up, lines_cost_no_more,
    recent_keys_were_taken, warm_keys_are_kept,
};

/// The fresh state of any settings is well formed, and each step keeps a state well formed: numbers stay in their ranges,
/// objects apart and within the frames, threads in order with births of their own, and the balances sum to the credits. The
/// lines of any bytes are in range, so this holds for every state that an input leads to.
pub fn steps_keep_states_well_formed()
    ensures begins { BeginsWellFormed fresh }
    ensures kept { KeepsWellFormed (λ state line. (step state line).0) }
    ensures read { ReadsInRange lines }
    ensures runs { RunsKeepWellFormed after }
{}

/// A line that is refused leaves the state as it was.
pub fn refused_lines_change_nothing()
    ensures { RefusedLeaves step }
{}

/// Which access is allowed rests on the objects, the period and the slots of the thread's last frame alone.
pub fn access_rests_on_the_domain()
    ensures { RestsOnDomain allowed }
{}

/// A line that is no turn gets the same answer whatever the state of any thread is: Ready, Stopped or Faulted.
pub fn lines_are_answered_in_every_state()
    ensures { AnswersWhateverState step }
{}

/// A new object of 1 to 1024 pages always finds room among those that fit into at most 65,536 frames. It gets the lowest
/// pages at which it meets no other object: no object covers an address there, and each lower place has an address that an
/// object covers.
pub fn free_pages_are_found()
    ensures found { FindsLowest lowest_free }
    ensures taken { TakesLowest lowest_free }
{}

/// A new thread gets the least number, from 1 on, that no thread has.
pub fn free_numbers_are_least()
    ensures { TakesLeastNumber free_number }
{}

/// `next` runs a Ready thread: the least above the cursor, or the least of all if none is above. It is answered Idle if no
/// thread is Ready.
pub fn next_runs_the_least_ready_thread()
    ensures { RunsNextReady next }
{}

/// A call that a script makes rests neither on the pc nor on a register of its thread. The row of the thread may be replaced
/// before the call, or after it, with the frames that the call left.
pub fn calls_rest_on_no_register()
    ensures { RestsOnNoRegister thread_call }
{}

/// A turn does not rest on the cursor: the cursor may be moved before the turn or after it.
pub fn turns_rest_on_no_cursor()
    ensures { RestsOnNoCursor turn_state }
{}
