// What an instruction does, as an action with the thread's whole row.
ghost use Rattle.std.specs.Prelude.{◌≡◌, ℕ};
ghost use Rattle.mg_model.specs.Abbreviations.{advanced};
ghost use Rattle.mg_model.specs.State.{State};
ghost use Rattle.mg_model.specs.Turn.{run_instruction};
ghost use Rattle.mg_script.specs.Actions.{HasRegister, OnlyMoves, call_of, called_by, carried_out};
ghost use Rattle.mg_script.specs.Effects.{HasPlace, action_of};
ghost use Rattle.mg_script.specs.Encoded.{HasRegisters};

use crate::effects::{Effect, effect_of};
use crate::resuming::moved;
use mg_model::{Instr, ThrRow};

/// What an instruction requires of the machine, with the thread's whole row. After every action but `Next` the row is the
/// thread's with its pc advanced. [`Effect`] says the same without a row.
#[derive(Clone, Copy, PartialEq, Eq)]
pub enum Action {
    /// Nothing. This is the thread's row after the turn.
    Next(ThrRow),
    /// Loads the word at address `a`, which requires R, into register `to`.
    Load { a: u64, to: u8 },
    /// Stores the value in the word at address `a`, which requires W.
    Store { a: u64, value: u64 },
    /// The call `pdx` with this address and mask. A mask above 255 is refused with Syntax.
    Pdx { a: u64, mask: u64 },
    /// The call `ret`.
    Ret,
    /// The call that the registers spell.
    Sys,
}

/// What the instruction at a thread's pc requires of the machine. The row is the thread's, and its pc is not yet advanced. The
/// instruction's registers are below 8, and so is the register that a `Load` names. The row of a `Next` differs from the
/// thread's in the pc, the state and the registers alone.
///
/// The kernel uses [`effect_of`], which copies no row.
pub fn execute(instr: &Instr, row: &ThrRow) -> Action
    requires { HasRegisters instr.now }
    ensures turn { (state : State) (t : ℕ) → run_instruction state t row.now.pc (advanced row.now) instr.now ≡ carried_out state t (advanced row.now) result }
    ensures register { HasRegister result }
    ensures moves { OnlyMoves row.now result }
    ensures call { called_by row.now result ≡ call_of row.now instr.now }
{
    whole(row, &effect_of(instr, row))
}

// The action of an effect, for the thread with this row.
fn whole(row: &ThrRow, effect: &Effect) -> Action
    requires { HasPlace effect.now }
    ensures { result ≡ action_of row.now effect.now }
{
    match *effect {
        Effect::Next(next) => Action::Next(moved(*row, &next)),
        Effect::Load { a, to } => Action::Load { a, to },
        Effect::Store { a, value } => Action::Store { a, value },
        Effect::Pdx { a, mask } => Action::Pdx { a, mask },
        Effect::Ret => Action::Ret,
        Effect::Sys => Action::Sys,
    }
}
