//! Scripts: what a thread does in its turn, except what needs memory.
//!
//! A word of a script is decoded to an instruction. The effect of an instruction on a thread's row says what the turn
//! requires of the machine: an [`Effect`] without the row, which the kernel uses, or an [`Action`] with the whole row. A
//! call that a script makes is spelled from its registers, and its reply settled in them. A layer above has an equation for
//! each: `decode` is `decoded` of the definition, and `spell` is `spelled`. What `effect_of`, `execute` and `settle` leave
//! to be done is the turn of the definition (`specs/Actions.antt`, `specs/Effects.antt`). A law says that a thread's turn is
//! a call of the machine, and then another row for the thread (`specs/Turns.antt`). Another law says that the turn reads and
//! costs what the fetch and this call do (`specs/TurnCosts.antt`).
#![tactic(auto)]

mod actions;
mod calls;
mod costs;
mod effects;
mod resuming;
mod settling;
mod turns;
mod words;

pub use actions::{Action, execute};
pub use calls::spell;
pub use costs::turns_search_as_calls;
pub use effects::{Effect, Standing, effect_of};
pub use mg_model::Instr;
pub use resuming::{begin, call, resume, standing_after};
pub use settling::settle;
pub use turns::turns_are_calls;
pub use words::{decode, encode};
