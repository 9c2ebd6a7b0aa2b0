//! The kernel: one line is one step of the machine, on a volume.
//!
//! A layer above learns that a step gives the machine's reply and leaves its state as `now`, that it writes nothing, and
//! that a commit makes the state durable: at each moment of it a stop leaves the state of before or the new one. The state is
//! well formed in every kernel, and each right that its validation cache keeps is one that the state gives.
//!
//! It is a machine whose lines a session serves (`mg_serve::Machine`): it says `text` and keeps `after` of its state.
//!
//! `specs/Meaning.antt` has the words of the contracts, `specs/Opening.antt` what an opening and a commit give, `specs/Serving.antt`
//! what a line and a probe give, keep and cost, `specs/Calls.antt` what a call of a thread keeps and counts, be it made by a line or by
//! a script, `specs/Stepping.antt` what is said of lines.
#![tactic(auto)]

mod answering;
mod kernel;
mod machine;
mod ranges;
mod renting;
mod turning;
mod unasked;

pub use kernel::Kernel;
pub use mg_volume::OpenFault;
