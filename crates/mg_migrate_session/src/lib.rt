//! The command `migrate`, from its words to the exit status.
//!
//! [`top_migrate`] is the command `VOLUME migrate OLD`. It copies the volume of version 1 on one disk to another one, as `mg_migrate` does,
//! and prints the line of what came of it. What the layer above learns of it is in its contract, for every two disks and sink.
//!
//! The definitions in `specs/` are those of `migrate`: `Commands` (what the words spell), `Headline` (what is kept, in one record) and
//! `FaultText` (what a fault says).
#![tactic(auto)]

mod fault_line;
mod top_call;
mod words;

pub use top_call::top_migrate;
pub use words::is_migrate;
