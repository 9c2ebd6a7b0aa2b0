//! The machine: its types, and the definition of what it does.
//!
//! The types here are what the calls of every other crate take and give. A row (`ObjRow`, `ThrRow`, `Frame`, `Globals`)
//! is `Copy`, is seen as the record of `State` of its kind, and keeps by itself what `Ranges` says of one: a method that
//! reads it says so in a clause `kept`.
//!
//! The definition is in `specs/`. To read it whole, read in the order of `specs/Lib.antt`:
//!
//! 1. `src/limits.rt`, `State`, `Access` and `Objects`: its limits, what it holds, and who may reach what.
//! 2. The rows of the table of calls, each with its refusals in their order: `ObjectCalls`, `Domains`, `Threads` and
//!    `BankCalls`, over `Draw`, `Bank` and `Refused`.
//! 3. `Script` and `Turn`: what a thread does in its turn. `Step`: what a line does.
//! 4. What the validation cache may save and must not change: `Accesses`, `Keys`, `Warmth`, `Kept` and `Backed`.
//! 5. `Words`, `Lines` and `Print`: from bytes to calls, and from replies to bytes. `Fresh`: the machine at its start.
//!    `WellFormed`: what every state keeps.
//! 6. `src/layout.rt`, `Layout`, `Spelling`, `Replay` and `Volume`: which state an image of a disk spells.
//!
//! The other files have words that these rest on, as `Limits`, `Settings`, `Tariff`, `Rights`, `Ranges`, `Tests`, `Bytes`
//! and `Ended`, and lemmas that crates above cite. Laws on the definitions are the contracts of `mg_laws`. Sessions that are
//! computed by the definitions are in `mg_worked`.
#![tactic(auto)]

mod accounts;
mod calls;
mod drawing;
mod few;
mod frames;
mod globals;
mod instructions;
pub mod layout;
pub mod limits;
mod objects;
mod replies;
mod rights;
mod seats;
mod settings;
mod slots;
mod steps;
mod tariffs;
mod thread_rows;
mod threads;

pub use accounts::AccRow;
pub use calls::{Call, Line};
pub use drawing::draw;
pub use few::{Few, Filler};
pub use frames::Frame;
pub use globals::Globals;
pub use instructions::Instr;
pub use objects::ObjRow;
pub use replies::{Refusal, Reply};
pub use rights::{Right, Rights};
pub use seats::Seat;
pub use settings::Params;
pub use slots::{Pw, Slot};
pub use steps::Steps;
pub use tariffs::Tariff;
pub use thread_rows::ThrRow;
pub use threads::{After, Fault, ThrState};
