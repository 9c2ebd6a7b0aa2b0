//! The lines of a generated run, and a summary of the replies to them.
//!
//! A run is given by a number: line k is one of 44 that prepare a fresh machine with the `settings`, or is drawn by a
//! generator of words. A layer above has two facts. `line` writes the line of the definition, which spells a call. A `Tally`
//! of replies prints how many were ok and how many were refused with each word. Neither allocates. The definitions are in
//! `specs/`: `Generated` for the lines and `Summary` for the summary of the replies, and by calls and by rows `Asked` and
//! `Tallies`.
#![tactic(auto)]

mod drawing;
mod laws;
mod lines;
mod machine;
mod tally;
mod writing;

pub use drawing::draw;
pub use laws::{counts_add_up, lines_are_calls, passwords_are_drawn};
pub use lines::line;
pub use machine::settings;
pub use tally::Tally;
