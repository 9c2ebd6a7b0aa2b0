//! The commands of `mungi` on a volume: the words that spell each, what each keeps, and those that need no machine.
//!
//! [`read_words`] reads a command from the words of the command line. [`make_volume`] is the command `format` and [`check`] the command
//! `check`: each calls the disk and prints one line. The other calls print a line alone: of a volume, of a disk without one, of sizes, or
//! `usage`. What the layer above learns is in their contracts, for every disk and sink, those that fail at any call among them.
//!
//! The commands that run lines, and the top call of all, are in `mg_session`.
//!
//! The definitions are in `specs/`: `Commands` (the words of each command) and `Headline` (what each command keeps, in one record,
//! which is a clause of the top call, and the words of it); for the layers below it `Forms` (parts of the words) and `Unopened` (what a
//! fault of the opening says). The lemmas come last: `OpeningLemmas` joins an opening and a session, `LastLemmas` lines after the replies.
#![tactic(auto)]

mod checking;
mod fault_line;
mod formatting;
mod history;
mod usage;
mod words;

pub use checking::{check, put_summary};
pub use fault_line::put_fault;
pub use formatting::{make_volume, put_small};
pub use history::runs_hold_what_was_answered;
pub use usage::put_usage;
pub use words::{Command, read_words};
