//! The session of the assembler: from the words of the command line to the exit status.
//!
//! [`top`] is all that the program `mungi_asm` does: it reads the command's words, reads the source whole, and writes what
//! the text became into one sink, or the text's first fault into the other. A layer above has the clauses of [`top`]. They
//! hold for every source and every two sinks, also if a call of these fails.
//!
//! The definitions are in `specs/`: `Commands` (what the words spell) and `Headline` (what a text becomes, and what is kept).
//! What a text assembles to is defined in `mg_asm`.
#![tactic(auto)]

mod faulty;
mod top_call;
mod words;

pub use faulty::Faulty;
pub use mg_filter::Status;
pub use top_call::{TEXT_LIMIT, top};
pub use words::{Command, read_words};
