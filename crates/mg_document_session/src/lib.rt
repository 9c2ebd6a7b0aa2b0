//! The session of documents: from the words of the command line to the exit status.
//!
//! [`top`] is all that the program `mungi_text` does: it reads the command's words, and the source whole if the command
//! takes input. It writes lines of calls or the bytes of a document into one sink, or the first fault into the other. A
//! layer above has the clauses of [`top`]. They hold for every source and every two sinks, also if a call of these fails.
//!
//! The definitions are in `specs/`: `Commands` (what the words spell), `Headline` (what an input becomes, and what is kept) and
//! `Trips` (a document that is stored and loaded). That it comes back is the law [`documents_come_back`]. The words of a document and
//! the bytes that replies give are defined in `mg_document`.
#![tactic(auto)]

mod faulty;
mod laws;
mod top_call;
mod turning;
mod words;

pub use faulty::Faulty;
pub use laws::documents_come_back;
pub use mg_filter::Status;
pub use top_call::top;
pub use turning::TEXT_LIMIT;
pub use words::{Command, read_words};
