//! Documents: bytes as words of an object, the calls that store and load them, and the bytes that replies give.
//!
//! A document is a word with the number of its bytes, and then the bytes, eight a word. A layer above has three facts.
//! `words_of` gives `document` of the definition. `put_lines` and `get_lines` give the lines of calls that store a document
//! and load it. `read_document` gives `bytes_told` of the definition: the bytes that the replies to these loads give, or
//! their first fault. The definitions are in `specs/`: `Documents` for the words, `Asked` for the calls, `Replies` for the
//! replies, and `FaultText` for faults.
#![tactic(auto)]

mod asking;
mod faults;
mod packing;
mod reading;
mod replies;

pub use asking::{get_lines, put_lines};
pub use faults::{ReplyFault, ReplyKind};
pub use packing::{BYTE_LIMIT, words_of};
pub use reading::read_document;
pub use replies::{next_reply, word_told};
