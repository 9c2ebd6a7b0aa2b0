//! Lines to calls, and replies to bytes.
//!
//! A line of the input is read in one pass, with its words as slices of it, and a reply is written into a buffer of 256
//! bytes; neither allocates. A layer above has an equation for each call: what was read or written is what the definitions
//! in `mg_model` say (`Words`, `Lines`, `Print`).
#![tactic(auto)]

mod args;
mod calls;
mod lines;
mod numbers;
mod outcomes;
mod replies;
mod rights;
mod words;

pub use lines::read_line;
pub use numbers::{digit, read_number};
pub use outcomes::{print_numbers, print_small, print_words};
pub use replies::{
    print_reply, push_number, push_text, push_word, refusal_word, state_words, value_line,
};
pub use rights::read_rights;
pub use words::is_word;
