//! The assembler of scripts: from text to words, and from words to text.
//!
//! A text is lines of instructions, labels and plain words. A layer above has these facts. `assemble` gives `assembled` of
//! the definition, which is the words of the text or its first fault. `print` gives `printed`, a text that assembles to the
//! words that were printed. `read_list` reads words from a list of numbers, and `store_lines` makes lines of calls of them.
//! The definitions are in `specs/`: `Tokens` and `Reading` for a line, `Assembled` and `Labels` for a text, `Printed` for
//! the way back, `FaultText` for faults, `Listed` for lists and `Stored` for lines of calls.
#![tactic(auto)]

mod assembling;
mod faults;
mod items;
mod labels;
mod lines;
mod listing;
mod names;
mod operands;
mod printing;
mod storing;
mod tokens;

pub use assembling::assemble;
pub use faults::{AsmFault, AsmKind};
pub use listing::read_list;
pub use printing::print;
pub use storing::{may_store_at, store_lines};
pub use tokens::{cut, next_token};
