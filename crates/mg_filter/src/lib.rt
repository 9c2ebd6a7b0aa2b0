//! What the filters share. A filter is a program that reads an input whole, turns it into a text, and writes that text or the line of
//! the input's first fault.
//!
//! [`read_whole`] reads a source to its end, up to a limit. [`Status`] says how a filter ends. [`put_numbered`] writes the line of a
//! fault. The crates above define what an input becomes.
#![tactic(auto)]

mod fault_line;
mod status;
mod whole;

pub use fault_line::put_numbered;
pub use status::Status;
pub use whole::{Unread, read_whole};
