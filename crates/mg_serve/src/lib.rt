//! The loop from bytes to replies, over any machine.
//!
//! A [`Machine`] steps a line and commits what lines changed. [`serve`] cuts the source's bytes at newlines, has a machine step
//! each line, and sends the replies in their order, batch by batch: a batch is committed, and then its replies are sent. [`run`]
//! takes the memory for the replies and returns how the session ended.
//!
//! What the layer above learns is in the contracts of these two calls, for every machine, disk, source and sink, those that
//! fail at any call among them: what the sink took, how much the source gave, what the disk holds and what a stop may leave of it
//! at each moment, and when each status comes. A machine is described by two functions of the lines to come: what it says to
//! them, and what it keeps.
//!
//! The definitions are in `specs/`: `Sessions` (what a session keeps) and `Serving` (the record of the two calls); for the
//! functions inside `Machines` (lines between two points), `Waiting` (replies that wait), `Incoming` (bytes and the lines that they
//! end) and `Readings` (the ends of a session).
#![tactic(auto)]

mod batches;
mod buffers;
mod ended;
mod incoming;
mod machine;
mod partial;
mod reading;
mod serving;
mod status;

pub use batches::STAGED_LIMIT;
pub use buffers::{BATCH_LIMIT, Buffers};
pub use ended::Ended;
pub use machine::Machine;
pub use serving::{run, serve};
pub use status::Status;
