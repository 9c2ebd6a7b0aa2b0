//! Bytes that come from outside, and bytes that go there.
//!
//! A [`Source`] gives its bytes in pieces and a [`Sink`] takes them in pieces; either may fail at any call. If the object
//! tells its bytes, the clauses say which bytes moved, at each call and over a run of calls. A failed call moved none and
//! raised the object's count of faults. [`put_all`] writes a whole text.
//!
//! The forms in memory tell everything, and fail at the calls that their caller names. [`ReaderSource`] and [`WriterSink`]
//! are over std's readers and writers. They tell what those tell: all of it in memory, nothing of a real file or stream.
//!
//! The definitions are in `specs/Known.antt` (bytes that move) and `specs/Memory.antt` (the forms in memory). Those of the
//! count of faults are `mg_faults`'s.
#![tactic(auto)]

/// The most bytes that a program which reads an input whole takes at once.
pub const PIECE: usize = 4096;

mod mem_sink;
mod mem_source;
mod numbers;
mod plan;
mod putting;
mod streams;
mod traits;

pub use mem_sink::MemSink;
pub use mem_source::MemSource;
pub use mg_faults::Failed;
pub use numbers::standard_numbers;
pub use putting::put_all;
pub use streams::{ReaderSource, WriterSink};
pub use traits::{Sink, Source};
