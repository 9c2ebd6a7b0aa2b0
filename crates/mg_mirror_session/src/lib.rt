//! The session over a mirror: from the words `LEFT mirror RIGHT SIDE` to the exit status.
//!
//! [`top_mirror`] makes one disk of two, which goes on when one of them fails, runs the source's lines on the volume of it as
//! `mg_session` does, and says at the end which side stands alone, if one does. Before it copies one disk to the other it judges the
//! first blocks of the one: where they tell of no volume it writes on neither. What the layer above learns stands on it, for
//! every two disks, source and sink.
//!
//! The definitions stand in `specs/`: `Commands` (what the words spell), `Mirrored` (what a mirror of two disks shows), `Judged` (what
//! the first two blocks tell), `Headline` (what is kept, in one record) and `History` (runs over mirrors, one after another).
#![tactic(auto)]

mod history;
mod judging;
mod putting;
mod top_call;
mod words;

pub use history::runs_over_mirrors_follow;
pub use top_call::top_mirror;
