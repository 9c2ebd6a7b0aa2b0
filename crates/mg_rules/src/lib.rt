//! The rows of a volume as they are held in memory, and the rules between them. No call here reads a disk.
//!
//! A layer above learns from [`VolumeRows::fit`] whether rows keep the rules of a volume: exactly when the state that they
//! spell keeps `state_fits` of `mg_model`, whatever words the frames have. What rows are held, and what image is read as them, is in
//! `specs/RowsRead.antt`: `AreHeld`, `AreKept` and `IsReadAs`. What each table of an image spells, and what rows were told
//! of it, follows there; the lemmas on these are for the layer that reads the tables.
#![tactic(auto)]

mod sorted;
mod soundness;
mod volume_rows;

pub use soundness::pages_in;
pub use volume_rows::VolumeRows;
