//! Volumes of version 1, and what they become in version 2.
//!
//! What an image of version 1 spells is `volume1` of `specs/Version1.antt`; `lift` gives its state with passwords that never end.
//! Such an image, once its journal is replayed, is looked at as one of version 2, block by block (`lifted` of
//! `specs/Lifted.antt`), and [`lifted_images_spell_the_lifted_state`] says that whatever has these blocks spells the lifted state,
//! or is damaged exactly if the old image is. [`fresh_block1`] is for tests.
//!
//! [`migrate`] copies a volume of version 1 from one disk to another: its old tables are judged and reported like tables of
//! version 2, from the lifted blocks, and then these are copied in order. What each answer says, and what a stop at any moment
//! leaves on the new disk, is in `specs/Migrated.antt`.
#![tactic(auto)]

mod copying;
mod fresh;
mod laws;
mod lifting;
mod migrating;
mod old_volume;
mod rows;
mod superblock;

pub use fresh::fresh_block1;
pub use laws::lifted_images_spell_the_lifted_state;
pub use migrating::{MigrateFault, migrate};
