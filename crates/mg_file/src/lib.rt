//! A disk in a file: [`FileDisk`], which the programs keep a volume in.
//!
//! It meets the contract of `mg_disk`'s trait, for a disk that doesn't tell what reads give. So no layer above learns what a file
//! holds; that a real file keeps what is written is trusted. A [`FileDisk`] locks its file at the first call, and says what the file
//! was when it was opened ([`Found`]) and why a call failed ([`FileFault`]). A [`Watch`] is told of each call as it is made.
//!
//! It is a crate of its own because only programs need it: the layers over a disk are proved beside it.
#![tactic(auto)]

mod file;
mod watching;

pub use file::{FileDisk, Found, OneHolder};
pub use watching::{FileFault, Unwatched, Watch};
