//! The journal: a commit that a stop leaves whole or absent.
//!
//! A layer above stages blocks in a [`Writes`] and hands them to [`Store::commit`]: at each moment of it a stop leaves the
//! old contents or the new, and after Ok the new. The contents of an image are its blocks after replay (`replay` of
//! `mg_model`), the segments' own blocks left aside. [`Store::open`] recovers what a stop left of a commit: the contents
//! stay at each moment of it, and after Ok no segment is open. [`View::look`] finds where the newest body of each block lies,
//! and writes nothing; whoever has read through the view passes it to [`Store::recover`].
//!
//! A commit fills the next of eight segments, and homes wait: the store's view says where the newest body of each block
//! lies. A commit that finds all eight open makes a checkpoint first, which writes the homes and closes the gates.
//!
//! `specs/Contents.antt` and `specs/Standing.antt` have the words of the contracts. What a change inside the journal does to
//! the contents is in `specs/Facts.antt` (closed segments, and the gate of a written one) and `proofs/Homes.antt`
//! (homes of open segments, and the closing of gates), for any segment and with no disk in them.
#![tactic(auto)]

mod applying;
mod committing;
mod faults;
mod home_list;
mod index;
mod places;
mod reading;
mod recovering;
mod segment;
mod store;
mod table;
mod view;
mod writes;

pub use faults::ViewFault;
pub use store::Store;
pub use view::View;
pub use writes::Writes;
