//! Device windows: devices at the bases of objects, each with a tape of the stores that reached it.
//!
//! A [`Device`] is any type that has a kind and a tape: [`Latch`], [`Console`] and [`Counter`] are such types, and a caller may
//! bring others. A layer above attaches boxed devices at bases, finds them there, and loads from each and stores to it by its
//! place in the list. It learns that a load is answered by the kind and the tape alone (`reading` of `specs/Devices.antt`), that
//! a store adds one entry to one tape and nothing else, and that it is refused exactly if that tape is full.
//! All memory is taken when a device is made and when the list is.
//!
//! Contracts see a device of a type `D` as `D.held` of it, and a list of devices as `seen D.held` of the list
//! (`specs/Attached.antt`); at boxes that member is `⟦<Box<dyn Device> as Device>⟧.held`.
#![tactic(auto)]

mod device;
mod kinds;
mod tape;
mod windows;

pub use device::{Device, TapeFull};
pub use kinds::{Console, Counter, Latch};
pub use windows::{MOST_DEVICES, Windows};
