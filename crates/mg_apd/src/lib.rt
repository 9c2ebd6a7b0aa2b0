//! The frames of a thread: its protection domain, and those that it entered on its way there.
//!
//! A layer above learns what each change leaves of a thread's row, or why it is refused, in the words of the definition. The
//! methods are those of `mg_model`'s `ThrRow` and `Frame`; here they get their refusals, which `specs/Refusals.antt` has.
#![tactic(auto)]

mod entering;
mod listing;
mod present;
mod slots;

pub use entering::{enter, leave};
pub use listing::entries;
pub use slots::{drop_slot, push_slot};
