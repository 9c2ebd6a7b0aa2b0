//! The passwords of an object, and those that a volume draws.
//!
//! A layer above learns what each call leaves of an object's list of passwords, or why it is refused, and of [`Draws`] that
//! its k-th password is that of the definition. The list's methods are those of `mg_model`'s `ObjRow`; here they get their
//! refusals.
#![tactic(auto)]

mod drawing;
mod list;

pub use drawing::Draws;
pub use list::{add, holds, remove};
