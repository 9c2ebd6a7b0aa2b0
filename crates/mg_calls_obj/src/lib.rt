//! The calls on an object.
//!
//! A layer above learns of each call that its reply and the state after it are those of its row of the definition, from the
//! point on at which the thread is known; what it read and staged is said in the words of `mg_volume`'s `specs/Calls.antt`.
//!
//! A call on an object by its base is its row after the search for the right to it. `on_object` and `validated_info` make that search
//! first, for the address that a thread names, and continue with the row that it found.
#![tactic(auto)]

mod altering;
mod based;
mod creating;
mod door;
mod informing;
mod making;
mod passwords;

pub use based::{delete, entry, ext, pwadd, pwdel, recharge};
pub use creating::create;
pub use door::on_object;
pub use informing::{info, validated_info};
