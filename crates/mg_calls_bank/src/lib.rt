//! The calls on accounts, and the collection of rent.
//!
//! A layer above learns of each call that its reply and the state after it are those of its row of the definition; what it
//! stages is said in the words of `mg_volume`'s `specs/Calls.antt`. None of them looks at a thread, reads a word, calls the
//! disk or takes the validation cache. A password may end with a period, so the kernel drops all seats after `rent`.
#![tactic(auto)]

mod banking;
mod refusing;
mod renting;

pub use banking::{account, balance, pay};
pub use renting::rent;
