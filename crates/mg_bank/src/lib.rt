//! The accounts of a volume, and the credits that they have.
//!
//! A layer above sees a [`Bank`] as the list of its accounts, account n at place n - 1, and for how many pages each pays. What
//! one account gives another gets, so the total of the credits is conserved, and it never overflows. A call that is refused
//! changes nothing; `specs/Refusals.antt` has the refusals. Only [`Bank::new`] and [`Bank::of`] take memory.
#![tactic(auto)]

mod bank;
mod refusing;
mod rows;

pub use bank::Bank;
