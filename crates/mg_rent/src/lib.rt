//! The rent of pages: its rate, and its collection.
//!
//! A layer above learns that the rate is the one of the tariff's last step that holds, and that a collection charges each
//! account what the definition says, from the accounts as they were, and gives the treasury the sum of what they paid. No
//! credit comes or goes, and what an account may owe grows by a fixed amount for each period.
#![tactic(auto)]

mod charging;
mod collecting;
mod rates;

pub use collecting::{collect, collect_rent};
pub use rates::rate;
