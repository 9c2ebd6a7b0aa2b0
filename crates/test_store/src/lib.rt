//! Tests of the journal, of the check of a volume and of pages as they are made: numbers of calls, which no contract states, and
//! disks that were worked out by hand.
//!
//! They are above `mg_journal`, `mg_pages` and `mg_check`, over their public calls, so that those are proved once.
#![tactic(auto)]

#[cfg(test)]
mod checks;
#[cfg(test)]
mod commits;
#[cfg(test)]
mod disks;
#[cfg(test)]
mod full;
#[cfg(test)]
mod tables;
#[cfg(test)]
mod views;
