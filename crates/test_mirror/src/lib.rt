//! Tests of runs over a mirror of two disks in memory: both are used, one of them dies or fails once, or both do.
//!
//! They are in a crate of their own above `mg_mirror_session`, so that it is proved only once.
#![tactic(auto)]

#[cfg(test)]
mod disks;
#[cfg(test)]
mod judged;
#[cfg(test)]
mod pending;
#[cfg(test)]
mod runs;
#[cfg(test)]
mod sessions;
