//! Tests of runs with device windows, on disks in memory: what devices answer, when they are reached, and when they are dropped.
//!
//! They are in a crate of their own above `mg_window_session`, so that it is proved only once.
#![tactic(auto)]

#[cfg(test)]
mod devices;
#[cfg(test)]
mod lines;
#[cfg(test)]
mod own_kind;
#[cfg(test)]
mod runs;
