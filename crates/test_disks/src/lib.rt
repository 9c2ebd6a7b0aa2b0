//! Tests of disks and streams: a real file, tables of what the forms in memory answer, and blocks that are gathered, and
//! a client and a mirror at disks that fail or die at each call in turn.
//!
//! They are above `mg_disk`, `mg_io` and `mg_mirror`, over their public calls, so that those are proved once.
#![tactic(auto)]

#[cfg(test)]
mod blocks;
#[cfg(test)]
mod calls;
#[cfg(test)]
mod clients;
#[cfg(test)]
mod files;
#[cfg(test)]
mod made;
#[cfg(test)]
mod mirrors;
#[cfg(test)]
mod sinks;
#[cfg(test)]
mod sources;
