//! Tests of the migration of a volume of version 1, on disks in memory and in files: what the new volume holds, what a stop or a call
//! that fails leaves, and which old disks are refused.
//!
//! They are in a crate of their own above `mg_migrate_session`, so that it is proved only once.
#![tactic(auto)]

#[cfg(test)]
mod after;
#[cfg(test)]
mod files;
#[cfg(test)]
mod images;
#[cfg(test)]
mod moved;
#[cfg(test)]
mod old_faults;
#[cfg(test)]
mod outcomes;
#[cfg(test)]
mod refused;
#[cfg(test)]
mod scattered;
#[cfg(test)]
mod stops;
