//! Tests of rows, settings and places: bytes and numbers that no contract spells out.
//!
//! They are above `mg_model`, `mg_rows`, `mg_layout`, `mg_index`, `mg_frames`, `mg_objects`, `mg_ranges`, `mg_bank`, `mg_rent` and
//! `mg_space`, over their public calls, so that those are proved once. A contract there says of each call what its definition
//! answers. Here are bytes of rows, a superblock and a fresh volume that were worked out by hand from docs/VOLUME.md, passwords
//! that RFC 8439 prints, calls that take memory, and as many objects as there may be.
#![tactic(auto)]

#[cfg(test)]
mod banks;
#[cfg(test)]
mod indexes;
#[cfg(test)]
mod layout;
#[cfg(test)]
mod model;
#[cfg(test)]
mod ranges;
#[cfg(test)]
mod rows;
#[cfg(test)]
mod spaces;
