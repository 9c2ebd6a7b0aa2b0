//! Tests of what is shown of a volume, on disks in memory: a state, what threads reach, a graph and parts of it, worked out by hand,
//! what is no volume, and calls that fail.
#![tactic(auto)]

#[cfg(test)]
mod graphs;
#[cfg(test)]
mod outcomes;
#[cfg(test)]
mod parts;
#[cfg(test)]
mod reaches;
#[cfg(test)]
mod states;
