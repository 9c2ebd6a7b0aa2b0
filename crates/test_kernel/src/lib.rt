//! Tests of a volume, of the calls and of the kernel. Each call that no program makes is made once, so something meets what it
//! requires.
//!
//! They are in a crate of their own above `mg_volume`, `mg_calls_obj`, `mg_calls_thr` and `mg_kernel`, so that those are proved only
//! once. `specs/Fresh.antt` says what is known of a fresh volume.
#![tactic(auto)]

#[cfg(test)]
mod calls;
#[cfg(test)]
mod failing;
#[cfg(test)]
mod filling;
#[cfg(test)]
mod kernels;
#[cfg(test)]
mod listing;
#[cfg(test)]
mod probes;
#[cfg(test)]
mod sharing;
#[cfg(test)]
mod staging;
#[cfg(test)]
mod trials;
