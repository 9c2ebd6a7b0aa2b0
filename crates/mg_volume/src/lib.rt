//! A volume: a state of the machine that lives on a disk.
//!
//! A layer above reads and changes parts of a state. What stages a change changes `now`; a commit makes what is kept on the
//! disk equal to it, and at each moment of it a stop leaves one of the two. Where a row or a page lies on the disk shows in
//! no contract.
//!
//! `specs/Meaning.antt` has the words of the contracts: the state `now_of` a volume and an image, and when a volume stands
//! on a disk. `specs/Staging.antt` has those on what may be staged, and on what waits for a commit. `specs/StateLemmas.antt` says what
//! may be known of them.
#![tactic(auto)]

mod account_block;
mod accounts;
mod committing;
mod counting;
mod forming;
mod object_block;
mod object_removing;
mod object_staging;
mod opening;
mod staging;
mod standing;
mod thread_block;
mod threads;
mod volume;
mod words;

pub use mg_check::OpenFault;
pub use volume::Volume;
