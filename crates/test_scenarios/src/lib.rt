//! Scenarios: files of call lines with their answers, which are run and compared.
//!
//! Each file runs as a session of `dry`, and as sessions of `run` on a fresh volume with batches of 1, 8 and 64 lines. Each run must
//! give the answers in the file. Each must leave a volume of which `check` prints the same line, and which gives the same answers to
//! the same lines once more. A line of the file can ask for more:
//!
//! - `#: shows`: what is shown of that volume ([`Shows`]) must be what files beside the session hold.
//! - `#: stops`: the disk stops after each call that follows the opening. The volume that is opened then must answer the remaining
//!   lines as the whole run did.
//! - `#: faults`: each call of the disk, the source and the sink fails once, and the volume is compared in the same way.
//! - `#: streams`: the same for the source and the sink alone.
//!
//! `docs/SCENARIOS.md` has the form of a file.
#![tactic(auto)]

mod bench;
mod expected;
mod faults;
mod files;
mod images;
mod running;
mod showing;
mod stops;
mod sweeps;

pub use files::check_files;
pub use showing::Shows;
