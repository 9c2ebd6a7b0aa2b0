//! The file of a scenario: what each of its lines is, its runs, its settings, and the report that says how it differs.
//!
//! `docs/SCENARIOS.md` has the form of a file. `test_scenarios` runs it. Nothing here makes a call of the machine, so this crate is
//! proved beside the layers and not above them.
#![tactic(auto)]

mod lines;
mod parts;
mod reading;
mod report;
mod session;

pub use lines::{Kind, Line, count_lines, first_line, is_newline, line_of};
pub use parts::{Part, append, append_line, append_lines, count, count_runs, part_of, place_after};
pub use reading::{Misread, read_session};
pub use report::Report;
pub use session::{Session, Settings};
