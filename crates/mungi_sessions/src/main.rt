//! Runs scenarios: files of call lines with their answers, in the folder that it is run in or as its words name them.
//!
//! A line is put for each file ([`check_files`] tells which), and the status is 1 where one differs. It is 2 where the folder can't be
//! listed, the lines can't be put, or memory is wanting.
#![tactic(auto)]

use std::process::ExitCode;
use test_shown_scenarios::check_files;

fn main(rt: HostRuntime) -> ExitCode {
    match check_files(&rt) {
        Ok(true) => ExitCode::SUCCESS,
        Ok(false) => ExitCode::FAILURE,
        Err(_) => ExitCode::from(2),
    }
}
