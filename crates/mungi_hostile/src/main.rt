//! Runs the sessions in its folder as `mungi_sessions` does: those that stop the disk after every call, and fail every call, and so
//! take long. They are a program of their own because a program has two minutes in the gate.
#![tactic(auto)]

use std::process::ExitCode;
use test_shown_scenarios::check_files;

fn main(rt: HostRuntime) -> ExitCode {
    match check_files(&rt) {
        Ok(true) => ExitCode::SUCCESS,
        Ok(false) => ExitCode::FAILURE,
        Err(_) => ExitCode::from(2),
    }
}
