// Which word is at fault if the words spell no command.
use crate::NAME;
use mg_console::{is_address_told, is_told, report, report_lines};
use std::io::Eprint;

/// The commands, as they are printed after the line `usage`.
const SYNOPSIS: [&str; 2] = ["       mungi_asm THREAD ADDRESS", "       mungi_asm print"];

/// Prints the commands, and which word is at fault.
pub(crate) fn report_usage<R: Eprint>(rt: &R, words: &[String]) {
    report_lines(rt, &SYNOPSIS);
    match words {
        [] => report(rt, NAME, "no command is given"),
        [word] => {
            if !is_told(rt, NAME, "THREAD", word.as_str(), 0, u64::MAX) {
                report(rt, NAME, "no ADDRESS is given");
            }
        }
        [thread, address] => report_store(rt, thread.as_str(), address.as_str()),
        _ => report(rt, NAME, "there are more than two words"),
    }
}

/// Prints which of these two words is at fault.
fn report_store<R: Eprint>(rt: &R, thread: &str, address: &str) {
    if thread == "print" {
        report(rt, NAME, "print takes no word");
    } else if !is_told(rt, NAME, "THREAD", thread, 0, u64::MAX) {
        let _ = is_address_told(rt, NAME, address);
    }
}
