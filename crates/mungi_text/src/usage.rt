// Which word is at fault if the words spell no command.
use crate::NAME;
use mg_console::{is_address_told, is_told, report, report_lines};
use mg_document::BYTE_LIMIT;
use std::io::Eprint;

/// The commands, as they are printed after the line `usage`.
const SYNOPSIS: [&str; 3] = [
    "       mungi_text put THREAD ADDRESS",
    "       mungi_text get THREAD ADDRESS BYTES",
    "       mungi_text bytes",
];

/// Prints the commands, and which word is at fault.
pub(crate) fn report_usage<R: Eprint>(rt: &R, words: &[String]) {
    report_lines(rt, &SYNOPSIS);
    match words.split_first() {
        None => report(rt, NAME, "no command is given"),
        Some((command, rest)) => report_command(rt, command.as_str(), rest),
    }
}

/// Prints what is wrong with a command and the words after it.
fn report_command<R: Eprint>(rt: &R, command: &str, rest: &[String]) {
    if command == "put" {
        report_put(rt, rest);
    } else if command == "get" {
        report_get(rt, rest);
    } else if command == "bytes" {
        report(rt, NAME, "bytes takes no word");
    } else {
        let _ = eprintln!(rt; "{NAME}: {command} is no command");
    }
}

/// Prints what is wrong with the words after `put`.
fn report_put<R: Eprint>(rt: &R, rest: &[String]) {
    match rest {
        [thread, address] => {
            let _ = is_place_told(rt, thread.as_str(), address.as_str());
        }
        _ => report(rt, NAME, "put takes two words, THREAD and ADDRESS"),
    }
}

/// Prints what is wrong with the words after `get`.
fn report_get<R: Eprint>(rt: &R, rest: &[String]) {
    match rest {
        [thread, address, bytes] => {
            if !is_place_told(rt, thread.as_str(), address.as_str()) {
                let _ = is_told(rt, NAME, "BYTES", bytes.as_str(), 0, BYTE_LIMIT);
            }
        }
        _ => report(rt, NAME, "get takes three words, THREAD, ADDRESS and BYTES"),
    }
}

/// Whether one of these words is at fault, which is then printed.
fn is_place_told<R: Eprint>(rt: &R, thread: &str, address: &str) -> bool {
    is_told(rt, NAME, "THREAD", thread, 0, u64::MAX) || is_address_told(rt, NAME, address)
}
