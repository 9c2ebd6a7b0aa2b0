// Says which word is wrong if the words spell no command.
use crate::NAME;
use mg_console::{report, report_lines};
use mg_window_session::read_device;
use std::io::Eprint;

/// The commands of the program.
const SYNOPSIS: [&str; 4] = [
    "usage: mungi_dev LEFT mirror RIGHT SIDE",
    "       mungi_dev VOLUME dev [KIND:BASE ..]",
    "LEFT and RIGHT are two files; SIDE, left or right, names the one that is copied over the other",
    "KIND is latch, console or counter, BASE the address of an object; up to 16, no address twice",
];

/// The most devices of a volume.
const DEVICE_LIMIT: usize = 16;

/// Prints the commands of the program, and says which word is wrong.
pub(crate) fn report_usage<R: Eprint>(rt: &R, words: &[String]) {
    report_lines(rt, &SYNOPSIS);
    match words {
        [] => report(rt, NAME, "no file is given"),
        [_] => report(rt, NAME, "no command is given"),
        [left, command, rest @ ..] => report_command(rt, left.as_str(), command.as_str(), rest),
    }
}

/// Says what is wrong with a command, the word before it and the words after it.
fn report_command<R: Eprint>(rt: &R, left: &str, command: &str, rest: &[String]) {
    if command == "mirror" {
        report_mirror(rt, left, rest);
    } else if command == "dev" {
        report_devices(rt, rest);
    } else {
        let _ = eprintln!(rt; "{NAME}: {command} is no command");
    }
}

/// Says what is wrong with the words before and after `mirror`.
fn report_mirror<R: Eprint>(rt: &R, left: &str, rest: &[String]) {
    match rest {
        [right, side] => {
            if right.as_str() == left {
                report(rt, NAME, "LEFT and RIGHT are one file");
            } else {
                let side = side.as_str();
                let _ = eprintln!(rt; "{NAME}: SIDE is {side}, and has to be left or right");
            }
        }
        _ => report(rt, NAME, "mirror takes two words, RIGHT and SIDE"),
    }
}

/// Says which of the words after `dev` is wrong.
fn report_devices<R: Eprint>(rt: &R, devices: &[String]) {
    let count = devices.len();
    if count > DEVICE_LIMIT {
        let _ = eprintln!(rt;
            "{NAME}: {count} devices are asked for, and {DEVICE_LIMIT} is the most"
        );
        return;
    }
    for (place, device) in devices.iter().enumerate() {
        if is_device_told(rt, device, &devices[..place]) {
            return;
        }
    }
}

/// Says what is wrong with this word for a device, which comes after the others. False if nothing is.
fn is_device_told<R: Eprint>(rt: &R, word: &String, others: &[String]) -> bool {
    let text = word.as_str();
    match read_device(word) {
        None => {
            let _ = eprintln!(rt;
                "{NAME}: {text} is no device: KIND:BASE is wanted, with the KIND latch, console or counter, and a number as BASE"
            );
            true
        }
        Some((_, base)) => {
            let is_taken = is_base_of(base, others);
            if is_taken {
                let _ = eprintln!(rt; "{NAME}: {text} has the BASE of a device before it");
            }
            is_taken
        }
    }
}

/// Whether one of these words names a device at this base.
fn is_base_of(base: u64, words: &[String]) -> bool {
    for word in words {
        match read_device(word) {
            Some((_, other)) if other == base => return true,
            _ => {}
        }
    }
    false
}
