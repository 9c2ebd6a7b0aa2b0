// Says which word is wrong if the words spell no command of `mungi`.
use crate::endings::report;
use crate::usage::{is_told, report_lines};
use std::io::Eprint;

/// The name of the program `mungi`.
pub const MUNGI: &str = "mungi";

/// Its commands.
const SYNOPSIS: [&str; 6] = [
    "usage: mungi VOLUME dry FRAMES SEED CREDITS",
    "       mungi VOLUME format FRAMES SEED CREDITS [F:R F:R F:R F:R]",
    "       mungi VOLUME check",
    "       mungi VOLUME run [BATCH]",
    "       mungi VOLUME migrate OLD",
    "       mungi VOLUME gen NUMBER LINES",
];

/// The number of digits of a seed.
const DIGITS: usize = 64;

/// Prints the commands of `mungi`, and says which word is wrong if there is such a word.
pub fn report_commands<R: Eprint>(rt: &R, words: &[String]) {
    report_lines(rt, &SYNOPSIS);
    match words.split_first() {
        None => report(rt, MUNGI, "no VOLUME is given"),
        Some((_, rest)) => match rest.split_first() {
            None => report(rt, MUNGI, "no command is given"),
            Some((command, rest)) => report_command(rt, command.as_str(), rest),
        },
    }
}

/// Says what is wrong with a command and the words after it.
fn report_command<R: Eprint>(rt: &R, command: &str, rest: &[String]) {
    if command == "dry" {
        report_settings(rt, rest, false);
    } else if command == "format" {
        report_settings(rt, rest, true);
    } else if command == "check" {
        report(rt, MUNGI, "check takes no word");
    } else if command == "run" {
        report_batch(rt, rest);
    } else if command == "migrate" {
        report(
            rt,
            MUNGI,
            "migrate takes one word, OLD, and OLD is not VOLUME",
        );
    } else if command == "gen" {
        report_run(rt, rest);
    } else {
        let _ = eprintln!(rt; "{MUNGI}: {command} is no command");
    }
}

/// Says what is wrong with the words after `run`.
fn report_batch<R: Eprint>(rt: &R, rest: &[String]) {
    match rest {
        [batch] => {
            let _ = is_told(rt, MUNGI, "BATCH", batch.as_str(), 1, 64);
        }
        _ => report(rt, MUNGI, "run takes at most one word, BATCH"),
    }
}

/// Says what is wrong with the words after `gen`.
fn report_run<R: Eprint>(rt: &R, rest: &[String]) {
    match rest {
        [number, lines] => {
            if !is_told(rt, MUNGI, "NUMBER", number.as_str(), 0, u64::MAX) {
                let _ = is_told(rt, MUNGI, "LINES", lines.as_str(), 0, 1_000_000);
            }
        }
        _ => report(rt, MUNGI, "gen takes two words, NUMBER and LINES"),
    }
}

/// Says what is wrong with the words after `dry` or `format`.
fn report_settings<R: Eprint>(rt: &R, rest: &[String], has_tariff: bool) {
    match rest {
        [frames, seed, credits] => {
            let _ = is_setting_told(rt, frames.as_str(), seed.as_str(), credits.as_str());
        }
        [frames, seed, credits, _, _, _, _] if has_tariff => {
            if !is_setting_told(rt, frames.as_str(), seed.as_str(), credits.as_str()) {
                report(
                    rt,
                    MUNGI,
                    "a tariff has four steps F:R, the first from 0 pages on, each from more than the one before; no number is above 1048576",
                );
            }
        }
        _ if has_tariff => report(
            rt,
            MUNGI,
            "format takes three words, FRAMES SEED CREDITS, and then four steps F:R or none",
        ),
        _ => report(rt, MUNGI, "dry takes three words, FRAMES SEED CREDITS"),
    }
}

/// Says which of these is wrong. False if none is.
fn is_setting_told<R: Eprint>(rt: &R, frames: &str, seed: &str, credits: &str) -> bool {
    is_told(rt, MUNGI, "FRAMES", frames, 16, 65_536)
        || is_seed_told(rt, seed)
        || is_told(rt, MUNGI, "CREDITS", credits, 0, 1 << 62)
}

/// Says what is wrong with a seed. False if nothing is.
fn is_seed_told<R: Eprint>(rt: &R, seed: &str) -> bool {
    let digits = seed.len();
    if digits != DIGITS {
        let _ = eprintln!(rt; "{MUNGI}: SEED has {digits} digits, {DIGITS} are wanted");
        return true;
    }
    if !seed.as_bytes().iter().all(|byte| byte.is_ascii_hexdigit()) {
        report(
            rt,
            MUNGI,
            "SEED has a character that is no hexadecimal digit",
        );
        return true;
    }
    false
}
