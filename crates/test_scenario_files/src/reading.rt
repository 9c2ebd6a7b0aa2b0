// Reads a session from the bytes of its file.
use crate::lines::{Line, is_newline, line_of};
use crate::session::{Session, Settings};
use std::str;

/// The batch of a sweep that names none.
const BATCH: &str = "8";

/// Why a file is no session: the number of a line, from 1, and what is wrong there.
#[derive(Clone, Copy)]
pub struct Misread {
    pub number: usize,
    pub text: &'static str,
}

/// What the lines so far say.
#[derive(Clone, Copy)]
struct Progress<'a> {
    settings: Settings<'a>,
    /// The number of calls in this run.
    calls: usize,
    /// The number of answers in this run.
    answers: usize,
}

/// The session that these bytes spell.
pub fn read_session(file: &[u8]) -> Result<Session<'_>, Misread> {
    let mut progress = Progress {
        settings: Settings::usual(),
        calls: 0,
        answers: 0,
    };
    let mut last: usize = 0;
    for line in file.split_inclusive(is_newline) {
        last = last.saturating_add(1);
        if let Some(text) = take_line(&mut progress, line) {
            return Err(Misread { number: last, text });
        }
    }
    match end_run(&mut progress) {
        None => Ok(Session {
            settings: progress.settings,
            file,
            texts: &[],
        }),
        Some(text) => Err(Misread { number: last, text }),
    }
}

/// Takes a line. Returns what is wrong with it.
fn take_line<'a>(progress: &mut Progress<'a>, line: &'a [u8]) -> Option<&'static str> {
    match line_of(line) {
        Line::Call(_) => add_call(progress, line.ends_with(b"\n")),
        Line::Answer(_) => {
            progress.answers = progress.answers.saturating_add(1);
            None
        }
        Line::Reopen => end_run(progress),
        Line::Setting(text) => set(&mut progress.settings, text),
        Line::Note => None,
    }
}

/// Counts a call. The call before it must have its answer. A last line without a newline has its own answer before it.
fn add_call(progress: &mut Progress<'_>, is_ended: bool) -> Option<&'static str> {
    let early = if is_ended { 0 } else { 1 };
    if progress.answers != progress.calls.saturating_add(early) {
        return Some("a call before this line does not have exactly one answer");
    }
    progress.calls = progress.calls.saturating_add(1);
    None
}

/// Ends the run at this line. Each of its calls must have its answer.
fn end_run(progress: &mut Progress<'_>) -> Option<&'static str> {
    if progress.answers != progress.calls {
        return Some("a call up to this line does not have exactly one answer");
    }
    progress.calls = 0;
    progress.answers = 0;
    None
}

/// Takes a setting, such as `frames 64`.
fn set<'a>(settings: &mut Settings<'a>, text: &'a [u8]) -> Option<&'static str> {
    let Ok(text) = str::from_utf8(text) else {
        return Some("a setting that is no text");
    };
    let (word, value) = text.split_once(' ').unwrap_or((text, ""));
    match word {
        "frames" => settings.frames = value,
        "seed" => settings.seed = value,
        "credits" => settings.credits = value,
        "tariff" => settings.tariff = Some(value),
        "check" => settings.check = Some(value),
        "stops" => settings.stops = Some(batch(value)),
        "faults" => settings.faults = Some(batch(value)),
        "streams" => settings.streams = Some(batch(value)),
        "saves" => settings.saves = true,
        "shows" => settings.shows = true,
        _ => return Some("no such setting"),
    }
    None
}

/// The batch that a sweep names.
fn batch(value: &str) -> &str {
    if value.is_empty() { BATCH } else { value }
}
