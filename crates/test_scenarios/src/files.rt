// Runs files of sessions one after the other.
use crate::running::run_all;
use crate::showing::{Shows, TEXTS};
use crate::sweeps::{Sweep, sweep_all};
use std::alloc::{AllocError, Global};
use std::rt::{Env, Files};
use std::{env, fs, io};
use test_scenario_files::{Kind, Report, Session, count, read_session};

/// How much of a file was compared.
#[derive(Clone, Copy)]
struct Compared {
    answers: usize,
    stops: u64,
    /// None if the file has no `#: faults` and no `#: streams`.
    faults: Option<u64>,
}

/// Prints a line for each file: how much was compared, or how it differs. Returns whether all files agree.
///
/// The files are those that the program's words name. With no words they are the `.calls` files of the current folder, in the order of
/// their names. The error is that the folder can't be listed, that a line can't be printed, or that memory runs out.
pub fn check_files<R: Files + Env + Print + AllocGlobal + Clone + Drop, S: Shows>(
    rt: &R,
    shows: &S,
) -> io::Result<bool> {
    match paths(rt) {
        Ok(paths) => check_each(rt, shows, &paths),
        Err(e) => Err(e),
    }
}

fn check_each<R: Files + Print + AllocGlobal + Clone + Drop, S: Shows>(
    rt: &R,
    shows: &S,
    paths: &[String],
) -> io::Result<bool> {
    let mut is_good = true;
    for path in paths {
        if !check_file(rt, shows, path.as_str())? {
            is_good = false;
        }
    }
    Ok(is_good)
}

/// Prints the line of a file, and returns whether the file agrees.
fn check_file<R: Files + Print + AllocGlobal + Clone + Drop, S: Shows>(
    rt: &R,
    shows: &S,
    path: &str,
) -> io::Result<bool> {
    match fs::read(rt, path) {
        Ok(bytes) => check_bytes(rt, shows, path, &bytes),
        Err(_) => {
            let name = name_of(path);
            println!(rt; "{name}: can't be read")?;
            Ok(false)
        }
    }
}

fn check_bytes<R: Files + Print + AllocGlobal + Clone + Drop, S: Shows>(
    rt: &R,
    shows: &S,
    path: &str,
    bytes: &[u8],
) -> io::Result<bool> {
    let mut report = Report::new(rt.alloc());
    let compared = compare(rt, shows, &mut report, path, bytes);
    print_result(rt, name_of(path), compared, report.text())
}

/// Prints the line of a file, and returns whether the file agrees. No result and no text mean that memory ran out.
fn print_result<R: Print>(
    rt: &R,
    name: &str,
    compared: Option<Compared>,
    text: &str,
) -> io::Result<bool> {
    match compared {
        Some(compared) => {
            print_compared(rt, name, &compared)?;
            Ok(true)
        }
        None => {
            if text.is_empty() {
                return Err(AllocError.into());
            }
            println!(rt; "{name}: {text}")?;
            Ok(false)
        }
    }
}

fn print_compared<R: Print>(rt: &R, name: &str, compared: &Compared) -> io::Result<()> {
    let answers = compared.answers;
    let stops = compared.stops;
    match compared.faults {
        None => println!(rt; "{name}: {answers} answers, {stops} stops"),
        Some(faults) => println!(rt; "{name}: {answers} answers, {stops} stops, {faults} faults"),
    }
}

/// The paths of the files to run.
fn paths<R: Files + Env + AllocGlobal + Clone + Drop>(rt: &R) -> io::Result<Vec<String>> {
    match words(rt) {
        Ok(mut paths) => match add_folder(rt, &mut paths) {
            Ok(()) => Ok(paths),
            Err(e) => Err(e),
        },
        Err(e) => Err(e),
    }
}

/// The program's words after its name.
fn words<R: Env + AllocGlobal + Clone + Drop>(rt: &R) -> io::Result<Vec<String>> {
    Ok(env::args(rt)?.skip(1).collect(rt.alloc())?)
}

/// Adds the files of the current folder if there are no paths yet.
fn add_folder<R: Files + AllocGlobal + Clone + Drop>(
    rt: &R,
    paths: &mut Vec<String>,
) -> io::Result<()> {
    if paths.is_empty() {
        add_files(rt, paths)?;
        paths.sort()?;
    }
    Ok(())
}

fn add_files<R: Files + AllocGlobal + Clone + Drop>(
    rt: &R,
    paths: &mut Vec<String>,
) -> io::Result<()> {
    for entry in fs::read_dir(rt, ".")? {
        match entry {
            Ok(entry) => add_path(rt.alloc(), entry.file_name(), paths)?,
            Err(e) => return Err(e),
        }
    }
    Ok(())
}

fn add_path(alloc: Global, name: &str, paths: &mut Vec<String>) -> Result<(), AllocError> {
    if name.ends_with(".calls") {
        paths.push(String::from_str(alloc, name)?)?;
    }
    Ok(())
}

/// The part of a path after its last slash.
fn name_of(path: &str) -> &str {
    match path.rsplit_once('/') {
        Some((_, name)) => name,
        None => path,
    }
}

/// How much of a file was compared. None if it differs, or if memory runs out.
fn compare<R: Files + AllocGlobal + Clone + Drop, S: Shows>(
    rt: &R,
    shows: &S,
    report: &mut Report,
    path: &str,
    bytes: &[u8],
) -> Option<Compared> {
    match read_session(bytes) {
        Ok(session) => compare_beside(rt, shows, report, path, &session),
        Err(misread) => {
            let number = misread.number;
            let text = misread.text;
            report.set(format!(in report.alloc(); "line {number}: {text}"));
            None
        }
    }
}

/// The same, with the files beside the session's if it has `#: shows`.
fn compare_beside<R: Files + AllocGlobal + Clone + Drop, S: Shows>(
    rt: &R,
    shows: &S,
    report: &mut Report,
    path: &str,
    session: &Session<'_>,
) -> Option<Compared> {
    let mut texts = Vec::new(rt.alloc());
    if session.settings.shows && !read_texts(rt, report, path, &mut texts) {
        return None;
    }
    compare_session(
        report,
        shows,
        &Session {
            texts: &texts,
            ..*session
        },
    )
}

/// Reads the files of the texts into `texts`. False if one can't be read, or if memory runs out.
fn read_texts<R: Files + AllocGlobal + Clone + Drop>(
    rt: &R,
    report: &mut Report,
    path: &str,
    texts: &mut Vec<Vec<u8>>,
) -> bool {
    let session = path.strip_suffix(".calls").unwrap_or(path);
    for name in TEXTS {
        if !read_text(rt, report, session, name, texts) {
            return false;
        }
    }
    true
}

fn read_text<R: Files + AllocGlobal + Clone + Drop>(
    rt: &R,
    report: &mut Report,
    session: &str,
    name: &str,
    texts: &mut Vec<Vec<u8>>,
) -> bool {
    match format!(in rt.alloc(); "{session}.{name}") {
        Ok(path) => match fs::read(rt, path.as_str()) {
            Ok(bytes) => texts.push(bytes).is_ok(),
            Err(_) => {
                report.set(format!(in rt.alloc(); "the file of {name} can't be read"));
                false
            }
        },
        Err(_) => false,
    }
}

fn compare_session<S: Shows>(
    report: &mut Report,
    shows: &S,
    session: &Session<'_>,
) -> Option<Compared> {
    if !run_all(report, session, shows) {
        return None;
    }
    let stops = match session.settings.stops {
        Some(batch) => sweep_all(report, session, Sweep::Stops, batch)?,
        None => 0,
    };
    let faults = match session.settings.faults {
        Some(batch) => Some(sweep_all(report, session, Sweep::Faults, batch)?),
        None => None,
    };
    let faults = match session.settings.streams {
        Some(batch) => {
            let more = sweep_all(report, session, Sweep::Streams, batch)?;
            Some(faults.unwrap_or(0).saturating_add(more))
        }
        None => faults,
    };
    Some(Compared {
        answers: count(session.file, Kind::Answers),
        stops,
        faults,
    })
}
