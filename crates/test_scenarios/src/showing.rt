// Compares what is shown of the volume after the last run.
use mg_disk::MemDisk;
use mg_io::MemSink;
use mg_session::Status;
use std::alloc::Global;
use test_helpers::words_of;
use test_scenario_files::{Report, first_line, is_newline};

/// What prints the texts of a volume, as `mungi_show` does.
pub trait Shows {
    /// Prints the text that these words ask for. They are the words after the program's name.
    fn show(
        &self,
        alloc: Global,
        words: &[String],
        disk: &mut MemDisk,
        sink: &mut MemSink,
    ) -> Status;
}

/// The texts that are shown. Each is the second word of the program, and the ending of the name of the file that holds the text.
pub const TEXTS: [&str; 3] = ["state", "reach", "dot"];

/// The most bytes of a text.
const ROOM: usize = 65536;

/// Whether each text is as its file has it. The files are in the order of [`TEXTS`], or there are none.
pub fn show_all<S: Shows>(
    report: &mut Report,
    how: &str,
    shows: &S,
    disk: &mut MemDisk,
    files: &[Vec<u8>],
) -> bool {
    for (name, wanted) in TEXTS.into_iter().zip(files) {
        if !show(report, how, shows, disk, name, wanted) {
            return false;
        }
    }
    true
}

fn show<S: Shows>(
    report: &mut Report,
    how: &str,
    shows: &S,
    disk: &mut MemDisk,
    name: &str,
    wanted: &[u8],
) -> bool {
    match format!(in report.alloc(); "vol {name}") {
        Ok(line) => match words_of(report.alloc(), line.as_str()) {
            Ok(words) => show_words(report, how, shows, disk, &words, name, wanted),
            Err(_) => false,
        },
        Err(_) => false,
    }
}

fn show_words<S: Shows>(
    report: &mut Report,
    how: &str,
    shows: &S,
    disk: &mut MemDisk,
    words: &[String],
    name: &str,
    wanted: &[u8],
) -> bool {
    match MemSink::new(report.alloc(), ROOM, Vec::new(report.alloc())) {
        Ok(mut sink) => {
            let status = shows.show(report.alloc(), words, disk, &mut sink);
            is_shown(report, how, name, status, sink.bytes(), wanted)
        }
        Err(_) => false,
    }
}

/// Whether a text was printed as its file has it.
fn is_shown(
    report: &mut Report,
    how: &str,
    name: &str,
    status: Status,
    found: &[u8],
    wanted: &[u8],
) -> bool {
    if status != Status::Done {
        let code = status.code();
        report.set(format!(in report.alloc(); "{how}: then {name}: status {code}"));
        return false;
    }
    if found != wanted {
        describe_text(report, how, name, wanted, found);
        return false;
    }
    true
}

/// Says at which line the text first differs from its file.
fn describe_text(report: &mut Report, how: &str, name: &str, wanted: &[u8], found: &[u8]) {
    let (number, wanted, found) = first_difference(wanted, found);
    match format!(in report.alloc(); "then {name}: line {number}") {
        Ok(what) => report.describe_bytes(how, what.as_str(), wanted, found),
        Err(_) => {}
    }
}

/// The number, from 1, of the first line at which two texts differ, and that line of each.
fn first_difference<'a>(wanted: &'a [u8], found: &'a [u8]) -> (usize, &'a [u8], &'a [u8]) {
    let mut found = found;
    let mut number: usize = 1;
    for line in wanted.split_inclusive(is_newline) {
        match found.strip_prefix(line) {
            Some(rest) => found = rest,
            None => return (number, line, first_line(found)),
        }
        number = number.saturating_add(1);
    }
    (number, b"", first_line(found))
}
