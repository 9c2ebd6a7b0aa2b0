// The program, over any disk and sink.
ghost use Rattle.mg_console.specs.Programs.{EndsAs, ThenReads};
ghost use Rattle.mg_disk.specs.Stops.{WritesNothing};
ghost use Rattle.mg_serve.specs.Sessions.{code_of};
ghost use Rattle.mungi_show.specs.Program.{Did};

use crate::NAME;
use mg_console::{
    InFile, Stream, report, report_fault, report_lines, report_status, report_volume, word,
};
use mg_disk::Disk;
use mg_io::Sink;
use mg_serve::Status;
use mg_show::top_show;
use std::alloc::Global;
use std::io::{self, Eprint};

/// What the program can be asked.
const SYNOPSIS: [&str; 5] = [
    "usage: mungi_show VOLUME [state]",
    "       mungi_show VOLUME reach",
    "       mungi_show VOLUME dot",
    "       mungi_show VOLUME dot thread NUMBER STEPS",
    "       mungi_show VOLUME dot object BASE STEPS",
];

/// Carries out what the words ask for, says on standard error why it ended so, and returns the exit status. That is said after the
/// command, and the disk alone is read for it.
pub(crate) fn carry_out<R: AllocGlobal + Eprint, D: Disk + InFile, K: Sink + Stream>(
    rt: &R,
    words: &[String],
    disk: &mut D,
    sink: &mut K,
) -> u8
    ensures { EndsAs code_of (λ status. ThenReads D.Disk (λ left. Did D.Disk K.Sink words.now status disk.old left sink.old sink.new) disk.new) result }
{
    let status = show(rt.alloc(), words, disk, sink);
    report_end(rt, words, status, disk, sink.error());
    status.code()
}

/// Writes the text that the words ask for.
fn show<D: Disk, K: Sink>(alloc: Global, words: &[String], disk: &mut D, sink: &mut K) -> Status
    ensures { Did D.Disk K.Sink words.now result disk.old disk.new sink.old sink.new }
{
    top_show(alloc, words, disk, sink)
}

/// Says why the program ended with this status, and what only the file of the volume shows.
fn report_end<R: AllocGlobal + Eprint, D: Disk + InFile>(
    rt: &R,
    words: &[String],
    status: Status,
    disk: &mut D,
    written: Option<&io::Error>,
)
    ensures { WritesNothing D.Disk disk.old disk.new }
{
    let path = word(words, 0);
    if status == Status::Disk {
        report_fault(rt, NAME, path, disk.fault());
    }
    let found = disk.found();
    report_volume(rt, NAME, path, disk, found, status == Status::NoVolume);
    if status == Status::Usage {
        report_usage(rt, words);
    }
    report_status(rt, NAME, status, None, written);
}

/// Says what the program can be asked, and which word is at fault.
fn report_usage<R: Eprint>(rt: &R, words: &[String]) {
    report_lines(rt, &SYNOPSIS);
    match words {
        [] => report(rt, NAME, "no VOLUME is given"),
        [_, text] => {
            let text = text.as_str();
            let _ = eprintln!(rt; "{NAME}: {text} is no text: state, reach and dot are");
        }
        [_, _, _, _, _] => report(
            rt,
            NAME,
            "the words after VOLUME are not dot thread NUMBER STEPS or dot object BASE STEPS, with 1 to 4096 steps",
        ),
        _ => report(rt, NAME, "there are not one, two or five words"),
    }
}
