// The file that a command of `mungi` works on, and what is said after the command.
ghost use Rattle.mg_disk.specs.Stops.{WritesNothing};

use crate::commands::{MUNGI, report_commands};
use crate::endings::{had_its_file, report_fault};
use crate::files::disk_in;
use crate::notes::{Notes, Task};
use crate::shown::InFile;
use crate::statuses::report_status;
use crate::volumes::{report_unmigrated, report_volume};
use crate::words::word;
use mg_disk::{BLOCK_SIZE, Disk};
use mg_file::{FileDisk, FileFault, Found, OneHolder};
use mg_layout::Geometry;
use mg_serve::Status;
use mg_text::read_number;
use std::io::{self, Eprint};
use std::os::unix::fs::FileExt;
use std::rt::{Clock, Files};

/// The disk in the file of the first word of a command of `mungi`. `check` only reads it. `format` gives it the length of its volume.
/// If it is a copy (`copies`), as for `migrate`, a file that is made gets the permissions of the file of the third word. `is_terminal`
/// is as for [`disk_in`].
pub fn volume_of<'a, R: Files + Clock + Eprint>(
    rt: &'a R,
    words: &'a [String],
    copies: bool,
    is_terminal: bool,
) -> FileDisk<'a, R, Notes<'a, R>>
where
    R::File: FileExt + OneHolder,
{
    let path = word(words, 0);
    if word(words, 1) == "check" {
        let notes = Notes::new(rt, MUNGI, path, Task::Volume, is_terminal);
        return FileDisk::watched_reader(rt, path, notes);
    }
    let task = if copies { Task::Copy } else { Task::Volume };
    let mut disk = disk_in(rt, MUNGI, path, task, word(words, 2), is_terminal);
    if let Some(blocks) = blocks_made(words) {
        disk.set_length(blocks);
    }
    disk
}

/// Says why a command of `mungi` ended with this status, and what only the file of its volume shows. `disk` is in the file of the first
/// word, and `old` in the file of the third. The errors are those of standard input and of standard output. `copies` is as for
/// [`volume_of`].
pub fn report_end<R: AllocGlobal + Eprint, D: Disk + InFile, E: InFile>(
    rt: &R,
    words: &[String],
    copies: bool,
    status: Status,
    disk: &mut D,
    old: &E,
    read: Option<&io::Error>,
    written: Option<&io::Error>,
)
    ensures { WritesNothing D.Disk disk.old disk.new }
{
    if status == Status::Disk {
        report_fault(rt, MUNGI, word(words, 0), disk.fault());
        report_fault(rt, MUNGI, word(words, 2), old.fault());
        report_need(rt, words, disk.fault());
    }
    if copies && status == Status::NoVolume {
        report_unmigrated(rt, MUNGI, word(words, 2), old.found());
    }
    let found = disk.found();
    report_file(rt, words, copies, disk, found, status == Status::NoVolume);
    if status == Status::Usage {
        report_commands(rt, words);
    }
    report_status(rt, MUNGI, status, read, written);
}

/// Says how many bytes the volume needs that `format` could not make, unless its file could not be opened.
fn report_need<R: Eprint>(rt: &R, words: &[String], fault: Option<&FileFault>) {
    match (blocks_made(words), fault) {
        (Some(blocks), Some(fault)) if had_its_file(fault) => {
            let path = word(words, 0);
            let bytes = blocks.saturating_mul(BLOCK_SIZE as u64);
            let _ = eprintln!(rt;
                "{MUNGI}: {path}: the volume needs {bytes} bytes; a device with fewer is too small"
            );
        }
        _ => {}
    }
}

/// Says what only the file of a volume shows. It says nothing for `format`, which makes the volume, and for a copy, whose volume is in
/// another file.
fn report_file<R: AllocGlobal + Eprint, D: Disk>(
    rt: &R,
    words: &[String],
    copies: bool,
    disk: &mut D,
    found: Option<Found>,
    is_refused: bool,
)
    ensures { WritesNothing D.Disk disk.old disk.new }
{
    if copies || blocks_made(words).is_some() {
        return;
    }
    report_volume(rt, MUNGI, word(words, 0), disk, found, is_refused);
}

/// The number of blocks of the volume that the words make. None if they make none.
fn blocks_made(words: &[String]) -> Option<u64> {
    if word(words, 1) != "format" {
        return None;
    }
    match read_number(word(words, 2).as_bytes()) {
        Some(frames) if 16 <= frames && frames <= 65_536 => Some(Geometry::of(frames).total),
        _ => None,
    }
}
