// Files: the disks that the commands work on, and what the system says about them.
use crate::notes::{Notes, Task};
use mg_file::{FileDisk, OneHolder};
use std::fs::{self, Metadata};
use std::io::{self, Eprint};
use std::os::unix::fs::{FileExt, MetadataExt, PermissionsExt};
use std::rt::{Clock, Files};

/// The bits of a file's mode that are its permissions.
const PERMISSIONS: u32 = 0o777;

/// The disk in the file at `path`, for a command of this program. If another file is copied to it (not [`Task::Volume`]) and it is made, it
/// gets the permissions of the one at `other`. `is_terminal` says whether standard error is a terminal; only then is it printed how far a
/// copy is.
pub fn disk_in<'a, R: Files + Clock + Eprint>(
    rt: &'a R,
    program: &'static str,
    path: &'a str,
    task: Task,
    other: &str,
    is_terminal: bool,
) -> FileDisk<'a, R, Notes<'a, R>>
where
    R::File: FileExt + OneHolder,
{
    let mut disk = FileDisk::watched(rt, path, Notes::new(rt, program, path, task, is_terminal));
    if task != Task::Volume {
        if let Some(mode) = mode_of(rt, other) {
            disk.set_mode(mode);
        }
    }
    disk
}

// The permissions of the regular file at `path`. None if there is no such file.
fn mode_of<R: Files>(rt: &R, path: &str) -> Option<u32> {
    match fs::metadata(rt, path) {
        Ok(metadata) if metadata.is_file() => Some(metadata.permissions().mode() & PERMISSIONS),
        _ => None,
    }
}

/// Whether both paths lead to one file.
pub fn are_one_file<R: Files>(rt: &R, left: &str, right: &str) -> bool {
    are_same(fs::metadata(rt, left), fs::metadata(rt, right))
}

fn are_same(left: io::Result<Metadata>, right: io::Result<Metadata>) -> bool {
    match (left, right) {
        (Ok(left), Ok(right)) => left.dev() == right.dev() && left.ino() == right.ino(),
        _ => false,
    }
}
