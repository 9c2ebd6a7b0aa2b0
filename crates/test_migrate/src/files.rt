// Real files. No contract says what these give.
use crate::images::{IN_JOURNAL, MOVED, begins_with, copy, old_volume};
use crate::outcomes::{checks, line_ends};
use mg_disk::{Disk, MemDisk};
use mg_file::{FileDisk, OneHolder};
use std::alloc::{Alloc, Global};
use std::fs;
use std::os::unix::fs::FileExt;
use std::process::Abort;
use std::rt::{Clock, Files};

/// Whether the first disk's blocks could be written to the second.
fn copied<D: Disk>(made: &mut MemDisk, disk: &mut D) -> bool {
    copy(made, disk);
    disk.sync().is_ok() && begins_with(disk, made)
}

/// Whether a volume of version 1 could be written to a file.
fn fills<R: Files + Clock + Abort>(rt: &R, alloc: Global, path: &str) -> bool
where
    R::File: FileExt + OneHolder,
{
    let mut made = old_volume(rt, alloc, IN_JOURNAL, &[]);
    copied(&mut made, &mut FileDisk::new(rt, path))
}

/// Whether a file holds that volume.
fn is_filled<R: Files + Clock + Abort>(rt: &R, alloc: Global, path: &str) -> bool
where
    R::File: FileExt + OneHolder,
{
    let mut made = old_volume(rt, alloc, IN_JOURNAL, &[]);
    begins_with(&mut FileDisk::reader(rt, path), &mut made)
}

/// Whether the migration of this line, from one file to another, has this outcome.
fn migrates_file<R: Files + Clock + Abort>(
    rt: &R,
    alloc: Global,
    line: &str,
    new: &str,
    old: &str,
    expected: (u8, &str),
) -> bool
where
    R::File: FileExt + OneHolder,
{
    let mut old = FileDisk::reader(rt, old);
    line_ends(
        rt,
        alloc,
        line,
        &mut FileDisk::new(rt, new),
        &mut old,
        expected,
    )
}

/// Whether a check of a file shows the volume that was migrated.
fn is_moved<R: Files + Clock + Abort>(rt: &R, alloc: Global, path: &str) -> bool
where
    R::File: FileExt + OneHolder,
{
    checks(rt, alloc, &mut FileDisk::new(rt, path), MOVED)
}

/// Whether a file has this length.
fn is_long<R: Files + Alloc>(rt: &R, path: &str, bytes: usize) -> bool {
    match fs::read(rt, path) {
        Ok(read) => read.len() == bytes,
        Err(_) => false,
    }
}

/// Removes a file. False if there is none.
fn removed(rt: &impl Files, path: &str) -> bool {
    fs::remove_file(rt, path).is_ok()
}

/// Whether there is no such file.
fn is_missing(rt: &impl Files, path: &str) -> bool {
    fs::open(rt, path).is_err()
}

/// The lengths of the files of an old volume and of a new one.
const OLD: usize = 2148 * 4096;

const NEW: usize = 2660 * 4096;

#[test]
fn a_file_is_migrated(rt: HostRuntime) {
    let alloc = rt.alloc();
    let _ = removed(&rt, "old");
    let _ = removed(&rt, "new");
    assert!(rt; fills(&rt, alloc, "old") && is_long(&rt, "old", OLD));
    assert!(rt; migrates_file(&rt, alloc, "new migrate old", "new", "old", MOVED));
    assert!(rt; is_filled(&rt, alloc, "old") && is_long(&rt, "old", OLD));
    assert!(rt; is_moved(&rt, alloc, "new") && is_long(&rt, "new", NEW));
    assert!(rt; removed(&rt, "old") && removed(&rt, "new"));
}

#[test]
fn a_file_that_is_not_there_is_not_made(rt: HostRuntime) {
    let _ = removed(&rt, "missing");
    let _ = removed(&rt, "unmade");
    let line = "unmade migrate missing";
    assert!(rt;
        migrates_file(
            &rt,
            rt.alloc(),
            line,
            "unmade",
            "missing",
            (2, "open not\n")
        )
    );
    assert!(rt; is_missing(&rt, "missing") && is_missing(&rt, "unmade"));
}

// The run holds the file to read it, and can't hold it once more to write it.
#[test]
fn a_file_of_two_names_is_left_alone(rt: HostRuntime) {
    let alloc = rt.alloc();
    let _ = removed(&rt, "both");
    assert!(rt; fills(&rt, alloc, "both") && is_long(&rt, "both", OLD));
    assert!(rt; migrates_file(&rt, alloc, "./both migrate both", "./both", "both", (4, "")));
    assert!(rt; is_filled(&rt, alloc, "both") && is_long(&rt, "both", OLD));
    assert!(rt; removed(&rt, "both"));
}
