// A volume in a real file.
use mg_file::{FileDisk, OneHolder};
use std::fs;
use std::os::unix::fs::FileExt;
use std::rt::{Clock, Files};
use std::test::Fail;
use test_helpers::{MAKING, outputs_for};

const MADE: &str = "0 ok 0x0000000100000000 0x903df1a0ade0b876 0x28bd8653e56a5d40\n";

// Parts of the file, each with its place: the gate, the first fields of the superblock, the root's page in the frame table, and the
// page itself.
const PARTS: [(usize, &[u8]); 5] = [
    (0, b"\xa5\0\0\0\0\0\0\0"),
    (4096, b"MUNGIVOL\x02\0\0\0\0\0\0\0\x40\0\0\0\0\0\0\0"),
    (10_629_120, b"\0\0\x10\0\0\0\0\0\0"),
    (
        10_633_216,
        b"\x01\0\0\0\0\0\0\0\0\0\0\0\0\0\0\0\0\0\0\0\x01\0\0\0",
    ),
    (10_633_240, b"\x76\xb8\xe0\xad\xa0\xf1\x3d\x90\0"),
];

// Whether a volume is made in this file.
fn is_made<R: Files + Clock + AllocGlobal>(rt: &R, path: &str) -> bool
where
    R::File: FileExt + OneHolder,
{
    let mut disk = FileDisk::new(rt, path);
    outputs_for(rt.alloc(), MAKING, &mut disk, "", MADE)
}

// The place of the first of these parts that the bytes do not have.
fn wrong(bytes: &[u8], parts: &[(usize, &[u8])]) -> Option<usize> {
    for (place, part) in parts {
        match bytes.get(*place..) {
            Some(there) if there.starts_with(part) => (),
            _ => return Some(*place),
        }
    }
    None
}

// The length of the file, and the place of the first part that differs.
fn found<R: Files + Clock + AllocGlobal>(rt: &R, path: &str) -> Option<(usize, Option<usize>)> {
    match fs::read(rt, path) {
        Ok(bytes) => Some((bytes.len(), wrong(&bytes, &PARTS))),
        Err(_) => None,
    }
}

#[test]
fn a_file_becomes_a_fresh_volume(rt: HostRuntime) -> Result<(), Fail> {
    let _ = fs::remove_file(&rt, "fresh");
    let is_made = is_made(&rt, "fresh");
    let found = found(&rt, "fresh");
    let _ = fs::remove_file(&rt, "fresh");
    assert_eq!(rt; (is_made, found), (true, Some((10_637_312, None))));
    Ok(())
}
