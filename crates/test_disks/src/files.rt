// A disk in a real file, of which no contract can say what it gives.
ghost use Rattle.std.specs.Prelude.{◌≡◌, ◌+◌, ◌≤◌};

use crate::calls::{byte_of, synced, wrote};
use mg_disk::{BLOCK_SIZE, Block, Disk};
use mg_file::{FileDisk, FileFault, Found};
use std::alloc::Global;
use std::fs;
use std::os::unix::fs::PermissionsExt;
use std::rt::Files;

/// Whether a file was there, and is no more.
fn removed(rt: &impl Files, path: &str) -> bool {
    fs::remove_file(rt, path).is_ok()
}

fn wrote_and_synced<D: Disk>(disk: &mut D) -> bool
    requires { D.block_count disk.old ≡ 70000 }
{
    wrote(disk, 2, 7) && synced(disk)
}

/// Whether block 2 is what was written, and three more are zeros.
fn holds_one<D: Disk>(disk: &mut D) -> bool
    requires { D.block_count disk.old ≡ 70000 }
{
    byte_of(disk, 0) == Some(0)
        && byte_of(disk, 2) == Some(7)
        && byte_of(disk, 3) == Some(0)
        && byte_of(disk, 69_999) == Some(0)
}

#[test]
fn a_file_keeps_what_was_synced(rt: HostRuntime) {
    let _ = removed(&rt, "volume");
    assert!(rt; wrote_and_synced(&mut FileDisk::new(&rt, "volume")));
    assert!(rt; holds_one(&mut FileDisk::new(&rt, "volume")));
    assert!(rt; removed(&rt, "volume"));
}

const SEVENS: Block = [7; BLOCK_SIZE];

const NINES: Block = [9; BLOCK_SIZE];

const ZEROS: Block = [0; BLOCK_SIZE];

/// Whether three blocks could be written from this one on.
fn wrote_run<D: Disk>(disk: &mut D, first: u64) -> bool
    requires { first + 3 ≤ D.block_count disk.old }
    ensures { D.block_count disk.new ≡ D.block_count disk.old }
{
    let run = [SEVENS, [8; BLOCK_SIZE], NINES];
    disk.write_blocks(first, &run).is_ok()
}

/// Whether the first five blocks, read together, are those of a run from block 1 on with a block of fives in it.
fn holds_run<D: Disk>(disk: &mut D) -> bool
    requires { D.block_count disk.old ≡ 70000 }
    ensures { D.block_count disk.new ≡ 70000 }
{
    let mut run = [[1; BLOCK_SIZE]; 5];
    disk.read_blocks(0, &mut run).is_ok() && run == [ZEROS, SEVENS, [5; BLOCK_SIZE], NINES, ZEROS]
}

fn runs_follow<D: Disk>(disk: &mut D) -> bool
    requires { D.block_count disk.old ≡ 70000 }
{
    wrote_run(disk, 69_997)
        && wrote_run(disk, 1)
        && wrote(disk, 2, 5)
        && holds_run(disk)
        && byte_of(disk, 69_999) == Some(9)
}

#[test]
fn blocks_of_a_file_follow_one_another(rt: HostRuntime) {
    let _ = removed(&rt, "blocks");
    assert!(rt; runs_follow(&mut FileDisk::new(&rt, "blocks")));
    assert!(rt; removed(&rt, "blocks"));
}

/// Whether three blocks, read together, are a block of nines, 100 bytes more of them, and zeros after, and can't be written.
fn ends<D: Disk>(disk: &mut D) -> bool
    requires { D.block_count disk.old ≡ 70000 }
{
    let mut run = [[1; BLOCK_SIZE]; 3];
    let mut second = ZEROS;
    second[..100].fill(9);
    disk.read_blocks(0, &mut run).is_ok()
        && run == [NINES, second, ZEROS]
        && disk.write_blocks(0, &run).is_err()
}

#[test]
fn a_file_that_ends_among_blocks_reads_as_zeros_behind(rt: HostRuntime) {
    assert!(rt; fs::write(&rt, "short", [9; BLOCK_SIZE + 100]).is_ok());
    assert!(rt; ends(&mut FileDisk::reader(&rt, "short")));
    assert!(rt; removed(&rt, "short"));
}

/// Whether a read, a write and a sync all fail.
fn each_fails<D: Disk>(disk: &mut D) -> bool
    requires { D.block_count disk.old ≡ 70000 }
    ensures { D.block_count disk.new ≡ 70000 }
{
    let mut block: Block = ZEROS;
    disk.read(0, &mut block).is_err() && !wrote(disk, 0, 9) && !synced(disk)
}

/// Whether the first disk is written, and each call of the second then fails.
fn keeps_out<D: Disk>(first: &mut D, second: &mut D) -> bool
    requires first { D.block_count first.old ≡ 70000 }
    requires second { D.block_count second.old ≡ 70000 }
{
    wrote(first, 0, 7) && each_fails(second)
}

#[test]
fn a_file_that_another_run_holds_fails_at_each_call(rt: HostRuntime) {
    let _ = removed(&rt, "held");
    let mut first = FileDisk::new(&rt, "held");
    let mut second = FileDisk::new(&rt, "held");
    assert!(rt; keeps_out(&mut first, &mut second));
    assert!(rt;
        says(
            rt.alloc(),
            second.fault(),
            "another run holds it, and has for 0.3 s"
        )
    );
    drop(first);
    assert!(rt; byte_of(&mut second, 0) == Some(7));
    assert!(rt; removed(&rt, "held"));
}

#[test]
fn a_folder_fails_at_each_call(rt: HostRuntime) {
    let mut disk = FileDisk::new(&rt, ".");
    assert!(rt; each_fails(&mut disk));
    assert!(rt; says(rt.alloc(), disk.fault(), "Is a directory"));
}

/// Whether there is a fault, and its text begins so.
fn says(alloc: Global, fault: Option<&FileFault>, text: &str) -> bool {
    match fault {
        Some(fault) => begins(format!(in alloc; "{fault}"), text),
        None => false,
    }
}

fn begins<E: Drop>(told: Result<String, E>, text: &str) -> bool {
    match told {
        Ok(told) => told.as_str().starts_with(text),
        Err(_) => false,
    }
}

#[test]
fn a_file_that_is_only_read_is_not_made(rt: HostRuntime) {
    let _ = removed(&rt, "none");
    let mut disk = FileDisk::reader(&rt, "none");
    assert!(rt; byte_of(&mut disk, 3) == Some(0));
    assert!(rt; disk.end() == Some(3) && disk.fault().is_none());
    assert!(rt; !wrote(&mut disk, 0, 9) && !synced(&mut disk));
    assert!(rt; !removed(&rt, "none"));
}

/// Whether both read the sevens of block 0, and each call of the third fails meanwhile.
fn share<D: Disk>(first: &mut D, second: &mut D, third: &mut D) -> bool
    requires first { D.block_count first.old ≡ 70000 }
    requires second { D.block_count second.old ≡ 70000 }
    requires third { D.block_count third.old ≡ 70000 }
{
    byte_of(first, 0) == Some(7) && byte_of(second, 0) == Some(7) && each_fails(third)
}

#[test]
fn readers_share_a_file(rt: HostRuntime) {
    let _ = removed(&rt, "shared");
    assert!(rt; wrote(&mut FileDisk::new(&rt, "shared"), 0, 7));
    let mut first = FileDisk::reader(&rt, "shared");
    let mut second = FileDisk::reader(&rt, "shared");
    let mut third = FileDisk::new(&rt, "shared");
    assert!(rt; share(&mut first, &mut second, &mut third));
    assert!(rt; removed(&rt, "shared"));
}

/// Whether a file that was opened was made then.
fn is_new(found: Option<Found>) -> bool {
    found.is_some_and(|found| found.is_new)
}

/// How many bytes a file had that was opened and not made then.
fn bytes_found(found: Option<Found>) -> Option<u64> {
    match found {
        Some(found) if !found.is_new => found.bytes,
        _ => None,
    }
}

/// How many bytes a file has.
fn length_of(rt: &impl Files, path: &str) -> Option<u64> {
    match fs::metadata(rt, path) {
        Ok(metadata) => Some(metadata.len()),
        Err(_) => None,
    }
}

/// The permissions of a file.
fn mode_of(rt: &impl Files, path: &str) -> Option<u32> {
    match fs::metadata(rt, path) {
        Ok(metadata) => Some(metadata.permissions().mode() & 0o777),
        Err(_) => None,
    }
}

#[test]
fn a_file_that_is_made_is_new_and_has_the_length_that_was_set(rt: HostRuntime) {
    let _ = removed(&rt, "long");
    let mut disk = FileDisk::new(&rt, "long");
    disk.set_length(20);
    assert!(rt; disk.found().is_none());
    assert!(rt; byte_of(&mut disk, 19) == Some(0));
    assert!(rt; is_new(disk.found()));
    assert!(rt; disk.end().is_none());
    assert!(rt; length_of(&rt, "long") == Some(81_920));
    assert!(rt; mode_of(&rt, "long") == Some(0o600));
    assert!(rt; removed(&rt, "long"));
}

#[test]
fn a_file_that_is_made_has_the_mode_that_was_set(rt: HostRuntime) {
    let _ = removed(&rt, "mode");
    let mut disk = FileDisk::new(&rt, "mode");
    disk.set_mode(0o700);
    assert!(rt; byte_of(&mut disk, 0) == Some(0));
    assert!(rt; mode_of(&rt, "mode") == Some(0o700));
    assert!(rt; removed(&rt, "mode"));
}

#[test]
fn a_file_that_is_there_has_its_bytes_and_is_made_no_shorter(rt: HostRuntime) {
    assert!(rt; fs::write(&rt, "there", [9; BLOCK_SIZE + 100]).is_ok());
    let mut disk = FileDisk::new(&rt, "there");
    disk.set_length(1);
    assert!(rt; byte_of(&mut disk, 0) == Some(9));
    assert!(rt; bytes_found(disk.found()) == Some(4_196));
    assert!(rt; wrote(&mut disk, 2, 7));
    assert!(rt; bytes_found(disk.found()) == Some(4_196));
    drop(disk);
    let mut reader = FileDisk::reader(&rt, "there");
    assert!(rt; byte_of(&mut reader, 2) == Some(7));
    assert!(rt; bytes_found(reader.found()) == Some(12_288));
    assert!(rt; removed(&rt, "there"));
}
