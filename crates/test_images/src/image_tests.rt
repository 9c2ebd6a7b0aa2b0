// What commands print of a fresh volume with one change.
use mg_disk::{BLOCK_SIZE, Disk, MemDisk};
use std::alloc::Global;
use std::test::Fail;
use test_helpers::{BLOCKS, ROOM, fresh, outputs_for, write_bytes};

const OK: &str = "0 ok 64 1 1 1 1 0 1000\n";

const NOT: &str = "2 open not\n";

const OLD: &str = "2 open old\n";

const DAMAGED: &str = "2 open damaged\n";

// Changes that `check` does not show. Each has a name, and bytes as BLOCK OFFSET BYTE.
const CHANGES_OK: &str = "nothing: 
the end of the gate: 0 4095 7
an open segment without bodies: 488 0 0xa5
a body of a closed segment: 490 0 7
a free frame: 2601 0 7
the root's page in frame 9: 2595 2 0, 2595 74 0x10
the root's row is the last: 1571 0 0, 1571 12 0, 1571 16 0, 1571 24 0, 1571 32 0, 1571 80 0, 1571 81 0, 1571 82 0, 1571 83 0, 1571 84 0, 1571 85 0, 1571 86 0, 1571 87 0, 1571 336 0, 1571 499 0, 2594 3072 1, 2594 3084 1, 2594 3088 1, 2594 3096 1, 2594 3104 1, 2594 3152 0x76, 2594 3153 0xb8, 2594 3154 0xe0, 2594 3155 0xad, 2594 3156 0xa0, 2594 3157 0xf1, 2594 3158 0x3d, 2594 3159 0x90, 2594 3408 0x3f, 2594 3571 1";

// Changes that leave no volume.
const CHANGES_NOT: &str = "the gate is closed: 0 0 0
another first letter: 1 0 0x6d";

// Changes that leave an old volume.
const CHANGES_OLD: &str = "version 0: 1 8 0
version 1: 1 8 1";

// Changes that leave a damaged volume.
const CHANGES_DAMAGED: &str = "version 9: 1 8 9
15 frames: 1 16 0xf
2^62 + 1 credits: 1 24 1, 1 25 0, 1 31 0x40
the end of the superblock: 1 200 1
a body of block 0: 2 0 0xa5, 3 0 1
161 bodies: 488 0 0xa5, 489 0 0xa1
a body of block 1297: 488 0 0xa5, 489 0 1, 489 8 0x11, 489 9 5
a body of block 2660: 488 0 0xa5, 489 0 1, 489 8 0x64, 489 9 0xa
one draw: 1298 0 1
period 2^24: 1298 11 1
cursor 257: 1298 16 1, 1298 17 1
account 3 after a free one: 1299 128 1
balance 999: 1299 16 0xe7
a debt in period 0: 1299 24 1
a creator born with its thread: 1315 16 1
17 frames of a thread: 1315 40 0x11
rights 0: 1571 336 0
rights 64: 1571 336 0x40
a base within a page: 1571 8 8
until 0: 1571 499 0
until 2^24 + 1: 1571 496 1
the end of an object's row: 1571 752 1
the end of the frame table: 2595 512 1
a page in two frames: 2595 10 0x10
a page of no object: 2595 8 1, 2595 10 0x10
thread 1 is free: 1315 0 0, 1315 8 0, 1315 32 0, 1315 40 0, 1315 136 0, 1315 148 0, 1315 152 0, 1315 153 0, 1315 154 0, 1315 155 0, 1315 156 0, 1315 157 0, 1315 158 0, 1315 159 0";

// Whether `check` prints this, and `run` too if it is a fault. Neither may write or sync.
fn reports(alloc: Global, disk: &mut MemDisk, wanted: &str) -> bool {
    let before = disk.counts();
    let is_printed = outputs_for(alloc, "vol check", disk, "", wanted)
        && (wanted == OK || outputs_for(alloc, "vol run", disk, "1 store 0x100000020 5\n", wanted));
    let after = disk.counts();
    is_printed && after.writes == before.writes && after.syncs == before.syncs
}

// The same for a fresh volume with these bytes changed.
fn reports_changed(alloc: Global, wanted: &str, bytes: &str) -> bool {
    match fresh(alloc) {
        Ok(mut disk) => write_bytes(&mut disk, bytes) && reports(alloc, &mut disk, wanted),
        Err(_) => false,
    }
}

// The first of these changes, one a line, after which another line is printed.
fn wrong<'a>(alloc: Global, wanted: &str, changes: &'a str) -> Option<&'a str> {
    for change in changes.split('\n') {
        let (_, bytes) = change.split_once(": ").unwrap_or((change, "none"));
        if !reports_changed(alloc, wanted, bytes) {
            return Some(change);
        }
    }
    None
}

#[test]
fn images_with_one_change(rt: HostRuntime) -> Result<(), Fail> {
    assert_eq!(rt; wrong(rt.alloc(), OK, CHANGES_OK), None);
    assert_eq!(rt; wrong(rt.alloc(), NOT, CHANGES_NOT), None);
    assert_eq!(rt; wrong(rt.alloc(), OLD, CHANGES_OLD), None);
    assert_eq!(rt; wrong(rt.alloc(), DAMAGED, CHANGES_DAMAGED), None);
    Ok(())
}

// Copies the first blocks of one disk into another, as many as both have.
fn copy(from: &mut MemDisk, to: &mut MemDisk) {
    let mut bytes = [0; BLOCK_SIZE];
    for i in 0..BLOCKS {
        if i < from.blocks() && i < to.blocks() && from.read(i, &mut bytes).is_ok() {
            let _ = to.write(i, &bytes);
        }
    }
}

// Whether `check` prints this of a disk of `blocks` blocks that begins as another disk does.
fn reports_resized(alloc: Global, from: &mut MemDisk, blocks: u64, wanted: &str) -> bool {
    match MemDisk::new(alloc, blocks, ROOM, Vec::new(alloc)) {
        Ok(mut disk) => {
            copy(from, &mut disk);
            outputs_for(alloc, "vol check", &mut disk, "", wanted)
        }
        Err(_) => false,
    }
}

// Whether `check` prints this of a disk of `blocks` blocks that begins as a fresh volume does.
fn reports_fresh(alloc: Global, blocks: u64, wanted: &str) -> bool {
    match fresh(alloc) {
        Ok(mut from) => reports_resized(alloc, &mut from, blocks, wanted),
        Err(_) => false,
    }
}

// The same for a disk of zeros.
fn reports_zeros(alloc: Global, blocks: u64, wanted: &str) -> bool {
    match MemDisk::new(alloc, blocks, ROOM, Vec::new(alloc)) {
        Ok(mut disk) => outputs_for(alloc, "vol check", &mut disk, "", wanted),
        Err(_) => false,
    }
}

#[test]
fn disks_of_other_sizes(rt: HostRuntime) -> Result<(), Fail> {
    let alloc = rt.alloc();
    assert!(rt; reports_fresh(alloc, 1, NOT));
    assert!(rt; reports_fresh(alloc, BLOCKS - 1, DAMAGED));
    assert!(rt; reports_fresh(alloc, 3000, OK));
    assert!(rt; reports_zeros(alloc, BLOCKS, NOT));
    Ok(())
}
