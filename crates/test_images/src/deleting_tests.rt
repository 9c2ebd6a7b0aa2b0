// One line deletes the largest object after a store to each of its pages. No batch is larger.
use crate::tape::Tape;
use mg_disk::{BLOCK_SIZE, Block, Disk, Left};
use mg_layout::{FIRST_OBJECT_BLOCK, TABLE_BLOCK};
use mg_model::{ObjRow, Pw, Rights};
use mg_rows::put_object;
use std::alloc::Global;
use std::test::Fail;
use test_helpers::{output_for, outputs_for};

/// The words for a volume of 65,536 frames, the most there can be. Their table has 128 blocks.
const FORMAT: &str =
    "vol format 65536 0000000000000000000000000000000000000000000000000000000000000000 1000";

/// The base of the object, right after the root, and its first page.
const BASE: u64 = 0x1_0000_1000;

const PAGE: u64 = 0x10_0001;

/// The number of its pages. Page j is in frame 64 j + 1, so each block of the table has 8 of them.
const PAGES: u64 = 1024;

/// Stores the object's base and its password, 7, as the root's second entry.
const LISTED: &str =
    "1 store 0x100000020 0x100001000\n1 store 0x100000028 7\n1 store 0x100000000 2\n";

const DELETED: &str = "1 delete 0x100001000\n";

/// The lines after a stop: on the object, its first and its last page, and then on as many pages of a new object.
const LINES: &str =
    "1 info 0x100001000\n1 load 0x100001000\n1 load 0x100400000\n1 create 1024 1 0x28bd8653e56a5d40\n1 store 0x100000028 0x1aed8da0b819d2bd\n1 load 0x100001000\n1 load 0x100400000\n";

/// The output if the object is whole.
const WHOLE: &str =
    "0 ok 0x0000000100001000 1024 1 1 0 0\nok 0x0000000000000001\nok 0x0000000000000400\nok 0x0000000100401000 0x1aed8da0b819d2bd\nok\nno Denied\nno Denied\n";

/// The output if the object is gone: its pages are free again, and read as zeros.
const GONE: &str =
    "0 no Denied\nno Denied\nno Denied\nok 0x0000000100001000 0x1aed8da0b819d2bd\nok\nok 0x0000000000000000\nok 0x0000000000000000\n";

fn block<D: Disk>(disk: &mut D, i: u64) -> Block {
    let mut block = [0; BLOCK_SIZE];
    if i < disk.blocks() {
        let _ = disk.read(i, &mut block);
    }
    block
}

fn write_block<D: Disk>(disk: &mut D, i: u64, block: &Block) {
    if i < disk.blocks() {
        let _ = disk.write(i, block);
    }
}

/// Stores a number as the word with this place in a block.
fn write_word<D: Disk>(disk: &mut D, i: u64, word: u64, number: u64) {
    let mut bytes = block(disk, i);
    for (k, byte) in number.to_le_bytes().into_iter().enumerate() {
        let at = (word as usize % 512 * 8).saturating_add(k);
        if let Some(place) = bytes.get_mut(at) {
            *place = byte;
        }
    }
    write_block(disk, i, &bytes);
}

/// Writes the object's row after the root's.
fn write_row<D: Disk>(disk: &mut D) {
    let mut row = ObjRow::new(BASE, PAGES, 1);
    row.add_password(Pw::new(7, Rights::all(), Pw::NEVER));
    let mut bytes = block(disk, FIRST_OBJECT_BLOCK);
    put_object(Some(&row), 1, &mut bytes);
    write_block(disk, FIRST_OBJECT_BLOCK, &bytes);
}

/// Writes each page into its frame. Its first word is its number, from 1.
fn write_pages<D: Disk>(disk: &mut D) {
    for j in 0..PAGES {
        let frame = 64 * j + 1;
        write_word(disk, TABLE_BLOCK + frame / 512, frame, PAGE + j);
        write_word(disk, TABLE_BLOCK + 128 + frame, 0, j + 1);
    }
}

/// Makes a volume with the object, which the root reaches. False if a line has another answer.
fn make(alloc: Global, disk: &mut Tape) -> bool {
    let is_made = output_for(alloc, FORMAT, disk, "").is_ok();
    write_row(disk);
    write_pages(disk);
    // The second opening writes home what these lines left in the journal.
    is_made
        && outputs_for(alloc, "vol run", disk, LISTED, "0 ok\nok\nok\n")
        && outputs_for(alloc, "vol run", disk, "", "0 ")
        && disk.mark()
}

/// What a stop after `steps` steps leaves: 0 if the object is whole, 1 if it is gone, and else 2.
fn kind_left(alloc: Global, disk: &mut Tape, steps: usize, left: Left) -> usize {
    disk.stop(steps, left);
    match output_for(alloc, "vol run", disk, LINES) {
        Ok(found) if found.as_str() == WHOLE => 0,
        Ok(found) if found.as_str() == GONE => 1,
        _ => 2,
    }
}

/// The number of images of each kind that the stops after these numbers of steps leave.
fn count_images(alloc: Global, disk: &mut Tape, from: usize, to: usize) -> [u64; 3] {
    let mut counts = [0_u64; 3];
    for steps in from..to {
        for left in [Left::Old, Left::New, Left::Gates] {
            if let Some(count) = counts.get_mut(kind_left(alloc, disk, steps, left)) {
                *count = count.wrapping_add(1);
            }
        }
    }
    counts
}

/// What a stop before the deletion leaves, whether the deletion is answered, its writes and syncs, and what stops after its first and
/// its last steps leave.
type Observed = ([u64; 3], bool, (usize, usize), [[u64; 3]; 2]);

fn observe(alloc: Global, disk: &mut Tape) -> Observed {
    let before = count_images(alloc, disk, 0, 1);
    disk.stop(0, Left::Old);
    let is_answered = disk.mark() && outputs_for(alloc, "vol run", disk, DELETED, "0 ok\n");
    let counts = disk.counts();
    let first = count_images(alloc, disk, 1, 22);
    let last = count_images(alloc, disk, 114, 135);
    (before, is_answered, counts, [first, last])
}

fn observe_deletion(alloc: Global) -> Option<Observed> {
    match Tape::new(alloc) {
        Ok(mut disk) => {
            if make(alloc, &mut disk) {
                Some(observe(alloc, &mut disk))
            } else {
                None
            }
        }
        Err(_) => None,
    }
}

// An opening syncs once. The commit of 129 blocks writes an index and 129 bodies, syncs, opens a gate, and syncs again: 133 calls after
// the first one. The object is whole until the gate is open, and then it is gone. Until the sync a stop may leave the gate closed.
#[test]
fn the_largest_object_is_deleted(rt: HostRuntime) -> Result<(), Fail> {
    let wanted = ([3, 0, 0], true, (131, 3), [[63, 0, 0], [58, 5, 0]]);
    assert_eq!(rt; observe_deletion(rt.alloc()), Some(wanted));
    Ok(())
}
