// A volume with a second thread. Its rights and those of the first thread have the same seat.
ghost use Rattle.std.specs.Prelude.{◌≡◌, length};

use crate::kernels::ROOT;
use mg_disk::{BLOCK_SIZE, Block, Disk};
use mg_layout::{FIRST_OBJECT_BLOCK, FIRST_THREAD_BLOCK, GLOBALS_BLOCK};
use mg_model::{Frame, ObjRow, Pw, Rights, Slot, ThrRow};
use mg_rows::{Spelled, put_object, read_globals, read_thread, write_globals, write_thread};

/// The base of another object, after the root's one page.
pub(crate) const OTHER: u64 = ROOT + 4096;

/// The password of that object.
pub(crate) const PASSWORD: u64 = 7;

fn block<D: Disk>(disk: &mut D, i: u64) -> Option<Block> {
    let mut block = [0; BLOCK_SIZE];
    if disk.blocks() <= i || disk.read(i, &mut block).is_err() {
        return None;
    }
    Some(block)
}

fn is_written<D: Disk>(disk: &mut D, i: u64, block: &Block) -> bool {
    i < disk.blocks() && disk.write(i, block).is_ok()
}

/// A first frame with this slot.
fn frame_with(slot: Option<&Slot>) -> Frame
    ensures { result.back ≡ 0 }
{
    match slot {
        Some(slot) => {
            let mut frame = Frame::new(0);
            frame.add(*slot);
            frame
        }
        None => Frame::new(0),
    }
}

/// The block of a thread with the first slot of the thread in this block.
fn thread_like(first: &Block) -> Option<Block> {
    match read_thread(first) {
        Some(Spelled::Row(first)) => {
            let row = ThrRow::new(2, 1, 0, frame_with(first.last().slots().first()));
            let mut spelled = [0; BLOCK_SIZE];
            write_thread(Some(&row), &mut spelled);
            Some(spelled)
        }
        _ => None,
    }
}

/// The block of these counters with a second birth.
fn with_birth(counters: &Block) -> Option<Block> {
    let mut globals = read_globals(counters)?;
    globals.set_births(2);
    let mut spelled = [0; BLOCK_SIZE];
    write_globals(&globals, &mut spelled);
    Some(spelled)
}

/// Writes a thread 38 with the first slot of thread 1, and counts its birth. None if the blocks can't be read.
fn is_thread_written<D: Disk>(disk: &mut D) -> Option<bool> {
    let thread = thread_like(&block(disk, FIRST_THREAD_BLOCK)?)?;
    let counters = with_birth(&block(disk, GLOBALS_BLOCK)?)?;
    Some(
        is_written(disk, FIRST_THREAD_BLOCK + 37, &thread)
            && is_written(disk, GLOBALS_BLOCK, &counters),
    )
}

/// Writes the other object into the row after the root's, with its password.
fn is_other_written<D: Disk>(disk: &mut D, mut row: ObjRow) -> Option<bool>
    requires no_password { length row.passwords ≡ 0 }
{
    row.add_password(Pw::new(PASSWORD, Rights::all(), Pw::NEVER));
    let mut spelled = block(disk, FIRST_OBJECT_BLOCK)?;
    put_object(Some(&row), 1, &mut spelled);
    Some(is_written(disk, FIRST_OBJECT_BLOCK, &spelled))
}

/// Writes both on a disk with a fresh volume. False if that fails.
pub(crate) fn are_written<D: Disk>(disk: &mut D, other: ObjRow) -> bool
    requires no_password { length other.passwords ≡ 0 }
{
    is_thread_written(disk) == Some(true) && is_other_written(disk, other) == Some(true)
}
