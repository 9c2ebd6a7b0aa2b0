// A volume that another program may have written: rows and pages at any places, and open segments in the journal.
ghost use Rattle.std.specs.Prelude.{◌≡◌, ◌≤◌, ◌<◌, length};
ghost use Rattle.mg_model.specs.Limits.{never};

use mg_disk::{BLOCK_SIZE, Block, Disk, Left, MemDisk};
use mg_model::{Fault, Frame, ObjRow, Pw, Rights, Slot, ThrRow, ThrState};
use mg_rows::{write_object, write_thread};
use std::alloc::Global;
use std::test::Fail;
use test_helpers::{answers, fresh, outputs_for, write_bytes, write_words};

// Three objects, of 1, 3 and 60 pages. The last page of the third is the last that an object can have.
const LOW: u64 = 0x1_0000_0000;

const MIDDLE: u64 = 0x2_0000_0000;

const HIGH: u64 = 0xf_ffff_fffc_4000;

// Words of blocks, as BLOCK PLACE WORD. All other words are 0.

// The homes of the rows 17 and 4095 of the objects. They spell nothing.
const OBJECTS: &str = "1575 0 7, 2594 0 7";

// An old frame table, in which frame 5 has another page.
const TABLE: &str = "2595 0 0xffffffffc4, 2595 5 0x200000, 2595 63 0x100000";

// Frame 0, the free frame 1, an old frame 5, and the frames 40 and 63.
const FRAMES: &str =
    "2596 0 1, 2596 1 9, 2596 2 0x200000000, 2596 3 0x22, 2596 511 0x77, 2597 0 0xdead, 2597 4 0xdead, 2597 511 0xdead, 2601 3 0x50, 2601 4 0x51, 2636 0 0x40, 2636 511 0x41, 2659 0 2, 2659 2 0x200000000, 2659 3 0x21, 2659 4 0xffffffffc4000, 2659 5 0x31";

// Segment 2: gate, index, and bodies for the block of row 4095, for frame 5 and for the frame table. `write_objects` writes the first
// one.
const SEGMENT_2: &str =
    "326 0 0xa5, 327 0 3, 327 1 2594, 327 2 2601, 327 3 2595, 329 3 0x52, 329 4 0x53, 330 0 0xffffffffc4, 330 5 0x200001, 330 40 0x200000, 330 63 0x100000";

// Segment 4 is closed, and has too many bodies.
const SEGMENT_4: &str = "651 0 161, 651 1 2601";

// Segment 6: gate, index, and bodies for the frame table, for frame 5 twice, and for the block of row 17. One more body follows the
// last.
const SEGMENT_6: &str =
    "974 0 0xa5, 975 0 4, 975 1 2595, 975 2 2601, 975 3 2601, 975 4 1575, 976 0 0xffffffffc4, 976 5 0x200001, 976 40 0x200002, 976 63 0x100000, 977 3 0x61, 977 5 0x62, 978 3 0x66, 980 3 0x67";

// The counters: 9 passwords drawn, period 7, thread 256 ran last, and 12 births.
const COUNTERS: &str = "1298 0 9, 1298 1 7, 1298 2 256, 1298 3 12";

// Three accounts. The second has the largest debt that is possible in period 7.
const ACCOUNTS: &str =
    "1299 0 1, 1299 1 0xa1, 1299 2 600, 1299 8 1, 1299 9 0xa2, 1299 10 300, 1299 11 0x7000000000, 1299 16 1, 1299 17 0xa3, 1299 18 100, 1299 19 1";

fn write_block(disk: &mut MemDisk, i: u64, block: &Block) {
    if i < disk.blocks() {
        let _ = disk.write(i, block);
    }
}

// A password with these rights, or with all rights if `bits` spells none.
fn password(password: u64, bits: u8, until: u64) -> Pw
    requires begins { 1 ≤ until }
    requires ends { until ≤ never }
{
    let rights = match Rights::new(bits) {
        Some(rights) => rights,
        None => Rights::all(),
    };
    Pw::new(password, rights, until)
}

// The second password has ended in period 7.
fn low() -> ObjRow {
    let mut row = ObjRow::new(LOW, 1, 3);
    row.add_password(password(0x11, 1, Pw::NEVER));
    row.add_password(password(0x12, 63, 7));
    row
}

fn middle() -> ObjRow {
    let mut row = ObjRow::new(MIDDLE, 3, 2);
    row.add_password(password(0x21, 3, 8));
    row.add_password(password(0x22, 1, Pw::NEVER));
    row.add_entry(MIDDLE + 8);
    row.set_ext(Some(Slot {
        base: LOW,
        password: 0x11,
    }));
    row
}

fn high() -> ObjRow {
    let mut row = ObjRow::new(HIGH, 60, 1);
    row.add_password(password(0x31, 3, Pw::NEVER));
    row
}

// A block with this row alone, at one of its four places.
fn object_block(place: usize, row: &ObjRow) -> Block
    requires { place < 4 }
{
    let mut block = [0; BLOCK_SIZE];
    let at = 1024 * place;
    write_object(Some(row), &mut block[at..at + 1024]);
    block
}

// Row 2 is in its home, row 17 in the last body of segment 6, and row 4095 in the first body of segment 2.
fn write_objects(disk: &mut MemDisk) {
    write_block(disk, 1571, &object_block(2, &high()));
    write_block(disk, 979, &object_block(1, &low()));
    write_block(disk, 328, &object_block(3, &middle()));
}

// A frame that returns to 0, with one slot.
fn frame(base: u64, password: u64) -> Frame
    ensures bottom { result.back ≡ 0 }
    ensures one { length result.slots ≡ 1 }
{
    let mut frame = Frame::new(0);
    frame.add(Slot { base, password });
    frame
}

// Threads 1, 7 and 256. The last has two frames. Its present frame lacks what the first one has.
fn write_threads(disk: &mut MemDisk) {
    let first = ThrRow::new(1, 0, 0, frame(LOW, 0x11));
    let mut slots = frame(LOW, 0x12);
    slots.add(Slot {
        base: MIDDLE,
        password: 0x22,
    });
    let mut second = ThrRow::new(12, 5, 8, slots);
    second.set_state(ThrState::Faulted(Fault::Opcode));
    let mut third = ThrRow::new(5, 3, 16, frame(LOW, 0x11));
    third.push_frame(frame(HIGH, 0x31));
    third.set_register(7, u64::MAX);
    for (i, row) in [(1315, first), (1321, second), (1570, third)] {
        let mut block = [0; BLOCK_SIZE];
        write_thread(Some(&row), &mut block);
        write_block(disk, i, &block);
    }
}

// Writes these parts into a fresh volume.
fn write_parts(disk: &mut MemDisk) -> bool {
    write_objects(disk);
    write_threads(disk);
    write_words(disk, OBJECTS)
        && write_words(disk, TABLE)
        && write_words(disk, FRAMES)
        && write_words(disk, SEGMENT_2)
        && write_words(disk, SEGMENT_4)
        && write_words(disk, SEGMENT_6)
        && write_words(disk, COUNTERS)
        && write_words(disk, ACCOUNTS)
}

const OK: &str = "0 ok 64 3 64 3 3 7 1000\n";

const DAMAGED: &str = "2 open damaged\n";

// Whether `check` prints this of the volume with these bytes changed.
fn is_checked(alloc: Global, wanted: &str, bytes: &str) -> bool {
    match fresh(alloc) {
        Ok(mut disk) => {
            write_parts(&mut disk)
                && write_bytes(&mut disk, bytes)
                && outputs_for(alloc, "vol check", &mut disk, "", wanted)
        }
        Err(_) => false,
    }
}

// Unchanged, with segment 2 closed, with segment 4 open, and with segment 6 closed.
#[test]
fn open_segments_are_read(rt: HostRuntime) -> Result<(), Fail> {
    let alloc = rt.alloc();
    assert!(rt; is_checked(alloc, OK, ""));
    assert!(rt; is_checked(alloc, DAMAGED, "326 0 0"));
    assert!(rt; is_checked(alloc, DAMAGED, "650 0 0xa5"));
    assert!(rt; is_checked(alloc, DAMAGED, "974 0 0"));
    Ok(())
}

// What each thread can and can't read.
const READS: &str = "1 info 0x200000000
#= ok 0x0000000200000000 3 2 2 1 1
1 info 0x200002fff
#= ok 0x0000000200000000 3 2 2 1 1
1 info 0xfffffffffffff
#= ok 0x000ffffffffc4000 60 1 1 0 0
256 info 0x200000000
#= ok 0x0000000200000000 3 2 2 1 1
1 info 0x100000000
#= no Denied
1 info 0x200003000
#= no Denied
# Words of frames.
1 load 0xffffffffc4000
#= ok 0x0000000000000001
1 load 0xffffffffc4ff8
#= ok 0x0000000000000077
1 load 0x200002000
#= ok 0x0000000000000040
1 load 0x200002ff8
#= ok 0x0000000000000041
# Words of frame 5, as the last body for it has them.
1 load 0x200001018
#= ok 0x0000000000000066
1 load 0x200001020
#= ok 0x0000000000000000
1 load 0x200001028
#= ok 0x0000000000000000
256 load 0x200001018
#= ok 0x0000000000000066
# Words of pages that no frame holds.
1 load 0x200000000
#= ok 0x0000000000000000
1 load 0x200000ff8
#= ok 0x0000000000000000
1 load 0xffffffffffff8
#= ok 0x0000000000000000
# No right, no thread.
1 load 0x100000000
#= no Denied
256 store 0x200001018 1
#= no Denied
256 load 0xffffffffc4000
#= no Denied
7 load 0x200001018
#= no Denied
7 load 0xffffffffc4000
#= no Denied
2 load 0x200001018
#= no NoThread
255 load 0x200001018
#= no NoThread
";

// Stores to pages that no frame holds, and to the page in frame 5. The stores to the second object's first page make it a list.
const STORES: &str = "1 store 0x200000000 1
#= ok
1 store 0x200000010 0xffffffffc4000
#= ok
1 store 0x200000018 0x31
#= ok
1 store 0x200001020 0x99
#= ok
1 store 0xffffffffffff8 0x88
#= ok
7 store 0xffffffffc5008 0x8a
#= ok
";

// What is read after the stores.
const STORED: &str = "1 load 0x200000000
#= ok 0x0000000000000001
1 load 0x200000010
#= ok 0x000ffffffffc4000
1 load 0x200000020
#= ok 0x0000000000000000
1 load 0x200000ff8
#= ok 0x0000000000000000
1 load 0x200001018
#= ok 0x0000000000000066
1 load 0x200001020
#= ok 0x0000000000000099
1 load 0x200002ff8
#= ok 0x0000000000000041
1 load 0xffffffffffff8
#= ok 0x0000000000000088
1 load 0xffffffffc5008
#= ok 0x000000000000008a
7 load 0xffffffffc4ff8
#= ok 0x0000000000000077
7 load 0x200001018
#= no Denied
256 load 0x200001020
#= ok 0x0000000000000099
1 info 0x200000000
#= ok 0x0000000200000000 3 2 2 1 1
";

// Makes a disk what a stop leaves of it. False if out of memory.
fn stop(alloc: Global, disk: &mut MemDisk, left: Left) -> bool {
    match disk.stopped(alloc, left) {
        Ok(stopped) => {
            *disk = stopped;
            true
        }
        Err(_) => false,
    }
}

// Whether a session has its answers. Then a stop follows. False if out of memory.
fn is_session(alloc: Global, disk: &mut MemDisk, line: &str, session: &str) -> bool {
    answers(alloc, line, disk, session) && stop(alloc, disk, Left::Old)
}

// Whether three sessions have their answers, each on what a stop leaves of the one before, and `check` then prints the same.
fn are_sessions(alloc: Global, disk: &mut MemDisk) -> bool {
    write_parts(disk)
        && stop(alloc, disk, Left::New)
        && is_session(alloc, disk, "vol run", READS)
        && is_session(alloc, disk, "vol run 2", STORES)
        && is_session(alloc, disk, "vol run 64", STORED)
        && outputs_for(alloc, "vol check", disk, "", OK)
}

fn are_sessions_of_fresh(alloc: Global) -> bool {
    match fresh(alloc) {
        Ok(mut disk) => are_sessions(alloc, &mut disk),
        Err(_) => false,
    }
}

#[test]
fn lines_on_scattered_rows(rt: HostRuntime) -> Result<(), Fail> {
    assert!(rt; are_sessions_of_fresh(rt.alloc()));
    Ok(())
}
