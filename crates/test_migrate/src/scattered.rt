// A volume of version 1 that another program may have left: rows and pages at any places, and open segments in the journal.
ghost use Rattle.std.specs.Prelude.{◌≡◌, ◌%◌, length};

use crate::images::{BLOCKS, OPEN, Words, old_volume, stopped, zeros};
use crate::outcomes::{is_outcome, migrates, outcome};
use mg_check::{VolumeRows, read_volume};
use mg_disk::{Left, MemDisk};
use mg_model::{AccRow, Fault, Frame, Globals, ObjRow, Pw, Rights, Slot, ThrRow, ThrState};
use std::alloc::Global;
use std::process::Abort;

// Three objects, of 1, 3 and 60 pages. The last page of the third is the last that an object can have.
const LOW: u64 = 0x1_0000_0000;

const MIDDLE: u64 = 0x2_0000_0000;

const HIGH: u64 = 0xf_ffff_fffc_4000;

// Their first pages.
const LOW_PAGE: u64 = 0x10_0000;

const MIDDLE_PAGE: u64 = 0x20_0000;

const HIGH_PAGE: u64 = 0xff_ffff_ffc4;

// The last period.
const LAST: u64 = 0xff_ffff;

// The largest debt of an account in that period.
const DEBT: u64 = 0xfff_fff0_0000_0000;

const IMAGE: &[Words] = &[
    // Counters that are old.
    (1298, &[(0, 4), (1, 3), (3, 1)]),
    // Two accounts.
    (
        1299,
        &[
            (0, 1),
            (1, 0xa1),
            (2, 600),
            (8, 1),
            (9, 0xa2),
            (10, 400),
            (11, DEBT),
        ],
    ),
    // Threads 1 and 256. The second has two frames, and is Faulted by Opcode.
    (
        1315,
        &[(0, 1), (1, 1), (5, 1), (17, 1), (18, LOW), (19, 0x11)],
    ),
    (
        1570,
        &[
            (0, 1),
            (1, 12),
            (2, 5),
            (3, 8),
            (4, 4),
            (5, 2),
            (15, u64::MAX),
            (17, 1),
            (18, LOW),
            (19, 0x11),
            (34, 16),
            (35, 1),
            (36, HIGH),
            (37, 0x31),
        ],
    ),
    // Rows 2 and 5 of the objects. The first has 16 passwords, from 0x21, with rights from 63 down.
    (
        1571,
        &[
            (128, 1),
            (129, MIDDLE),
            (130, 3),
            (131, 2),
            (132, 16),
            (133, 2),
            (134, 1),
            (135, LOW),
            (136, 0x11),
            (138, 0x21),
            (139, 0x22),
            (140, 0x23),
            (141, 0x24),
            (142, 0x25),
            (143, 0x26),
            (144, 0x27),
            (145, 0x28),
            (146, 0x29),
            (147, 0x2a),
            (148, 0x2b),
            (149, 0x2c),
            (150, 0x2d),
            (151, 0x2e),
            (152, 0x2f),
            (153, 0x30),
            (154, 0x3839_3a3b_3c3d_3e3f),
            (155, 0x3031_3233_3435_3637),
            (156, MIDDLE + 0x2ff8),
            (157, MIDDLE + 8),
            (320, 1),
            (321, LOW),
            (322, 1),
            (323, 2),
            (324, 2),
            (330, 0x11),
            (331, 0x12),
            (346, 0x3f01),
        ],
    ),
    // The home of row 4095, which spells nothing.
    (2082, &[(0, 7)]),
    // An old frame table, in which frame 5 has another page.
    (2083, &[(0, HIGH_PAGE), (5, MIDDLE_PAGE), (63, LOW_PAGE)]),
    // Frame 0, the free frame 1, an old frame 5, and the frames 40 and 63.
    (2084, &[(0, 1), (1, 9), (2, MIDDLE), (3, 0x22), (511, 0x77)]),
    (2085, &[(0, 0xdead), (4, 0xdead), (511, 0xdead)]),
    (2089, &[(3, 0x50), (4, 0x51)]),
    (2124, &[(0, 0x40), (511, 0x41)]),
    (
        2147,
        &[(0, 2), (2, MIDDLE), (3, 0x21), (4, HIGH), (5, 0x31)],
    ),
    // Segment 2: gate, index, and bodies for the block of row 4095, for frame 5 and for the frame table.
    (326, &[(0, OPEN)]),
    (327, &[(0, 3), (1, 2082), (2, 2089), (3, 2083)]),
    (
        328,
        &[
            (448, 1),
            (449, HIGH),
            (450, 60),
            (451, 1),
            (452, 1),
            (458, 0x31),
            (474, 3),
        ],
    ),
    (329, &[(3, 0x52), (4, 0x53)]),
    (
        330,
        &[
            (0, HIGH_PAGE),
            (5, MIDDLE_PAGE + 1),
            (40, MIDDLE_PAGE),
            (63, LOW_PAGE),
        ],
    ),
    // Segment 4 is closed, and has too many bodies.
    (651, &[(0, 161), (1, 2089)]),
    // Segment 6: gate, index, and bodies for the frame table, for frame 5 twice, and for the counters.
    (974, &[(0, OPEN)]),
    (975, &[(0, 4), (1, 2083), (2, 2089), (3, 2089), (4, 1298)]),
    (
        976,
        &[
            (0, HIGH_PAGE),
            (5, MIDDLE_PAGE + 1),
            (40, MIDDLE_PAGE + 2),
            (63, LOW_PAGE),
        ],
    ),
    (977, &[(3, 0x61), (5, 0x62)]),
    (978, &[(3, 0x66)]),
    (979, &[(0, 9), (1, LAST), (2, 256), (3, 12)]),
    // A body after the last of segment 6.
    (980, &[(3, 0x67)]),
    // The end of a gate, which is ignored.
    (0, &[(0, OPEN), (511, 7)]),
    // A body of segment 7, which is closed.
    (1138, &[(0, 7)]),
];

// Migrates this volume.
fn move_to(rt: &impl Abort, alloc: Global, new: &mut MemDisk) {
    let mut old = old_volume(rt, alloc, IMAGE, &[]);
    let expected = (0, "ok 64 3 64 2 2 16777215 1000\n");
    assert!(rt; migrates(rt, alloc, new, &mut old, expected));
}

// The disk that it was migrated to, as a stop leaves it.
fn moved(rt: &impl Abort, alloc: Global) -> MemDisk {
    let mut new = zeros(rt, alloc, BLOCKS, &[]);
    move_to(rt, alloc, &mut new);
    stopped(rt, alloc, &new, Left::Old)
}

// Adds a password that never ends.
fn add_password(row: &mut ObjRow, password: u64, bits: u8) {
    if let Some(rights) = Rights::new(bits)
        && row.passwords().len() < 32
    {
        row.add_password(Pw::new(password, rights, Pw::NEVER));
    }
}

fn low() -> ObjRow {
    let mut row = ObjRow::new(LOW, 1, 2);
    add_password(&mut row, 0x11, 1);
    add_password(&mut row, 0x12, 63);
    row
}

fn middle() -> ObjRow {
    let mut row = ObjRow::new(MIDDLE, 3, 2);
    row.add_entry(MIDDLE + 0x2ff8);
    row.add_entry(MIDDLE + 8);
    row.set_ext(Some(Slot {
        base: LOW,
        password: 0x11,
    }));
    for k in 0..16 {
        add_password(&mut row, 0x21 + k as u64, 63 - k);
    }
    row
}

fn high() -> ObjRow {
    let mut row = ObjRow::new(HIGH, 60, 1);
    add_password(&mut row, 0x31, 3);
    row
}

// A frame that returns to `back`, with one slot.
fn frame(back: u64, base: u64, password: u64) -> Frame
    requires { back % 8 ≡ 0 }
    ensures back { result.back ≡ back }
    ensures one { length result.slots ≡ 1 }
{
    let mut frame = Frame::new(back);
    frame.add(Slot { base, password });
    frame
}

fn last_thread() -> ThrRow {
    let mut row = ThrRow::new(12, 5, 8, frame(0, LOW, 0x11));
    row.push_frame(frame(16, HIGH, 0x31));
    row.set_register(7, u64::MAX);
    row.set_state(ThrState::Faulted(Fault::Opcode));
    row
}

fn account(password: u64, balance: u64, owed: u64) -> AccRow {
    AccRow {
        password,
        balance,
        owed,
    }
}

fn table_is_right(table: &[u64]) -> bool {
    let mut wanted = [0; 64];
    wanted[0] = HIGH_PAGE;
    wanted[5] = MIDDLE_PAGE + 1;
    wanted[40] = MIDDLE_PAGE + 2;
    wanted[63] = LOW_PAGE;
    table == wanted.as_slice()
}

fn objects_are_right(objects: &[Option<ObjRow>]) -> bool {
    objects.len() == 4096
        && objects[2] == Some(middle())
        && objects[5] == Some(low())
        && objects[4095] == Some(high())
        && count(objects) == 3
}

fn count(objects: &[Option<ObjRow>]) -> u64 {
    let mut count: u64 = 0;
    for row in objects {
        if row.is_some() {
            count = count.saturating_add(1);
        }
    }
    count
}

fn accounts_are_right(accounts: &[AccRow]) -> bool {
    accounts == [account(0xa1, 600, 0), account(0xa2, 400, DEBT)].as_slice()
}

fn threads_are_right(threads: &[(u64, ThrRow)]) -> bool {
    let first = ThrRow::new(1, 0, 0, frame(0, LOW, 0x11));
    threads == [(0, first), (255, last_thread())].as_slice()
}

fn rows_are_right(rows: &VolumeRows) -> bool {
    objects_are_right(&rows.objects)
        && accounts_are_right(&rows.accounts)
        && threads_are_right(&rows.threads)
        && rows.globals == Globals::new(9, LAST, 256, 12)
        && table_is_right(&rows.table)
}

fn reads(alloc: Global, disk: &mut MemDisk) -> bool {
    match read_volume(alloc, disk) {
        Ok((_, rows)) => rows_are_right(&rows),
        Err(_) => false,
    }
}

// Each row has the place that it had. The rows of objects take twice as many blocks, and a reader finds them at their old places.
#[test]
fn rows_keep_their_places(rt: HostRuntime) {
    assert!(rt; reads(rt.alloc(), &mut moved(&rt, rt.alloc())));
}

// Lines and their replies in the last period. A password that is valid then never ends.
const LINES: &[(&str, &str)] = &[
    ("1 info 0x200000000", "ok 0x0000000200000000 3 2 16 2 1"),
    ("256 info 0x200002fff", "ok 0x0000000200000000 3 2 16 2 1"),
    ("1 info 0xfffffffffffff", "ok 0x000ffffffffc4000 60 1 1 0 0"),
    ("1 info 0x100000000", "no Denied"),
    // Words of frames.
    ("1 load 0xffffffffc4000", "ok 0x0000000000000001"),
    ("1 load 0xffffffffc4ff8", "ok 0x0000000000000077"),
    ("1 load 0x200002000", "ok 0x0000000000000040"),
    ("1 load 0x200002ff8", "ok 0x0000000000000041"),
    // Words of frame 5, as the last body for it has them.
    ("1 load 0x200001018", "ok 0x0000000000000066"),
    ("1 load 0x200001020", "ok 0x0000000000000000"),
    ("1 load 0x200001028", "ok 0x0000000000000000"),
    // The second password of that object gives all rights but one.
    ("256 load 0x200001018", "no Denied"),
    ("256 store 0x200001018 0x68", "ok"),
    ("1 load 0x200001018", "ok 0x0000000000000068"),
    // A page that no frame holds, and then the page in frame 1.
    ("1 load 0x200000000", "ok 0x0000000000000000"),
    ("1 store 0x200000ff8 5", "ok"),
    ("1 load 0x200000ff8", "ok 0x0000000000000005"),
    ("1 load 0x200000000", "ok 0x0000000000000000"),
    ("1 load 0x200000020", "ok 0x0000000000000000"),
    // The seed's tenth password is the next one, and there is room for it.
    ("1 pwadd 0x200000000 R", "ok 0x0d082d737c97ba98"),
    ("1 info 0x200000000", "ok 0x0000000200000000 3 2 17 2 1"),
    ("1 pwdel 0x200000000 0x30", "ok"),
    ("1 pwdel 0x200000000 0x30", "no NoPassword"),
    // Threads, accounts and the calendar.
    ("2 load 0x200001018", "no NoThread"),
    ("256 turn", "no NotReady"),
    ("256 ret", "ok 1"),
    ("256 load 0x200001018", "ok 0x0000000000000068"),
    ("1 balance 1 0xa1", "ok 600 0 60"),
    ("1 balance 2 0xa2", "ok 400 1152921435887370240 4"),
    ("rent", "no Calendar"),
];

// Appends the lines to one text, and the replies to another.
fn append_lines(rt: &impl Abort, input: &mut String, replies: &mut String) {
    for (line, reply) in LINES {
        append_line(rt, input, line);
        append_line(rt, replies, reply);
    }
}

fn append_line(rt: &impl Abort, text: &mut String, line: &str) {
    text.push_str(line).expect(rt, "memory");
    text.push_str("\n").expect(rt, "memory");
}

fn lines_run(rt: &impl Abort, alloc: Global, disk: &mut MemDisk) -> bool {
    let (mut input, mut replies) = (String::new(alloc), String::new(alloc));
    append_lines(rt, &mut input, &mut replies);
    is_outcome(
        &outcome(rt, alloc, "new run", disk, input.as_str()),
        0,
        replies.as_str(),
    )
}

#[test]
fn words_and_passwords_are_there(rt: HostRuntime) {
    assert!(rt; lines_run(&rt, rt.alloc(), &mut moved(&rt, rt.alloc())));
}
