// Rows as bytes: what spells a row, and bytes that spell none.
ghost use Rattle.std.specs.Prelude.{◌≤◌};
ghost use Rattle.mg_model.specs.Limits.{never};

use mg_disk::{BLOCK_SIZE, Block};
use mg_model::{AccRow, Fault, Frame, Globals, ObjRow, Pw, Rights, Slot, ThrRow, ThrState};
use mg_rows::{
    Spelled, account_in, object_in, put_object, read_globals, read_thread, write_account,
    write_globals, write_thread,
};

/// A place of a row, and its byte there.
type Place = (usize, u8);

/// The rows that are tried here, and where they are in a block.
#[derive(Clone, Copy)]
enum Kind {
    /// The last of the accounts of a block.
    Account,
    Globals,
    /// The last of the objects of a block.
    Object,
    Thread,
}

fn first_place(kind: Kind) -> usize
    ensures { result ≤ 4032 }
{
    match kind {
        Kind::Account => 4032,
        Kind::Object => 3072,
        Kind::Globals | Kind::Thread => 0,
    }
}

fn is_read(kind: Kind, block: &Block) -> bool {
    match kind {
        Kind::Account => account_in(block, 63).is_some(),
        Kind::Globals => read_globals(block).is_some(),
        Kind::Object => object_in(block, 3).is_some(),
        Kind::Thread => read_thread(block).is_some(),
    }
}

// How many of these places of a row have another byte.
fn differ(kind: Kind, block: &Block, wanted: &[Place]) -> usize {
    let row = &block[first_place(kind)..];
    let mut others: usize = 0;
    for place in wanted {
        if row.get(place.0) != Some(&place.1) {
            others = others.saturating_add(1);
        }
    }
    others
}

// How many of these bytes, each alone in its place, leave a row that is read.
fn still_read(kind: Kind, block: &Block, changes: &[Place]) -> usize {
    let mut read: usize = 0;
    for change in changes {
        if is_read(kind, &changed(kind, block, change)) {
            read = read.saturating_add(1);
        }
    }
    read
}

fn changed(kind: Kind, block: &Block, change: &Place) -> Block {
    let mut other = *block;
    if let Some(place) = other[first_place(kind)..].get_mut(change.0) {
        *place = change.1;
    }
    other
}

fn password(password: u64, until: u64) -> Pw
    requires begins { 1 ≤ until }
    requires ends { until ≤ never }
{
    Pw::new(password, Rights::all(), until)
}

fn object() -> ObjRow {
    let mut row = ObjRow::new(1 << 32, 1, 2);
    row.add_password(password(5, 9));
    row.add_password(password(6, Pw::NEVER));
    row.add_entry((1 << 32) + 8);
    row.set_ext(Some(Slot {
        base: 4096,
        password: 7,
    }));
    row
}

const OF_OBJECT: [Place; 17] = [
    (0, 1),
    (12, 1),
    (16, 1),
    (24, 2),
    (32, 2),
    (40, 1),
    (48, 1),
    (57, 16),
    (64, 7),
    (80, 5),
    (88, 6),
    (96, 0),
    (337, 63),
    (368, 8),
    (496, 9),
    (507, 1),
    (1023, 0),
];

const NO_OBJECT: [Place; 9] = [
    (8, 8),
    (32, 33),
    (57, 0),
    (336, 0),
    (336, 64),
    (368, 4),
    (496, 0),
    (504, 1),
    (752, 1),
];

/// How many bytes of a row are other ones, how many of its changes are read, and whether all is read back.
type Tried = (usize, usize, bool);

// Whether the object, no object and bytes that spell none are read as what they are.
fn objects_are_read(block: &Block) -> bool {
    object_in(block, 3) == Some(Spelled::Row(object()))
        && object_in(block, 1) == Some(Spelled::Free)
        && object_in(block, 2).is_none()
}

fn an_object() -> Tried {
    let mut block = [9; BLOCK_SIZE];
    put_object(None, 1, &mut block);
    put_object(Some(&object()), 3, &mut block);
    (
        differ(Kind::Object, &block, &OF_OBJECT),
        still_read(Kind::Object, &block, &NO_OBJECT),
        objects_are_read(&block),
    )
}

fn thread() -> ThrRow {
    let mut row = ThrRow::new(3, 1, 8, Frame::new(0));
    let mut frame = Frame::new(16);
    let slot = Slot {
        base: 3,
        password: 9,
    };
    frame.add(slot);
    frame.add(slot);
    row.push_frame(frame);
    row.set_register(7, 5);
    row.set_state(ThrState::Faulted(Fault::Denied));
    row
}

const OF_THREAD: [Place; 12] = [
    (0, 1),
    (8, 3),
    (16, 1),
    (24, 8),
    (32, 3),
    (40, 2),
    (120, 5),
    (272, 16),
    (280, 2),
    (304, 3),
    (312, 9),
    (320, 0),
];

const NO_THREAD: [Place; 9] = [
    (0, 2),
    (16, 3),
    (24, 9),
    (32, 5),
    (40, 0),
    (40, 17),
    (144, 1),
    (272, 17),
    (4095, 1),
];

// Whether no thread is read as none.
fn none_is_read() -> bool {
    let mut block: Block = [7; BLOCK_SIZE];
    write_thread(None, &mut block);
    read_thread(&block) == Some(Spelled::Free)
}

fn a_thread() -> Tried {
    let mut block: Block = [7; BLOCK_SIZE];
    write_thread(Some(&thread()), &mut block);
    let is_read = read_thread(&block) == Some(Spelled::Row(thread()));
    (
        differ(Kind::Thread, &block, &OF_THREAD),
        still_read(Kind::Thread, &block, &NO_THREAD),
        is_read && none_is_read(),
    )
}

const OF_ACCOUNT: [Place; 5] = [(0, 1), (8, 2), (9, 1), (16, 7), (25, 1)];

const NO_ACCOUNT: [Place; 2] = [(0, 2), (63, 1)];

const ACCOUNT: AccRow = AccRow {
    password: 0x0102,
    balance: 7,
    owed: 256,
};

// Whether the account, no account and bytes that spell none are read as what they are.
fn accounts_are_read(block: &Block) -> bool {
    account_in(block, 63) == Some(Spelled::Row(ACCOUNT))
        && account_in(block, 1) == Some(Spelled::Free)
        && account_in(block, 2).is_none()
}

fn an_account() -> Tried {
    let mut block = [0; BLOCK_SIZE];
    write_account(Some(&ACCOUNT), &mut block[4032..]);
    block[64 * 2] = 9;
    (
        differ(Kind::Account, &block, &OF_ACCOUNT),
        still_read(Kind::Account, &block, &NO_ACCOUNT),
        accounts_are_read(&block),
    )
}

const OF_GLOBALS: [Place; 5] = [(0, 2), (8, 3), (16, 0), (17, 1), (24, 1)];

const NO_GLOBALS: [Place; 5] = [(0, 1), (11, 1), (18, 1), (24, 0), (4095, 1)];

fn the_globals() -> Tried {
    let globals = Globals::new(2, 3, 256, 1);
    let mut block: Block = [7; BLOCK_SIZE];
    write_globals(&globals, &mut block);
    (
        differ(Kind::Globals, &block, &OF_GLOBALS),
        still_read(Kind::Globals, &block, &NO_GLOBALS),
        read_globals(&block) == Some(globals),
    )
}

#[test]
fn rows_are_spelled(rt: HostRuntime) {
    let tried = [an_object(), a_thread(), an_account(), the_globals()];
    assert_eq!(rt; tried, [(0, 0, true); 4]);
}
