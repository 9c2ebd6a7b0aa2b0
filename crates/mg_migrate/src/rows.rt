// Rows of objects of version 1, as the rows that they become.
ghost use Rattle.std.specs.Prelude.{◌≡◌, ◌≤◌, ◌<◌, ◌+◌, ◌*◌, ◌++◌, drop, length, replicate};
ghost use Rattle.std.specs.Option.{option_map_or};
ghost use Rattle.mg_migrate.specs.Lifted.{lifted_objects, lifted_row, object1_bytes_in};
ghost use Rattle.mg_migrate.specs.Spelling1.{lift_read, object1_read};
ghost use Rattle.mg_migrate.specs.Widened.{may_widen, untils, widened};
ghost use Rattle.mg_model.specs.Bytes.{are_zeros, bytes_at, number_at};
ghost use Rattle.mg_model.specs.Spelling.{object_bytes};
ghost use Rattle.mg_rows.specs.Answers.{as_read, row_in};

use mg_disk::Block;
use mg_layout::{Filling, are_zeros, number_at};
use mg_model::ObjRow;
use mg_model::limits::NEVER;
use mg_rows::{Spelled, read_object, write_object};

/// The bytes of an object's row of this version.
const ROW: usize = 1024;

/// The bytes of an object's row of version 1: a block has 8.
const ROW1: usize = 512;

/// How many rows of this version a block has.
const ROWS: u64 = 4;

/// How many password rows an object of version 1 may have.
const PASSWORD_LIMIT: u64 = 16;

/// How many entries an object may have.
const ENTRY_LIMIT: u64 = 16;

/// A byte that begins no row.
const NO_ROW: u8 = 255;

/// Spells a block of four objects: of the eight in a block of version 1 the first half (0) or the second (1). A row that
/// spells nothing there spells nothing here.
pub(crate) fn lift_objects(old: &Block, half: u64, out: &mut Block)
    requires { half < 2 }
    ensures { out.new ≡ lifted_objects old.now half }
{
    let first = first_row(half);
    let mut filling = Filling::new();
    filling.add(&lifted_row(old, first));
    filling.add(&lifted_row(old, first + 1));
    filling.add(&lifted_row(old, first + 2));
    filling.add(&lifted_row(old, first + 3));
    *out = filling.whole();
}

// The first row of a half of a block of version 1.
fn first_row(half: u64) -> u64
    requires { half < 2 }
    ensures { result ≡ 4 * half }
{
    ROWS * half
}

// What row k of a block becomes.
fn lifted_row(old: &Block, k: u64) -> [u8; ROW]
    requires { k < 8 }
    ensures value { result ≡ lifted_row (object1_bytes_in old.now k) }
    ensures long { length result ≡ 1024 }
{
    match object1_in(old, k) {
        Some(row) => spelling(row),
        None => [NO_ROW; ROW],
    }
}

// The bytes of this row.
fn spelling(row: Spelled<ObjRow>) -> [u8; ROW]
    ensures value { result ≡ option_map_or (λ row. object_bytes row) (row_in row) (replicate 1024 0) }
    ensures long { length result ≡ 1024 }
{
    let mut bytes = [0; ROW];
    match row {
        Spelled::Row(row) => write_object(Some(&row), &mut bytes),
        Spelled::Free => write_object(None, &mut bytes),
    }
    bytes
}

// What row `k` of a block of version 1 spells of an object. Its passwords never end.
fn object1_in(block: &Block, k: u64) -> Option<Spelled<ObjRow>>
    requires { k < 8 }
    ensures { as_read result ≡ lift_read (object1_read (object1_bytes_in block.now k)) }
{
    let at = ROW1 * k as usize;
    read_row(&block[at..at + ROW1])
}

// What 512 bytes spell of an object.
fn read_row(bytes: &[u8]) -> Option<Spelled<ObjRow>>
    requires { length bytes.now ≡ 512 }
    ensures { as_read result ≡ lift_read (object1_read bytes.now) }
{
    if are_zeros(bytes) {
        return Some(Spelled::Free);
    }
    if may_widen(bytes) {
        read_object(&widened(bytes))
    } else {
        None
    }
}

// Whether the counts are within their limits, and zeros after the columns.
fn may_widen(bytes: &[u8]) -> bool
    requires { length bytes.now ≡ 512 }
    ensures { result ≡ may_widen bytes.now }
{
    number_at(bytes, 32) <= PASSWORD_LIMIT && number_at(bytes, 40) <= ENTRY_LIMIT && ends(bytes)
}

// Whether there are zeros after the columns.
fn ends(bytes: &[u8]) -> bool
    requires { length bytes.now ≡ 512 }
    ensures { result ≡ are_zeros (drop 352 bytes.now) }
{
    are_zeros(&bytes[352..])
}

// The bytes where this version has them.
fn widened(bytes: &[u8]) -> [u8; ROW]
    requires long { length bytes.now ≡ 512 }
    requires at_most_16_entries { number_at bytes.now 32 ≤ 16 }
    ensures value { result ≡ widened bytes.now }
    ensures long { length result ≡ 1024 }
{
    let mut filling = Filling::new();
    add_part(bytes, 0, 80, &mut filling);
    add_part(bytes, 80, 128, &mut filling);
    filling.skip(128);
    add_part(bytes, 208, 16, &mut filling);
    filling.skip(16);
    add_part(bytes, 224, 128, &mut filling);
    add_untils(number_at(bytes, 32), &mut filling);
    filling.whole()
}

// `count` bytes from a place on.
fn add_part(bytes: &[u8], at: usize, count: usize, filling: &mut Filling<ROW>)
    requires within { at + count ≤ length bytes.now }
    requires fits_in_row { length filling.old + count ≤ 1024 }
    ensures value { filling.new ≡ filling.old ++ bytes_at bytes.now at count }
    ensures long { length filling.new ≡ length filling.old + count }
{
    filling.add(&bytes[at..at + count]);
}

// The untils of `count` passwords that never end.
fn add_untils(count: u64, filling: &mut Filling<ROW>)
    requires count_at_most_16 { count ≤ 16 }
    requires fits_in_row { length filling.old + 256 ≤ 1024 }
    ensures value { filling.new ≡ filling.old ++ untils count }
    ensures long { length filling.new ≡ length filling.old + 256 }
{
    for _ in 0..count {
        filling.add_word(NEVER);
    }
    filling.skip(256 - 8 * count as usize);
}
