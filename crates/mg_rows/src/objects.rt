// The rows of objects.
ghost use Rattle.std.specs.Prelude.{◌≡◌, ◌≤◌, ◌+◌, ◌*◌, ◌++◌, ◌∷◌, [], replicate, length, map, Some, None};
ghost use Rattle.std.specs.Option.{option_map_or};
ghost use Rattle.mg_model.specs.Bytes.{padded_to, words_bytes};
ghost use Rattle.mg_model.specs.Ranges.{IsObjectRow};
ghost use Rattle.mg_model.specs.Abbreviations.{object_head};
ghost use Rattle.mg_model.specs.Spelling.{object_bytes, object_read};
ghost use Rattle.mg_model.specs.Words.{same_bytes};
ghost use Rattle.mg_rows.specs.Answers.{as_read, extension_words};

use crate::bytes::copy_to;
use crate::object_parts::fields;
use crate::spelled::Spelled;
use mg_layout::{Filling, are_zeros};
use mg_model::layout::OBJECT_SIZE;
use mg_model::{ObjRow, Pw, Slot};

/// Spells an object, or a free row, in 1,024 bytes. It is read back.
pub fn write_object(row: Option<&ObjRow>, out: &mut [u8])
    requires { length out.old ≡ 1024 }
    ensures spelled { out.new ≡ option_map_or (λ row. object_bytes row.now) row.entry (replicate 1024 0) }
    ensures read_back { object_read out.new ≡ Some (option_map_or (λ row. Some row.now) row.entry None) }
{
    match row {
        Some(row) => copy_to(&spelling(row), out),
        None => copy_to(&[0; OBJECT_SIZE], out),
    }
}

/// What 1,024 bytes spell of an object: nothing if a field breaks its rule, or if the row is not spelled so.
pub fn read_object(bytes: &[u8]) -> Option<Spelled<ObjRow>>
    requires { length bytes.now ≡ 1024 }
    ensures { as_read result ≡ object_read bytes.now }
{
    if are_zeros(bytes) {
        return Some(Spelled::Free);
    }
    match fields(bytes) {
        Some(row) => {
            if is_spelling(&row, bytes) {
                Some(Spelled::Row(row))
            } else {
                None
            }
        }
        None => None,
    }
}

// Whether an object's row has these bytes.
fn is_spelling(row: &ObjRow, bytes: &[u8]) -> bool
    ensures { result ≡ same_bytes (object_bytes row.now) bytes.now }
{
    spelling(row)[..] == bytes[..]
}

// The bytes of this object.
fn spelling(row: &ObjRow) -> [u8; OBJECT_SIZE]
    ensures spelled { result ≡ object_bytes row.now }
    ensures read_back { object_read result ≡ Some (Some row.now) }
{
    let mut filling = Filling::new();
    add_head(row, &mut filling);
    add_passwords(row.passwords(), &mut filling);
    add_rights(row.passwords(), &mut filling);
    add_entries(row.entries(), &mut filling);
    add_untils(row.passwords(), &mut filling);
    filling.whole()
}

// What an object's row begins with.
fn add_head(row: &ObjRow, filling: &mut Filling<OBJECT_SIZE>)
    requires { filling.old ≡ [] }
    ensures spelled { filling.new ≡ padded_to 80 (object_head row.now) }
    ensures long { length filling.new ≡ 80 }
    ensures kept { IsObjectRow row.now }
{
    filling.add_words(&[
        1,
        row.base(),
        row.pages(),
        row.account(),
        row.passwords().len() as u64,
        row.entries().len() as u64,
    ]);
    filling.add_words(&extension_words(row.ext()));
    filling.skip(8);
}

fn extension_words(ext: Option<Slot>) -> [u64; 3]
    ensures { result ≡ extension_words ext }
{
    match ext {
        Some(slot) => [1, slot.base, slot.password],
        None => [0, 0, 0],
    }
}

fn add_passwords(passwords: &[Pw], filling: &mut Filling<OBJECT_SIZE>)
    requires at_most_32_passwords { length passwords.now ≤ 32 }
    requires fits_in_row { length filling.old + 256 ≤ 1024 }
    ensures value { filling.new ≡ filling.old ++ padded_to 256 (words_bytes (map (λ pw. pw.password) passwords.now)) }
    ensures long { length filling.new ≡ length filling.old + 256 }
{
    for pw in passwords {
        filling.add_word(pw.password());
    }
    filling.skip(256 - 8 * passwords.len());
}

fn add_rights(passwords: &[Pw], filling: &mut Filling<OBJECT_SIZE>)
    requires at_most_32_passwords { length passwords.now ≤ 32 }
    requires fits_in_row { length filling.old + 32 ≤ 1024 }
    ensures value { filling.new ≡ filling.old ++ padded_to 32 (map (λ pw. pw.rights) passwords.now) }
    ensures long { length filling.new ≡ length filling.old + 32 }
{
    for pw in passwords {
        filling.add_byte(pw.rights().bits());
    }
    filling.skip(32 - passwords.len());
}

fn add_entries(entries: &[u64], filling: &mut Filling<OBJECT_SIZE>)
    requires at_most_16_entries { length entries.now ≤ 16 }
    requires fits_in_row { length filling.old + 128 ≤ 1024 }
    ensures value { filling.new ≡ filling.old ++ padded_to 128 (words_bytes entries.now) }
    ensures long { length filling.new ≡ length filling.old + 128 }
{
    filling.add_words(entries);
    filling.skip(128 - 8 * entries.len());
}

fn add_untils(passwords: &[Pw], filling: &mut Filling<OBJECT_SIZE>)
    requires at_most_32_passwords { length passwords.now ≤ 32 }
    requires fits_in_row { length filling.old + 256 ≤ 1024 }
    ensures value { filling.new ≡ filling.old ++ padded_to 256 (words_bytes (map (λ pw. pw.until) passwords.now)) }
    ensures long { length filling.new ≡ length filling.old + 256 }
{
    for pw in passwords {
        filling.add_word(pw.until());
    }
    filling.skip(256 - 8 * passwords.len());
}
