// The parts of an object's row, read one after the other.
ghost use Rattle.std.specs.Prelude.{◌≡◌, ◌<◌, ◌&&◌, [], length, not, true};
ghost use Rattle.mg_model.specs.Abbreviations.{extension_at};
ghost use Rattle.mg_model.specs.ObjectCalls.{is_entry};
ghost use Rattle.mg_model.specs.Spelling.{object_fields};
ghost use Rattle.mg_model.specs.Tests.{is_entry_of, is_object_row, is_password, is_place};
ghost use Rattle.mg_rows.specs.ObjectParts.{are_entries, are_passwords, entries_in, is_extension, is_placed, password_at, passwords_in, placed_row, some_if};

use mg_layout::number_at;
use mg_model::limits::{FIRST_PAGE, OBJECT_PAGE_LIMIT, PAGE_END, PAGE_SIZE};
use mg_model::{ObjRow, Pw, Rights, Slot};

/// How many password rows and how many entries an object may have.
const PASSWORD_LIMIT: u64 = 32;

const ENTRY_LIMIT: u64 = 16;

/// The fields of an object's 1,024 bytes, if they keep their rules.
pub(crate) fn fields(bytes: &[u8]) -> Option<ObjRow>
    requires { length bytes.now ≡ 1024 }
    ensures { result ≡ some_if (is_object_row (object_fields bytes.now)) (object_fields bytes.now) }
{
    let mut row = placed(bytes)?;
    if !read_passwords(&mut row, bytes) {
        return None;
    }
    if !read_entries(&mut row, bytes) {
        return None;
    }
    if !read_extension(&mut row, bytes) {
        return None;
    }
    Some(row)
}

// Its place, and the account that pays for it.
fn placed(bytes: &[u8]) -> Option<ObjRow>
    requires { length bytes.now ≡ 1024 }
    ensures { result ≡ some_if (is_placed (placed_row bytes.now)) (placed_row bytes.now) }
{
    let base = number_at(bytes, 8);
    let pages = number_at(bytes, 16);
    let account = number_at(bytes, 24);
    if is_place(base, pages) && account >= 1 && account <= 1024 {
        Some(ObjRow::new(base, pages, account))
    } else {
        None
    }
}

fn is_place(base: u64, pages: u64) -> bool
    ensures { result ≡ is_place base pages }
{
    base % PAGE_SIZE == 0
        && base / PAGE_SIZE >= FIRST_PAGE
        && pages >= 1
        && pages <= OBJECT_PAGE_LIMIT
        && base / PAGE_SIZE + pages <= PAGE_END
}

// Its password rows, if these keep their rule.
fn read_passwords(row: &mut ObjRow, bytes: &[u8]) -> bool
    requires long { length bytes.now ≡ 1024 }
    requires bare { row.old.passwords ≡ [] }
    ensures kept { result ≡ are_passwords (passwords_in bytes.now) }
    ensures row { result ≡ true → row.new ≡ record row.old { passwords = passwords_in bytes.now } }
{
    let count = number_at(bytes, 32);
    if count > PASSWORD_LIMIT {
        return false;
    }
    for k in 0..count as usize {
        match password_at(bytes, k) {
            Some(pw) => row.add_password(pw),
            None => return false,
        }
    }
    true
}

// The password row at this place.
fn password_at(bytes: &[u8], k: usize) -> Option<Pw>
    requires long { length bytes.now ≡ 1024 }
    requires within { k < 32 }
    ensures { result ≡ some_if (is_password (password_at bytes.now k)) (password_at bytes.now k) }
{
    let until = number_at(bytes, 496 + 8 * k);
    if until < 1 || until > Pw::NEVER {
        return None;
    }
    match Rights::new(bytes[336 + k]) {
        Some(rights) => Some(Pw::new(number_at(bytes, 80 + 8 * k), rights, until)),
        None => None,
    }
}

// Its entries, if these keep their rules.
fn read_entries(row: &mut ObjRow, bytes: &[u8]) -> bool
    requires long { length bytes.now ≡ 1024 }
    requires bare { row.old.entries ≡ [] }
    ensures kept { result ≡ are_entries row.old.base row.old.pages (entries_in bytes.now) }
    ensures row { result ≡ true → row.new ≡ record row.old { entries = entries_in bytes.now } }
{
    let count = number_at(bytes, 40);
    if count > ENTRY_LIMIT {
        return false;
    }
    for k in 0..count as usize {
        let address = number_at(bytes, 368 + 8 * k);
        if !may_be_entry(row, address) {
            return false;
        }
        row.add_entry(address);
    }
    true
}

// Whether this address may be added as one entry more.
fn may_be_entry(row: &ObjRow, address: u64) -> bool
    ensures { result ≡ (is_entry_of row.now.base row.now.pages address && not (is_entry row.now address)) }
{
    address % 8 == 0 && row.covers(address) && !row.is_entry(address)
}

// Its extension, if that keeps its rule.
fn read_extension(row: &mut ObjRow, bytes: &[u8]) -> bool
    requires { length bytes.now ≡ 1024 }
    ensures kept { result ≡ is_extension (extension_at bytes.now) }
    ensures row { result ≡ true → row.new ≡ record row.old { extension = extension_at bytes.now } }
{
    let ext = extension_at(bytes);
    if !is_extension(ext) {
        return false;
    }
    row.set_ext(ext);
    true
}

fn extension_at(bytes: &[u8]) -> Option<Slot>
    requires { length bytes.now ≡ 1024 }
    ensures { result ≡ extension_at bytes.now }
{
    if number_at(bytes, 48) == 1 {
        Some(Slot {
            base: number_at(bytes, 56),
            password: number_at(bytes, 64),
        })
    } else {
        None
    }
}

fn is_extension(ext: Option<Slot>) -> bool
    ensures { result ≡ is_extension ext }
{
    match ext {
        Some(slot) => slot.base != 0,
        None => true,
    }
}
