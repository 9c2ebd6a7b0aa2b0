// An object gets an entry, another extension, or another account.
ghost use Rattle.std.specs.Prelude.{◌≡◌, ◌≢◌, ◌≤◌, ◌+◌, ◌==◌, ℕ, false, find, IfSome, MatchOption, Some};
ghost use Rattle.mg_calls_obj.specs.Altering.{is_crowded, is_outside, paying_refusal};
ghost use Rattle.mg_model.specs.ObjectCalls as calls;
ghost use Rattle.mg_model.specs.Ranges.{IsEntryOf};
ghost use Rattle.mg_volume.specs.Calls.{Acts, CallStages};
ghost use Rattle.mg_volume.specs.Meaning.{objects_in, staged_of};

use mg_model::limits::{ENTRY_POINT_LIMIT, PAGE_SIZE};
use mg_model::{ObjRow, Refusal, Reply, Right, Slot};
use mg_volume::Volume;

/// The address `off` bytes after an object's base is an entry of it, once, however often it is given. The refusals come in
/// this order: an offset that is no multiple of 8, or is at or beyond the object's end (Range); an object with 16 entries, of
/// which this address is none (Limit). No right that was found ends.
pub(crate) fn entry_by_row(volume: &mut Volume, object: ObjRow, off: u64) -> Reply
    requires held { find (λ row. row.base == object.base) (objects_in volume.old) ≡ Some object }
    requires at_most_159_staged { staged_of volume.old ≤ 159 }
    ensures { CallStages (Acts (λ state t a. calls.entry state t a off) Right.O object) 1 volume.old volume.new result }
{
    if is_outside(&object, off) {
        return Reply::No(Refusal::Range);
    }
    let address = address_at(&object, off);
    if is_crowded(&object, address) {
        return Reply::No(Refusal::Limit);
    }
    let row = with_entry(object, address);
    volume.change(row);
    Reply::Value(address)
}

/// The object's extension is the slot of this list and password, or none if the list is 0. No right that was found ends.
pub(crate) fn ext_by_row(volume: &mut Volume, object: ObjRow, clist: u64, password: u64) -> Reply
    requires held { find (λ row. row.base == object.base) (objects_in volume.old) ≡ Some object }
    requires at_most_159_staged { staged_of volume.old ≤ 159 }
    ensures { CallStages (Acts (λ state t a. calls.ext state t a clist password) Right.O object) 1 volume.old volume.new result }
{
    let mut row = object;
    row.set_ext(extension(clist, password));
    volume.change(row);
    Reply::Done
}

/// Another account pays for the object from now on. The refusals come in this order: no such account, or another password
/// than its own (Account); an account that owes something (Debt). No right that was found ends.
pub(crate) fn recharge_by_row(
    volume: &mut Volume,
    object: ObjRow,
    account: u64,
    password: u64,
) -> Reply
    requires held { find (λ row. row.base == object.base) (objects_in volume.old) ≡ Some object }
    requires at_most_159_staged { staged_of volume.old ≤ 159 }
    ensures { CallStages (Acts (λ state t a. calls.recharge state t a account password) Right.O object) 1 volume.old volume.new result }
{
    match paying_refusal(volume, account, password) {
        Some(word) => Reply::No(word),
        None => {
            let mut row = object;
            row.set_account(account);
            volume.change(row);
            Reply::Done
        }
    }
}

// Whether an offset is that of no word of the object.
fn is_outside(object: &ObjRow, off: u64) -> bool
    ensures { result ≡ is_outside object.now off }
{
    off % 8 != 0 || off >= PAGE_SIZE * object.pages
}

// The address of the word at an offset.
fn address_at(object: &ObjRow, off: u64) -> u64
    requires { is_outside object.now off ≡ false }
    ensures value { result ≡ object.now.base + off }
    ensures place { IsEntryOf object.now.base object.now.pages result }
{
    object.base() + off
}

// Whether an object may have no more entries, and an address is none of those that it has.
fn is_crowded(object: &ObjRow, address: u64) -> bool
    ensures { result ≡ is_crowded object.now address }
{
    object.entries().len() >= ENTRY_POINT_LIMIT && !object.is_entry(address)
}

// The object with an entry more, unless it is there.
fn with_entry(object: ObjRow, address: u64) -> ObjRow
    requires place { IsEntryOf object.base object.pages address }
    requires not_crowded { is_crowded object address ≡ false }
    ensures { result ≡ calls.with_entry object address }
{
    let mut row = object;
    if !row.is_entry(address) {
        row.add_entry(address);
    }
    row
}

// The extension that a list and a password make.
fn extension(clist: u64, password: u64) -> Option<Slot>
    ensures slot { result ≡ calls.extension_of clist password }
    ensures base_not_0 { IfSome result (λ slot. slot.base ≢ 0) }
{
    if clist == 0 {
        return None;
    }
    Some(Slot {
        base: clist,
        password,
    })
}

// Why an account may not pay for an object, or, if it may, that it is one of the table.
fn paying_refusal(volume: &Volume, account: u64, password: u64) -> Option<Refusal>
    ensures word { result ≡ paying_refusal volume.now account password }
    ensures payer { MatchOption result ((1 ≤ account) × (account ≤ 1024)) (λ _. Unit {0}) }
{
    let bank = volume.bank();
    if !bank.opens(account, password) {
        return Some(Refusal::Account);
    }
    if bank.owed_by(account) > 0 {
        return Some(Refusal::Debt);
    }
    None
}
