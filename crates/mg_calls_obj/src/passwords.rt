// Passwords are added to an object, and taken away.
ghost use Rattle.std.specs.Prelude.{◌≡◌, ◌≤◌, ◌<◌, ◌==◌, ◌||◌, ◌++◌, ◌∷◌, [], nat_le, find, length, Some};
ghost use Rattle.mg_calls_obj.specs.Based.{KeepsOthers};
ghost use Rattle.mg_vcache.specs.Drops.{Drops};
ghost use Rattle.mg_model.specs.Backed.{by_via};
ghost use Rattle.mg_model.specs.Limits.{draw_limit, never, password_limit};
ghost use Rattle.mg_model.specs.ObjectCalls as calls;
ghost use Rattle.mg_model.specs.Ranges.{IsObjectRow};
ghost use Rattle.mg_volume.specs.Calls.{Acts, CallStages};
ghost use Rattle.mg_volume.specs.Meaning.{objects_in, staged_of};

use mg_laws::objects_end_their_own_seats;
use mg_model::limits::{DRAW_LIMIT, PASSWORD_LIMIT};
use mg_model::{Globals, ObjRow, Pw, Refusal, Reply, Right, Rights};
use mg_passwords::{add, remove};
use mg_vcache::VCache;
use mg_volume::Volume;

/// One password more for an object, the next that is drawn, with these rights and this until, or none that it ever ends by.
/// The refusals come in this order: an until that is not above the period, or is `2^24` or above (Past); an object with 32
/// password rows, or no password left to draw (Limit). No right that was found ends.
pub(crate) fn pwadd_by_row(
    volume: &mut Volume,
    object: ObjRow,
    rights: Rights,
    until: Option<u64>,
) -> Reply
    requires held { find (λ row. row.base == object.base) (objects_in volume.old) ≡ Some object }
    requires at_most_158_staged { staged_of volume.old ≤ 158 }
    ensures { CallStages (Acts (λ state t a. calls.pwadd state t a rights until) Right.O object) 2 volume.old volume.new result }
{
    let globals = volume.globals();
    if is_past(globals.period(), until) {
        return Reply::No(Refusal::Past);
    }
    if is_full(&object, &globals) {
        return Reply::No(Refusal::Limit);
    }
    let password = volume.next_password();
    let row = with_password(object, password, rights, until.unwrap_or(Pw::NEVER));
    volume.change(row);
    Reply::Value(password)
}

/// Every password row of an object with this password goes, whether it is current or not, and with them all rights that were found
/// for the object or in it. An object without one is refused (NoPassword).
pub(crate) fn pwdel_by_row(
    volume: &mut Volume,
    cache: &mut VCache,
    object: ObjRow,
    password: u64,
) -> Reply
    requires held { find (λ row. row.base == object.base) (objects_in volume.old) ≡ Some object }
    requires at_most_159_staged { staged_of volume.old ≤ 159 }
    ensures does { CallStages (Acts (λ state t a. calls.pwdel state t a password) Right.O object) 1 volume.old volume.new result }
    ensures seats { Drops (by_via object.base) cache.old cache.new result }
    ensures others { KeepsOthers object.base volume.old volume.new }
{
    objects_end_their_own_seats();
    let mut row = object;
    match remove(&mut row, password) {
        Ok(()) => {
            volume.change(row);
            cache.drop_via(object.base());
            Reply::Done
        }
        Err(word) => Reply::No(word),
    }
}

// Whether an until is given that is not above the period, or is above the last that may be given.
fn is_past(period: u64, until: Option<u64>) -> bool
    ensures { result ≡ calls.is_past period until }
{
    match until {
        Some(until) => until <= period || until >= Pw::NEVER,
        None => false,
    }
}

// Whether an object may have no more passwords, or none is left.
fn is_full(object: &ObjRow, globals: &Globals) -> bool
    ensures { result ≡ (nat_le password_limit (length object.now.passwords) || nat_le draw_limit globals.now.draws) }
{
    object.passwords().len() >= PASSWORD_LIMIT || globals.draws() >= DRAW_LIMIT
}

// The object with one password row more.
fn with_password(object: ObjRow, password: u64, rights: Rights, until: u64) -> ObjRow
    requires fewer_than_32_passwords { length object.passwords < 32 }
    requires begins { 1 ≤ until }
    requires ends { until ≤ never }
    ensures { result ≡ record object { passwords = object.passwords ++ record { password = password; rights = rights; until = until } ∷ [] } }
{
    let mut row = object;
    // There is room.
    let _ = add(&mut row, Pw::new(password, rights, until));
    row
}
