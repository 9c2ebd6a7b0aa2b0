// The calls on an object, by its base.
ghost use Rattle.std.specs.Prelude.{◌≡◌, ◌≤◌, ◌==◌, true, find, Some};
ghost use Rattle.mg_access.specs.Backing.{StayBacked};
ghost use Rattle.mg_calls_obj.specs.Based.{OfBase, based, is_object};
ghost use Rattle.mg_model.specs.Backed.{by_via};
ghost use Rattle.mg_model.specs.ObjectCalls as calls;
ghost use Rattle.mg_vcache.specs.Drops.{Drops};
ghost use Rattle.mg_volume.specs.Calls.{Acts, CallStages};
ghost use Rattle.mg_volume.specs.Meaning.{objects_in, staged_of};

use crate::altering::{entry_by_row, ext_by_row, recharge_by_row};
use crate::making::delete_by_row;
use crate::passwords::{pwadd_by_row, pwdel_by_row};
use mg_model::{ObjRow, Reply, Right, Rights};
use mg_vcache::VCache;
use mg_volume::Volume;

/// The object with this base goes, and its pages read as zeros, should another object have them. All rights that were found for it
/// or in it end, and the others stay ones that the state gives. Whether a thread has the right is not asked, here as in the calls
/// below: `on_object` asks.
pub fn delete(volume: &mut Volume, cache: &mut VCache, base: u64) -> Reply
    requires there { is_object volume.old base ≡ true }
    requires at_most_30_staged { staged_of volume.old ≤ 30 }
    ensures does { OfBase base volume.old (λ object. CallStages (Acts (λ state t a. calls.delete state t a) Right.D object) 129 volume.old volume.new result) }
    ensures seats { Drops (by_via base) cache.old cache.new result }
    ensures backed { StayBacked volume.old volume.new cache.old cache.new }
{
    let object = object_at(volume, base);
    delete_by_row(volume, cache, object)
}

/// One password more for the object with this base, the next that is drawn, with these rights and this until, or none that it ever
/// ends by. The refusals come in this order: an until that is not above the period, or is `2^24` or above (Past); an object with
/// 32 password rows, or no password left to draw (Limit). No right that was found ends.
pub fn pwadd(volume: &mut Volume, base: u64, rights: Rights, until: Option<u64>) -> Reply
    requires there { is_object volume.old base ≡ true }
    requires at_most_158_staged { staged_of volume.old ≤ 158 }
    ensures { OfBase base volume.old (λ object. CallStages (Acts (λ state t a. calls.pwadd state t a rights until) Right.O object) 2 volume.old volume.new result) }
{
    let object = object_at(volume, base);
    pwadd_by_row(volume, object, rights, until)
}

/// Every password row with this password goes of the object with this base, whether it is current or not, and with them all rights that
/// were found for the object or in it; the others stay ones that the state gives. An object without one is refused (NoPassword).
pub fn pwdel(volume: &mut Volume, cache: &mut VCache, base: u64, password: u64) -> Reply
    requires there { is_object volume.old base ≡ true }
    requires at_most_159_staged { staged_of volume.old ≤ 159 }
    ensures does { OfBase base volume.old (λ object. CallStages (Acts (λ state t a. calls.pwdel state t a password) Right.O object) 1 volume.old volume.new result) }
    ensures seats { Drops (by_via base) cache.old cache.new result }
    ensures backed { StayBacked volume.old volume.new cache.old cache.new }
{
    let object = object_at(volume, base);
    pwdel_by_row(volume, cache, object, password)
}

/// The address `off` bytes after this base of an object is an entry of it, once, however often it is given. The refusals come in
/// this order: an offset that is no multiple of 8, or is at or beyond the object's end (Range); an object with 16 entries, of which
/// this address is none (Limit). No right that was found ends.
pub fn entry(volume: &mut Volume, base: u64, off: u64) -> Reply
    requires there { is_object volume.old base ≡ true }
    requires at_most_159_staged { staged_of volume.old ≤ 159 }
    ensures { OfBase base volume.old (λ object. CallStages (Acts (λ state t a. calls.entry state t a off) Right.O object) 1 volume.old volume.new result) }
{
    let object = object_at(volume, base);
    entry_by_row(volume, object, off)
}

/// The extension of the object with this base is the slot of this list and password, or none if the list is 0. No right that
/// was found ends.
pub fn ext(volume: &mut Volume, base: u64, clist: u64, password: u64) -> Reply
    requires there { is_object volume.old base ≡ true }
    requires at_most_159_staged { staged_of volume.old ≤ 159 }
    ensures { OfBase base volume.old (λ object. CallStages (Acts (λ state t a. calls.ext state t a clist password) Right.O object) 1 volume.old volume.new result) }
{
    let object = object_at(volume, base);
    ext_by_row(volume, object, clist, password)
}

/// Another account pays for the object with this base from now on. The refusals come in this order: no such account, or another
/// password than its own (Account); an account that owes something (Debt). No right that was found ends.
pub fn recharge(volume: &mut Volume, base: u64, account: u64, password: u64) -> Reply
    requires there { is_object volume.old base ≡ true }
    requires at_most_159_staged { staged_of volume.old ≤ 159 }
    ensures { OfBase base volume.old (λ object. CallStages (Acts (λ state t a. calls.recharge state t a account password) Right.O object) 1 volume.old volume.new result) }
{
    let object = object_at(volume, base);
    recharge_by_row(volume, object, account, password)
}

/// The row of the object with this base.
pub(crate) fn object_at(volume: &Volume, base: u64) -> ObjRow
    requires there { is_object volume.now base ≡ true }
    ensures held { based volume.now base ≡ Some result }
    ensures own { find (λ row. row.base == result.base) (objects_in volume.now) ≡ Some result }
    ensures base { result.base ≡ base }
{
    match volume.object(base) {
        Some(object) => object,
        None => unreachable!(),
    }
}
