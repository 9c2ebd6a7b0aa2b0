// The calls on an object, after one search for the right to it.
ghost use Rattle.std.specs.Prelude.{List, ◌≡◌, ◌≤◌, ◌==◌, ℕ, true, find, Some};
ghost use Rattle.std.specs.Option.{ForSome};
ghost use Rattle.mg_access.specs.Served.{CallServes, of_call};
ghost use Rattle.mg_calls_obj.specs.Door.{ActsBy, EndsBy, asked, is_on_object, named};
ghost use Rattle.mg_vcache.specs.Seats.{AllBacked};
ghost use Rattle.mg_volume.specs.Calls.{CallStages, IsSoundOn};
ghost use Rattle.mg_volume.specs.Meaning.{now_of, objects_in, staged_of};

use crate::altering::{entry_by_row, ext_by_row, recharge_by_row};
use crate::making::delete_by_row;
use crate::passwords::{pwadd_by_row, pwdel_by_row};
use mg_access::reach;
use mg_disk::Disk;
use mg_faults::Failed;
use mg_laws::{accesses_keep_the_rules_of_a_line, steps_keep_backing};
use mg_model::{Call, ObjRow, Refusal, Reply, Right, Steps};
use mg_vcache::VCache;
use mg_volume::Volume;
use std::sync::ledger::Ledger;

/// A call on the object that an address names: `delete`, `pwadd`, `pwdel`, `entry`, `ext` or `recharge`. A thread that may not
/// reach it with the right that the call needs is refused (Denied), also if no such thread lives, before all else. [`Failed`]
/// comes only if a call of the disk failed, and the state then stays, as after a refusal.
pub fn on_object<D: Disk, L: Ledger>(
    volume: &mut Volume,
    cache: &mut VCache,
    disk: &mut D,
    thread: u64,
    call: &Call,
    steps: &mut Steps<L>,
) -> Result<Reply, Failed>
    requires sound { IsSoundOn D.Disk volume.old disk.old }
    requires at_most_28_staged { staged_of volume.old ≤ 28 }
    requires backed { ForSome (D.seen disk.old) (λ image. AllBacked (now_of volume.old image) cache.old) }
    requires on { is_on_object call.now ≡ true }
    ensures { CallServes 129 D.Disk (of_call thread call.now) result volume.old volume.new cache.old cache.new disk.old disk.new steps.old steps.new }
{
    steps_keep_backing();
    accesses_keep_the_rules_of_a_line();
    let place = wanted(call);
    match reach(volume, cache, disk, thread, place.0, place.1, steps)? {
        Some(object) => Ok(act(volume, cache, object, call)),
        None => Ok(Reply::No(Refusal::Denied)),
    }
}

// The address that a call names, and the right that it needs there.
fn wanted(call: &Call) -> (u64, Right)
    requires { is_on_object call.now ≡ true }
    ensures { result ≡ (named call.now, asked call.now) }
{
    match *call {
        Call::Delete { base } => (base, Right::D),
        Call::Pwadd { base, .. }
        | Call::Pwdel { base, .. }
        | Call::Entry { base, .. }
        | Call::Ext { base, .. }
        | Call::Recharge { base, .. } => (base, Right::O),
        _ => unreachable!(),
    }
}

// The call, of a thread that has the right.
fn act(volume: &mut Volume, cache: &mut VCache, object: ObjRow, call: &Call) -> Reply
    requires on { is_on_object call.now ≡ true }
    requires held { find (λ row. row.base == object.base) (objects_in volume.old) ≡ Some object }
    requires at_most_28_staged { staged_of volume.old ≤ 28 }
    ensures does { CallStages (ActsBy call.now object) 129 volume.old volume.new result }
    ensures seats { EndsBy call.now object cache.old cache.new result }
{
    match *call {
        Call::Delete { .. } => delete_by_row(volume, cache, object),
        Call::Pwadd { rights, until, .. } => pwadd_by_row(volume, object, rights, until),
        Call::Pwdel { password, .. } => pwdel_by_row(volume, cache, object, password),
        Call::Entry { off, .. } => entry_by_row(volume, object, off),
        Call::Ext {
            clist,
            password,
            ..
        } => ext_by_row(volume, object, clist, password),
        Call::Recharge {
            account,
            password,
            ..
        } => recharge_by_row(volume, object, account, password),
        _ => unreachable!(),
    }
}
