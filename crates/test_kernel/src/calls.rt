// Calls by their own names, without a search for a right: on the root by its base, and to make and pick a thread.
ghost use Rattle.std.specs.Prelude.{◌≡◌, ◌≤◌, true};
ghost use Rattle.mg_calls_obj.specs.Based.{is_object};
ghost use Rattle.mg_volume.specs.Meaning.{staged_of};
ghost use Rattle.test_kernel.specs.Fresh.{IsFresh};

use crate::staging::fresh;
use mg_calls_obj::{delete, entry, ext, info, pwadd, pwdel, recharge};
use mg_calls_thr::{make, pick};
use mg_model::limits::ROOT_BASE as ROOT;
use mg_model::{Call, Refusal, Reply, Rights};
use mg_vcache::VCache;
use mg_volume::Volume;
use std::alloc::Global;

// Passwords of the key stream for the key 0, which RFC 8439 prints in its appendix A.1. The second is the treasury's, and the third is
// drawn next.
const TREASURY: u64 = 0x28bd_8653_e56a_5d40;

const DRAWN: u64 = 0x1aed_8da0_b819_d2bd;

fn call_root(volume: &mut Volume, cache: &mut VCache, call: &Call) -> Option<Reply>
    requires there { is_object volume.old 0x100000000 ≡ true }
    requires at_most_30_staged { staged_of volume.old ≤ 30 }
{
    match *call {
        Call::Info { .. } => Some(info(volume, ROOT)),
        Call::Delete { .. } => Some(delete(volume, cache, ROOT)),
        Call::Pwadd { rights, until, .. } => Some(pwadd(volume, ROOT, rights, until)),
        Call::Pwdel { password, .. } => Some(pwdel(volume, cache, ROOT, password)),
        Call::Entry { off, .. } => Some(entry(volume, ROOT, off)),
        Call::Ext {
            clist,
            password,
            ..
        } => Some(ext(volume, ROOT, clist, password)),
        Call::Recharge {
            account,
            password,
            ..
        } => { Some(recharge(volume, ROOT, account, password)) }
        _ => None,
    }
}

/// The reply to a call on the root. None if the root is gone or more than 30 blocks are staged.
fn answered(volume: &mut Volume, cache: &mut VCache, call: &Call) -> Option<Reply> {
    if volume.staged() > 30 {
        return None;
    }
    match volume.object(ROOT) {
        Some(_) => call_root(volume, cache, call),
        None => None,
    }
}

fn is_about(volume: &mut Volume, cache: &mut VCache, entries: u64, ext: u64) -> bool {
    let about = Reply::About {
        base: ROOT,
        pages: 1,
        account: 1,
        passwords: 1,
        entries,
        ext,
    };
    answered(volume, cache, &Call::Info { base: ROOT }) == Some(about)
}

fn is_added(volume: &mut Volume, cache: &mut VCache, until: Option<u64>, reply: Reply) -> bool {
    let call = Call::Pwadd {
        base: ROOT,
        rights: Rights::all(),
        until,
    };
    answered(volume, cache, &call) == Some(reply)
}

fn is_taken(volume: &mut Volume, cache: &mut VCache, password: u64, reply: Reply) -> bool {
    let base = ROOT;
    answered(volume, cache, &Call::Pwdel { base, password }) == Some(reply)
}

fn is_entered(volume: &mut Volume, cache: &mut VCache, off: u64, reply: Reply) -> bool {
    let base = ROOT;
    answered(volume, cache, &Call::Entry { base, off }) == Some(reply)
}

fn is_paid(volume: &mut Volume, cache: &mut VCache, account: u64, reply: Reply) -> bool {
    let call = Call::Recharge {
        base: ROOT,
        account,
        password: TREASURY,
    };
    answered(volume, cache, &call) == Some(reply)
}

fn is_extended(volume: &mut Volume, cache: &mut VCache) -> bool {
    let call = Call::Ext {
        base: ROOT,
        clist: ROOT,
        password: 5,
    };
    answered(volume, cache, &call) == Some(Reply::Done)
}

fn is_gone(volume: &mut Volume, cache: &mut VCache) -> bool {
    answered(volume, cache, &Call::Delete { base: ROOT }) == Some(Reply::Done)
        && volume.object(ROOT).is_none()
}

/// Whether each call on the root of a fresh volume has its reply.
fn are_answered(volume: &mut Volume, cache: &mut VCache) -> bool {
    is_about(volume, cache, 0, 0)
        && is_added(volume, cache, Some(0), Reply::No(Refusal::Past))
        && is_added(volume, cache, None, Reply::Value(DRAWN))
        && is_taken(volume, cache, DRAWN, Reply::Done)
        && is_taken(volume, cache, DRAWN, Reply::No(Refusal::NoPassword))
        && is_entered(volume, cache, 8, Reply::Value(ROOT + 8))
        && is_entered(volume, cache, 4096, Reply::No(Refusal::Range))
        && is_extended(volume, cache)
        && is_paid(volume, cache, 2, Reply::No(Refusal::Account))
        && is_paid(volume, cache, 1, Reply::Done)
        && is_about(volume, cache, 1, 1)
        && is_gone(volume, cache)
}

/// Whether a thread is made on a fresh volume and is then the next to run. Thread 1 is stopped.
fn is_begun(volume: &mut Volume) -> bool
    requires { IsFresh volume.old }
{
    pick(volume).is_none() && make(volume, 1, ROOT) == Reply::Count(2) && pick(volume) == Some(2)
}

fn are_right(alloc: Global, volume: &mut Volume) -> bool
    requires { IsFresh volume.old }
{
    match VCache::new(alloc) {
        Ok(mut cache) => is_begun(volume) && are_answered(volume, &mut cache),
        Err(_) => false,
    }
}

fn are_right_on_fresh(alloc: Global) -> bool {
    match fresh(alloc) {
        Some(mut volume) => are_right(alloc, &mut volume),
        None => false,
    }
}

#[test]
fn calls_are_answered_by_name(rt: HostRuntime) {
    assert!(rt; are_right_on_fresh(rt.alloc()));
}
