// Calls of a thread that need no right.
ghost use Rattle.std.specs.Prelude.{◌≡◌, ◌≤◌, true};
ghost use Rattle.mg_kernel.specs.Unasked.{EndsUnasked, asks_nothing};
ghost use Rattle.mg_model.specs.Turn.{thread_call};
ghost use Rattle.mg_volume.specs.Calls.{Answers, CallStages};
ghost use Rattle.mg_volume.specs.Meaning.{staged_of};
ghost use Rattle.mg_volume.specs.Staging.{lives};

use mg_calls_bank::{account, balance, pay};
use mg_calls_dom::{apdadd, apddel, apdlist, ret};
use mg_calls_obj::create;
use mg_calls_thr::{end, resume};
use mg_model::{Call, Reply};
use mg_vcache::VCache;
use mg_volume::Volume;

/// What such a call is answered, of a thread that lives.
pub(crate) fn unasked(volume: &mut Volume, cache: &mut VCache, thread: u64, call: &Call) -> Reply
    requires asks { asks_nothing call.now ≡ true }
    requires lives { lives volume.old thread ≡ true }
    requires at_most_28_staged { staged_of volume.old ≤ 28 }
    ensures does { CallStages (Answers (λ state. thread_call state thread call.now)) 3 volume.old volume.new result }
    ensures seats { EndsUnasked thread call.now cache.old cache.new result }
{
    match *call {
        Call::Create {
            pages,
            account,
            password,
        } => create(volume, pages, account, password),
        Call::Apdadd { clist, password } => apdadd(volume, cache, thread, clist, password),
        Call::Apddel { index } => apddel(volume, cache, thread, index),
        Call::Apdlist => apdlist(volume, thread),
        Call::Ret => ret(volume, cache, thread),
        Call::End { thread: ended } => end(volume, cache, thread, ended),
        Call::Resume { thread: resumed } => resume(volume, thread, resumed),
        Call::Account {
            account: payer,
            password,
            amount,
        } => account(volume, payer, password, amount),
        Call::Pay {
            account: payer,
            password,
            to,
            amount,
        } => pay(volume, payer, password, to, amount),
        Call::Balance {
            account: payer,
            password,
        } => balance(volume, payer, password),
        _ => unreachable!(),
    }
}
