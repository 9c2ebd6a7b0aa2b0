// What a line is answered: the first refusals in their order, or the answer of the call.
ghost use Rattle.std.specs.Prelude.{List, ◌≡◌, ◌≤◌, ℕ, true, false};
ghost use Rattle.std.specs.Option.{ForSome};
ghost use Rattle.mg_access.specs.Served.{CallServes, of_line};
ghost use Rattle.mg_kernel.specs.Calls.{of_living};
ghost use Rattle.mg_vcache.specs.Seats.{AllBacked};
ghost use Rattle.mg_volume.specs.Calls.{IsSoundOn};
ghost use Rattle.mg_volume.specs.Meaning.{now_of, staged_of};
ghost use Rattle.mg_volume.specs.Staging.{lives};

use crate::renting::collect;
use crate::turning::{next, turn};
use crate::unasked::unasked;
use mg_calls_dom::{load, pdx, store};
use mg_calls_obj::{on_object, validated_info};
use mg_calls_thr::validated_make;
use mg_disk::Disk;
use mg_faults::Failed;
use mg_laws::steps_keep_backing;
use mg_model::{Call, Line, Refusal, Reply, Steps};
use mg_vcache::VCache;
use mg_volume::Volume;
use std::sync::ledger::Ledger;

/// What a line is answered. [`Failed`] comes only if a call of the disk failed, and the state then stays.
pub(crate) fn answer<D: Disk, L: Ledger>(
    volume: &mut Volume,
    cache: &mut VCache,
    disk: &mut D,
    line: &Line,
    steps: &mut Steps<L>,
) -> Result<Reply, Failed>
    requires sound { IsSoundOn D.Disk volume.old disk.old }
    requires at_most_28_staged { staged_of volume.old ≤ 28 }
    requires backed { ForSome (D.seen disk.old) (λ image. AllBacked (now_of volume.old image) cache.old) }
    ensures { CallServes 132 D.Disk (of_line line.now) result volume.old volume.new cache.old cache.new disk.old disk.new steps.old steps.new }
{
    steps_keep_backing();
    match line.call {
        Call::Bad => Ok(Reply::No(Refusal::Syntax)),
        Call::Turn => turn(volume, cache, disk, line.thread, steps),
        Call::Next => next(volume, cache, disk, steps),
        Call::Rent => Ok(collect(volume, cache)),
        _ => match volume.thread_ref(line.thread) {
            Some(_) => dispatch(volume, cache, disk, line.thread, &line.call, steps),
            None => Ok(Reply::No(Refusal::NoThread)),
        },
    }
}

/// The call, of a thread that lives. One that is no call of a thread, as Bad, is refused (Syntax). [`Failed`] comes only if a
/// call of the disk failed, and the state then stays.
pub(crate) fn dispatch<D: Disk, L: Ledger>(
    volume: &mut Volume,
    cache: &mut VCache,
    disk: &mut D,
    thread: u64,
    call: &Call,
    steps: &mut Steps<L>,
) -> Result<Reply, Failed>
    requires sound { IsSoundOn D.Disk volume.old disk.old }
    requires at_most_28_staged { staged_of volume.old ≤ 28 }
    requires backed { ForSome (D.seen disk.old) (λ image. AllBacked (now_of volume.old image) cache.old) }
    requires lives { lives volume.old thread ≡ true }
    ensures { CallServes 130 D.Disk (of_living thread call.now) result volume.old volume.new cache.old cache.new disk.old disk.new steps.old steps.new }
{
    steps_keep_backing();
    match *call {
        Call::Load { a } => load(volume, cache, disk, thread, a, steps),
        Call::Store { a, value } => store(volume, cache, disk, thread, a, value, steps),
        Call::Info { base } => validated_info(volume, cache, disk, thread, base, steps),
        Call::Pdx { a, mask } => pdx(volume, cache, disk, thread, a, mask, steps),
        Call::Thread { pc } => validated_make(volume, cache, disk, thread, pc, steps),
        Call::Delete { .. }
        | Call::Pwadd { .. }
        | Call::Pwdel { .. }
        | Call::Entry { .. }
        | Call::Ext { .. }
        | Call::Recharge { .. } => on_object(volume, cache, disk, thread, call, steps),
        Call::Create { .. }
        | Call::Apdadd { .. }
        | Call::Apddel { .. }
        | Call::Apdlist
        | Call::Ret
        | Call::End { .. }
        | Call::Resume { .. }
        | Call::Account { .. }
        | Call::Pay { .. }
        | Call::Balance { .. } => Ok(unasked(volume, cache, thread, call)),
        Call::Turn | Call::Next | Call::Rent | Call::Bad => { Ok(Reply::No(Refusal::Syntax)) }
    }
}
