// Rent is collected, and the rights that were found end.
ghost use Rattle.std.specs.Prelude.{◌≤◌};
ghost use Rattle.mg_model.specs.Backed.{by_each};
ghost use Rattle.mg_model.specs.BankCalls as calls;
ghost use Rattle.mg_vcache.specs.Drops.{Drops};
ghost use Rattle.mg_volume.specs.Calls.{Answers, CallStages};
ghost use Rattle.mg_volume.specs.Meaning.{staged_of};

use mg_calls_bank::rent;
use mg_model::Reply;
use mg_vcache::VCache;
use mg_volume::Volume;

/// What `rent` is answered. Passwords may end with the period, so all seats of the validation cache are dropped, and none if
/// it is refused.
pub(crate) fn collect(volume: &mut Volume, cache: &mut VCache) -> Reply
    requires at_most_143_staged { staged_of volume.old ≤ 143 }
    ensures does { CallStages (Answers (λ state. calls.rent state)) 17 volume.old volume.new result }
    ensures seats { Drops by_each cache.old cache.new result }
{
    let reply = rent(volume);
    if let Reply::No(_) = reply {
        return reply;
    }
    cache.drop_all();
    reply
}
