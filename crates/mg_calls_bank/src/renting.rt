// Rent is collected.
ghost use Rattle.std.specs.Prelude.{List, ◌≡◌, ◌≤◌, ◌<◌, ◌+◌, ℕ};
ghost use Rattle.mg_model.specs.BankCalls as calls;
ghost use Rattle.mg_model.specs.Layout.{body_limit};
ghost use Rattle.mg_model.specs.Limits.{period_limit};
ghost use Rattle.mg_volume.specs.Calls.{Answers, CallStages, Stages};
ghost use Rattle.mg_volume.specs.Meaning.{counters_in, now_of, staged_of};

use mg_model::Reply;
use mg_volume::Volume;

/// The rent of a period is collected, and the next period begins: each account pays for its pages at the rate of the tariff,
/// and the treasury, account 1, gets the sum. In the last period it is refused (Calendar). Who keeps rights that were found
/// drops them all after it, unless it is refused, since passwords may end with the period.
pub fn rent(volume: &mut Volume) -> Reply
    requires at_most_143_staged { staged_of volume.old ≤ 143 }
    ensures { CallStages (Answers (λ state. calls.rent state)) 17 volume.old volume.new result }
{
    let next = period(volume) + 1;
    match volume.collect_rent() {
        Ok((rate, paid)) => {
            begin(volume, next);
            Reply::Collected(next, rate, paid)
        }
        Err(word) => Reply::No(word),
    }
}

// The period, at most `2^24 - 1`.
fn period(volume: &Volume) -> u64
    ensures period { result ≡ (counters_in volume.now).period }
    ensures at_most_period_limit { result ≤ period_limit }
{
    volume.globals().period
}

// Another period begins, at most `2^24 - 1`.
fn begin(volume: &mut Volume, period: u64)
    requires period { period ≤ period_limit }
    requires fewer_than_160_staged { staged_of volume.old < body_limit }
    ensures now { (image : List (List ℕ)) → now_of volume.new image ≡ record (now_of volume.old image) { counters = record (counters_in volume.old) { period = period } } }
    ensures stages { Stages 1 volume.old volume.new }
{
    let mut globals = volume.globals();
    globals.set_period(period);
    volume.stage_globals(globals);
}
