// Why no account is opened.
ghost use Rattle.std.specs.Prelude.{◌≡◌, MatchOption, nat_le};
ghost use Rattle.mg_calls_bank.specs.Refusals.{MayOpen, opening_refusal};
ghost use Rattle.mg_model.specs.Limits.{draw_limit};
ghost use Rattle.mg_volume.specs.Meaning.{counters_in};

use mg_model::Refusal;
use mg_model::limits::DRAW_LIMIT;
use mg_volume::Volume;

/// Why no account may be opened with `amount` credits of this one, or what holds if one may.
pub(crate) fn opening(volume: &Volume, account: u64, password: u64, amount: u64) -> Option<Refusal>
    ensures word { result ≡ opening_refusal volume.now account password amount }
    ensures may { MatchOption result (MayOpen volume.now account password amount) (λ _. Unit {0}) }
{
    match volume.bank().opening(account, password, amount) {
        Some(word) => Some(word),
        None if is_spent(volume) => Some(Refusal::Limit),
        None => None,
    }
}

// Whether no password is left.
fn is_spent(volume: &Volume) -> bool
    ensures { result ≡ nat_le draw_limit (counters_in volume.now).draws }
{
    volume.globals().draws() >= DRAW_LIMIT
}
