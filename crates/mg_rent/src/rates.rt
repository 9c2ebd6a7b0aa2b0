// The rate of the rent.
ghost use Rattle.std.specs.Prelude.{◌≡◌, ◌≤◌, if◌then◌else◌, nat_le};
ghost use Rattle.mg_model.specs.Bank.{rate_of};
ghost use Rattle.mg_model.specs.Limits.{step_limit};

use mg_model::Tariff;

/// The rate of a tariff if `used` pages are in use: credits for each page and period, at most `2^20`. A step holds from its
/// number of pages on.
pub fn rate(tariff: &Tariff, used: u64) -> u64
    ensures rate { result ≡ rate_of tariff.now used }
    ensures at_most_step_limit { result ≤ step_limit }
{
    let steps = tariff.steps();
    let mut rate = 0;
    for step in &steps {
        rate = next_rate(rate, *step, used);
    }
    rate
}

// The rate of a step if it holds, else the one before it.
fn next_rate(before: u64, step: (u64, u64), used: u64) -> u64
    ensures { result ≡ (if nat_le step.0 used then step.1 else before) }
{
    if step.0 <= used { step.1 } else { before }
}
