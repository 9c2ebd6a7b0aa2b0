// The collection of the rent.
ghost use Rattle.std.specs.Prelude.{◌≡◌, ◌≤◌, ◌+◌, ◌^◌, ◌==◌, ℕ, List, MatchResult, OnErr, OnOk, IfOk, false, length, true};
ghost use Rattle.mg_bank.specs.Bank.{pages_at};
ghost use Rattle.mg_model.specs.Bank.{rate_of};
ghost use Rattle.mg_model.specs.declared.replies.Refusal.TheVariants.{Calendar};
ghost use Rattle.mg_model.specs.Limits.{debt_limit, period_limit};
ghost use Rattle.mg_model.specs.State.{Object};
ghost use Rattle.mg_rent.specs.Charging.{ArePagesOf, Collects, KeepsCredits, OweAtMost};

use crate::charging::{charge, give};
use crate::rates::rate;
use mg_bank::Bank;
use mg_model::limits::PERIOD_LIMIT;
use mg_model::{Refusal, Tariff};

/// Collects the rent of a period, as [`collect_rent`] does, and gives the sum of what was paid. There is a treasury, no account
/// owes more than the period times `2^36`, and none pays for more than 65,536 pages. In the last period, `2^24 - 1`, it is refused
/// (Calendar), and the bank stays.
pub fn collect(bank: &mut Bank, tariff: &Tariff, used: u64, period: u64) -> Result<u64, Refusal>
    requires treasury { 1 ≤ length bank.old.accounts }
    requires period { period ≤ period_limit }
    requires owed { OweAtMost (debt_limit period) bank.old.accounts }
    requires pages { (n : ℕ) → pages_at bank.old.pages n ≤ 65536 }
    ensures refusal { MatchResult result (λ _. (period == period_limit) ≡ false) (λ word. (word ≡ Calendar) × ((period == period_limit) ≡ true)) }
    ensures collects { IfOk result (λ paid. (objects : List Object) → ArePagesOf objects bank.old.pages → Collects objects (rate_of tariff.now used) bank.old.accounts bank.new.accounts paid) }
    ensures debts { OnOk result (OweAtMost (debt_limit (period + 1)) bank.new.accounts) }
    ensures keeps { KeepsCredits bank.old bank.new }
    ensures stays { OnErr result (bank.new ≡ bank.old) }
{
    let (_, paid) = collect_rent(bank, tariff, used, period)?;
    Ok(paid)
}

/// Collects the rent of a period, and gives the rate, credits for each page, and the sum of what was paid. The rate is the one of
/// the tariff for this number of pages in use. Each account is charged, from the first on, for the pages that it pays for: with
/// what it owes already it pays what is due, all that it has at most, and owes the rest. Then account 1, the treasury, receives
/// the sum. There is a treasury, and none pays for more than 65,536 pages. In the last period, `2^24 - 1`, it is refused
/// (Calendar), and the bank stays. No object is looked at: the time is in the number of accounts.
///
/// The sums are exact if no account owes more than `2^60`, as in every state that is well formed. Whatever accounts owe, no
/// credit comes or goes.
pub fn collect_rent(
    bank: &mut Bank,
    tariff: &Tariff,
    used: u64,
    period: u64,
) -> Result<(u64, u64), Refusal>
    requires treasury { 1 ≤ length bank.old.accounts }
    requires pages { (n : ℕ) → pages_at bank.old.pages n ≤ 65536 }
    ensures refusal { MatchResult result (λ _. (period == period_limit) ≡ false) (λ word. (word ≡ Calendar) × ((period == period_limit) ≡ true)) }
    ensures rate { IfOk result (λ told. told.0 ≡ rate_of tariff.now used) }
    ensures collects { IfOk result (λ told. OweAtMost (2 ^ 60) bank.old.accounts → (objects : List Object) → ArePagesOf objects bank.old.pages → Collects objects (rate_of tariff.now used) bank.old.accounts bank.new.accounts told.1) }
    ensures debts { OnOk result (OweAtMost (2 ^ 60) bank.old.accounts → OweAtMost (debt_limit period) bank.old.accounts → OweAtMost (debt_limit (period + 1)) bank.new.accounts) }
    ensures keeps { KeepsCredits bank.old bank.new }
    ensures stays { OnErr result (bank.new ≡ bank.old) }
{
    if period == PERIOD_LIMIT {
        return Err(Refusal::Calendar);
    }
    let rate = rate(tariff, used);
    let count = bank.len();
    let mut sum = 0;
    for i in 0..count {
        let pages = bank.pages(i + 1);
        sum += charge(bank, i + 1, rate * pages);
    }
    give(bank, 1, sum);
    Ok((rate, sum))
}
