// What a volume stages of its accounts.
ghost use Rattle.std.specs.Prelude.{List, ◌≡◌, ◌≤◌, ◌<◌, ◌+◌, ◌-◌, ◌*◌, ◌/◌, ◌++◌, ◌∷◌, ◌^◌, ◌==◌, [], ℕ, IfOk, MatchResult, None, OnErr, OnOk, Some, false, length, true};
ghost use Rattle.mg_bank.specs.Bank.{credits_of};
ghost use Rattle.mg_bank.specs.Refusals.{opening_refusal, paying_refusal};
ghost use Rattle.mg_model.specs.Bank.{credited, rate_now, debited};
ghost use Rattle.mg_model.specs.declared.replies.Refusal.TheVariants.{Calendar};
ghost use Rattle.mg_model.specs.Limits.{period_limit};
ghost use Rattle.mg_rent.specs.Charging.{OweAtMost};
ghost use Rattle.mg_volume.specs.Calls.{Stages};
ghost use Rattle.mg_volume.specs.Changes.{Changes, CollectsRent};
ghost use Rattle.mg_volume.specs.Meaning.{accounts_in, counters_in, now_of, objects_in, staged_of};
ghost use Rattle.mg_volume.specs.Staging.{ObjectsStillStaged};

use crate::account_block::{stage_both, stage_first};
use crate::volume::Volume;
use mg_model::Refusal;
use mg_rent::collect_rent;

// The block of the table that has the row of this account, 1 to 1,024.
fn block_of(account: u64) -> u64
    requires at_least_1 { 1 ≤ account }
    requires at_most_1024 { account ≤ 1024 }
    ensures block { result ≡ (account - 1) / 64 }
    ensures below_16 { result < 16 }
{
    (account - 1) / 64
}

// How many blocks of the table have the rows of this number of accounts.
fn block_count(accounts: u64) -> u64
    requires { accounts ≤ 1024 }
    ensures all { accounts ≤ 64 * result }
    ensures at_most_16 { result ≤ 16 }
{
    (accounts + 63) / 64
}

#[tactic(auto, unfolding(crate::specs::Meaning::settings_in, crate::specs::Meaning::counters_in, crate::specs::Meaning::objects_in, crate::specs::Meaning::accounts_in, crate::specs::Meaning::threads_in, crate::specs::Meaning::now_of, crate::specs::Meaning::staged_of, crate::specs::Meaning::is_live, crate::specs::Meaning::total_of, crate::specs::Meaning::words_in))]
impl Volume {
    /// Stages one more account, with the password `fresh` and these credits of `account`, which `password` opens. Its number, the
    /// last, is the answer. It owes nothing. The refusals come in this order: no such account, or another password than its own
    /// (Account); too few credits (Credit); 1,024 accounts (Limit). Nothing changes then. At most 158 blocks are staged, and two
    /// more at most then.
    pub fn open_account(
        &mut self,
        account: u64,
        password: u64,
        credits: u64,
        fresh: u64,
    ) -> Result<u64, Refusal>
        requires at_most_158_staged { staged_of self.old ≤ 158 }
        ensures refusal { MatchResult result (λ _. opening_refusal (accounts_in self.old) account password credits ≡ None) (λ word. opening_refusal (accounts_in self.old) account password credits ≡ Some word) }
        ensures number { IfOk result (λ number. number ≡ length (accounts_in self.old) + 1) }
        ensures now { OnOk result ((image : List (List ℕ)) → now_of self.new image ≡ record (now_of self.old image) { accounts = debited (accounts_in self.old) account credits ++ record { password = fresh; balance = credits; owed = 0 } ∷ [] }) }
        ensures rows { OnOk result (objects_in self.new ≡ objects_in self.old) }
        ensures stages { OnOk result (Stages 2 self.old self.new) }
        ensures objects { OnOk result (ObjectsStillStaged self.old self.new) }
        ensures stays { OnErr result (self.new ≡ self.old) }
    {
        let number = self.bank.open_account(account, password, credits, fresh)?;
        let first = block_of(account);
        let last = block_of(number);
        stage_both(&mut self.pages, self.bank.rows(), first, last);
        Ok(number)
    }

    /// Stages that these credits of account `from`, which `password` opens, go to account `to`, which may be the same. The
    /// refusals come in this order: no such account, another password than its own, or no account to pay to (Account); too few
    /// credits (Credit). Nothing changes then. At most 158 blocks are staged, and two more at most then.
    pub fn pay(&mut self, from: u64, password: u64, to: u64, credits: u64) -> Result<(), Refusal>
        requires at_most_158_staged { staged_of self.old ≤ 158 }
        ensures refusal { MatchResult result (λ _. paying_refusal (accounts_in self.old) from password to credits ≡ None) (λ word. paying_refusal (accounts_in self.old) from password to credits ≡ Some word) }
        ensures now { OnOk result ((image : List (List ℕ)) → now_of self.new image ≡ record (now_of self.old image) { accounts = credited (debited (accounts_in self.old) from credits) to credits }) }
        ensures rows { OnOk result (objects_in self.new ≡ objects_in self.old) }
        ensures stages { OnOk result (Stages 2 self.old self.new) }
        ensures objects { OnOk result (ObjectsStillStaged self.old self.new) }
        ensures stays { OnErr result (self.new ≡ self.old) }
    {
        self.bank.pay(from, password, to, credits)?;
        let first = block_of(from);
        let second = block_of(to);
        stage_both(&mut self.pages, self.bank.rows(), first, second);
        Ok(())
    }

    /// Stages the rent of a period, as [`Volume::collect_rent`] does, and gives the sum that was paid. In the last period,
    /// `2^24 - 1`, it is refused (Calendar), and nothing changes. At most 144 blocks are staged, and 16 more at most then.
    pub fn collect(&mut self) -> Result<u64, Refusal>
        requires at_most_144_staged { staged_of self.old ≤ 144 }
        ensures refusal { MatchResult result (λ _. ((counters_in self.old).period == period_limit) ≡ false) (λ word. (word ≡ Calendar) × (((counters_in self.old).period == period_limit) ≡ true)) }
        ensures changes { OnOk result (Changes 16 (λ state. record state { accounts = accounts_in self.new }) (λ rows. rows) self.old self.new) }
        ensures collects { IfOk result (λ paid. OweAtMost (2 ^ 60) (accounts_in self.old) → (image : List (List ℕ)) → CollectsRent (now_of self.old image) (accounts_in self.new) paid) }
        ensures sum { credits_of (accounts_in self.new) ≡ credits_of (accounts_in self.old) }
        ensures stays { OnErr result (self.new ≡ self.old) }
    {
        let (_, paid) = self.collect_rent()?;
        Ok(paid)
    }

    /// Stages the rent of a period: each account pays for its pages what it can, with what it owes already, and owes the rest;
    /// account 1 receives the sum. The answer is the rate, credits for each page, and the sum. The period stays: the caller
    /// begins the next one with [`Volume::stage_globals`]. In the last period, `2^24 - 1`, it is refused (Calendar), and nothing
    /// changes. At most 144 blocks are staged, and 16 more at most then.
    ///
    /// The sums are exact if no account owes more than `2^60`, as in every state that is well formed. Whatever accounts owe,
    /// nothing but the accounts changes, and no credit comes or goes.
    pub fn collect_rent(&mut self) -> Result<(u64, u64), Refusal>
        requires at_most_144_staged { staged_of self.old ≤ 144 }
        ensures refusal { MatchResult result (λ _. ((counters_in self.old).period == period_limit) ≡ false) (λ word. (word ≡ Calendar) × (((counters_in self.old).period == period_limit) ≡ true)) }
        ensures rate { IfOk result (λ told. (image : List (List ℕ)) → told.0 ≡ rate_now (now_of self.old image)) }
        ensures changes { OnOk result (Changes 16 (λ state. record state { accounts = accounts_in self.new }) (λ rows. rows) self.old self.new) }
        ensures collects { IfOk result (λ told. OweAtMost (2 ^ 60) (accounts_in self.old) → (image : List (List ℕ)) → CollectsRent (now_of self.old image) (accounts_in self.new) told.1) }
        ensures sum { credits_of (accounts_in self.new) ≡ credits_of (accounts_in self.old) }
        ensures stays { OnErr result (self.new ≡ self.old) }
    {
        // This says that the frames are in their range.
        self.params.keep_rules();
        let tariff = self.params().tariff();
        let used = self.used();
        let period = self.globals().period();
        let told = collect_rent(&mut self.bank, &tariff, used, period)?;
        let blocks = block_count(self.bank.len());
        stage_first(&mut self.pages, self.bank.rows(), blocks);
        Ok(told)
    }
}
