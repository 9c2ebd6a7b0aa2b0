// Accounts are opened and credits are paid, or refused.
ghost use Rattle.std.specs.Prelude.{◌≡◌, ◌≤◌, ◌+◌, ◌++◌, ◌∷◌, [], IfOk, MatchOption, MatchResult, None, OnErr, OnOk, Some, is_some, length, true};
ghost use Rattle.mg_bank.specs.Bank.{credits_of};
ghost use Rattle.mg_bank.specs.Refusals.{MayOpen, MayPay, opening_refusal, paying_refusal};
ghost use Rattle.mg_model.specs.Bank.{account_of, credited, debited};

use crate::bank::Bank;
use crate::rows::{give, take};
use mg_model::limits::ACCOUNT_LIMIT;
use mg_model::{AccRow, Refusal};

impl Bank {
    /// Why no account may be opened with these credits of this account; None if one may. The refusals come in this order: no
    /// such account, or another password than its own (Account); too few credits (Credit); 1,024 accounts (Limit).
    pub fn opening(&self, account: u64, password: u64, credits: u64) -> Option<Refusal>
        ensures word { result ≡ opening_refusal self.now.accounts account password credits }
        ensures may { MatchOption result (MayOpen self.now.accounts account credits) (λ _. Unit {0}) }
    {
        if !self.opens(account, password) {
            return Some(Refusal::Account);
        }
        if self.balance_of(account) < credits {
            return Some(Refusal::Credit);
        }
        if self.len() >= ACCOUNT_LIMIT as u64 {
            return Some(Refusal::Limit);
        }
        None
    }

    // Why these credits may not be paid from one account to another; None if they may.
    fn paying(&self, from: u64, password: u64, to: u64, credits: u64) -> Option<Refusal>
        ensures word { result ≡ paying_refusal self.now.accounts from password to credits }
        ensures may { MatchOption result (MayPay self.now.accounts from to credits) (λ _. Unit {0}) }
    {
        if !self.opens(from, password) || !self.is_there(to) {
            return Some(Refusal::Account);
        }
        if self.balance_of(from) < credits {
            return Some(Refusal::Credit);
        }
        None
    }

    /// One more account, with the password `fresh` and these credits of `account`, which `password` opens; gives its number, the
    /// last. It owes nothing. It is refused as [`Bank::opening`] says (Account, Credit, Limit), and the bank stays then.
    pub fn open_account(
        &mut self,
        account: u64,
        password: u64,
        credits: u64,
        fresh: u64,
    ) -> Result<u64, Refusal>
        ensures refusal { MatchResult result (λ _. opening_refusal self.old.accounts account password credits ≡ None) (λ word. opening_refusal self.old.accounts account password credits ≡ Some word) }
        ensures number { IfOk result (λ number. number ≡ length self.old.accounts + 1) }
        ensures may { OnOk result (MayOpen self.old.accounts account credits) }
        ensures accounts { OnOk result (self.new.accounts ≡ debited self.old.accounts account credits ++ record { password = fresh; balance = credits; owed = 0 } ∷ []) }
        ensures count { OnOk result (length self.new.accounts ≡ length self.old.accounts + 1) }
        ensures sum { credits_of self.new.accounts ≡ credits_of self.old.accounts }
        ensures pages { self.new.pages ≡ self.old.pages }
        ensures stays { OnErr result (self.new ≡ self.old) }
    {
        match self.opening(account, password, credits) {
            Some(word) => Err(word),
            None => {
                take(&mut self.rows, account, credits);
                self.push(AccRow {
                    password: fresh,
                    balance: credits,
                    owed: 0,
                });
                Ok(self.len())
            }
        }
    }

    /// These credits of account `from`, which `password` opens, go to account `to`, which may be the same. The refusals come in
    /// this order: no such account, another password than its own, or no account to pay to (Account); too few credits (Credit).
    /// The bank stays then.
    pub fn pay(&mut self, from: u64, password: u64, to: u64, credits: u64) -> Result<(), Refusal>
        ensures refusal { MatchResult result (λ _. paying_refusal self.old.accounts from password to credits ≡ None) (λ word. paying_refusal self.old.accounts from password to credits ≡ Some word) }
        ensures may { OnOk result (MayPay self.old.accounts from to credits) }
        ensures accounts { OnOk result (self.new.accounts ≡ credited (debited self.old.accounts from credits) to credits) }
        ensures count { length self.new.accounts ≡ length self.old.accounts }
        ensures sum { credits_of self.new.accounts ≡ credits_of self.old.accounts }
        ensures pages { self.new.pages ≡ self.old.pages }
        ensures stays { OnErr result (self.new ≡ self.old) }
    {
        match self.paying(from, password, to, credits) {
            Some(word) => Err(word),
            None => {
                take(&mut self.rows, from, credits);
                give(&mut self.rows, to, credits);
                Ok(())
            }
        }
    }

    // Whether there is an account with this number.
    fn is_there(&self, account: u64) -> bool
        ensures there { result ≡ is_some (account_of self.now.accounts account) }
        ensures n_at_least_1 { result ≡ true → 1 ≤ account }
        ensures n_at_most_1024 { result ≡ true → account ≤ 1024 }
    {
        self.row(account).is_some()
    }
}
