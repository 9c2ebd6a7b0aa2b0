// The bank.
ghost use Rattle.std.specs.Prelude.{◌≡◌, ◌≤◌, ◌<◌, ◌+◌, ◌++◌, ◌∷◌, ◌==◌, [], ℕ, IfOk, if◌then◌else◌, IfSome, is_some, length, true, vec_capacity};
ghost use Rattle.mg_bank.specs.Bank.{credits_of, pages_at};
ghost use Rattle.mg_model.specs.Abbreviations.{with_account};
ghost use Rattle.mg_model.specs.Bank.{account_of, balance_of, opens, owed_by};
ghost use Rattle.mg_model.specs.Limits.{account_limit, credit_limit};

use crate::rows::{put, row_of};
use mg_model::AccRow;
use mg_model::limits::ACCOUNT_LIMIT;
use std::alloc::{AllocError, Global};
use std::marker::Model;

// One place more than there are accounts: none has number 0.
const PLACES: usize = 1025;

/// The accounts of a volume: at most 1,024, which have at most `2^62` credits together; and for how many pages each pays.
#[derive(Drop)]
pub struct Bank {
    // The accounts, in room for as many as there may be.
    pub(crate) rows: Vec<AccRow>,
    // How many pages account n pays for, in place n.
    pages: Vec<u64>,
}

impl Model for Bank {
    ghost use Rattle.std.specs.Vec.{vec_capacity};
    ghost use Rattle.mg_bank.specs.Bank.{BankHeld, IsBank};

    ghost Value = { BankHeld };

    ghost view = { λ bank. record { accounts = bank.rows.items; pages = bank.pages.items } };

    ghost invariant = { λ bank. IsBank bank.rows.items (vec_capacity bank.rows) bank.pages.items };
}

impl Bank {
    /// No accounts, and room for 1,024. All memory that they will need is taken here.
    pub fn new(alloc: Global) -> Result<Bank, AllocError>
        ensures none { IfOk result (λ made. made.accounts ≡ []) }
        ensures no_pages { IfOk result (λ made. (n : ℕ) → pages_at made.pages n ≡ 0) }
    {
        let rows = Vec::with_capacity(alloc, ACCOUNT_LIMIT)?;
        Bank::of(alloc, rows)
    }

    /// The bank of these accounts, in their order, which pay for no pages. There is room for 1,024. All memory that it will need
    /// beside them is taken here.
    pub fn of(alloc: Global, rows: Vec<AccRow>) -> Result<Bank, AllocError>
        requires at_most_1024_rows { length rows.items ≤ account_limit }
        requires has_capacity { account_limit ≤ vec_capacity rows }
        requires credits { credits_of rows.items ≤ credit_limit }
        ensures accounts { IfOk result (λ made. made.accounts ≡ rows.items) }
        ensures no_pages { IfOk result (λ made. (n : ℕ) → pages_at made.pages n ≡ 0) }
    {
        let pages = vec![in alloc; 0; PLACES]?;
        Ok(Bank { rows, pages })
    }

    /// States that there are at most 1,024 accounts, which have at most `2^62` credits together. It does nothing when it runs.
    pub fn keep_rules(&self)
        ensures at_most_1024 { length self.now.accounts ≤ account_limit }
        ensures credits { credits_of self.now.accounts ≤ credit_limit }
    {
        let _rows = &self.rows;
    }

    /// How many accounts there are, 1,024 at most; they have at most `2^62` credits together.
    pub fn len(&self) -> u64
        ensures count { result ≡ length self.now.accounts }
        ensures at_most_1024 { result ≤ account_limit }
        ensures credits { credits_of self.now.accounts ≤ credit_limit }
    {
        self.rows.len() as u64
    }

    /// The accounts: account n is at place n - 1.
    pub fn rows(&self) -> &[AccRow]
        ensures { result.now ≡ self.now.accounts }
    {
        &self.rows
    }

    /// The account with this number, 1 to 1,024.
    pub fn row(&self, account: u64) -> Option<AccRow>
        ensures found { result ≡ account_of self.now.accounts account }
        ensures within_1_and_1024 { IfSome result (λ _. (1 ≤ account) × (account ≤ 1024)) }
    {
        row_of(&self.rows, account)
    }

    /// Whether this password opens this account. It opens none that is not there.
    pub fn opens(&self, account: u64, password: u64) -> bool
        ensures opens { result ≡ opens self.now.accounts account password }
        ensures n_at_least_1 { result ≡ true → 1 ≤ account }
        ensures n_at_most_1024 { result ≡ true → account ≤ 1024 }
    {
        match self.row(account) {
            Some(row) => row.password == password,
            None => false,
        }
    }

    /// The credits of this account, 0 if it is not there.
    pub fn balance_of(&self, account: u64) -> u64
        ensures { result ≡ balance_of self.now.accounts account }
    {
        match self.row(account) {
            Some(row) => row.balance,
            None => 0,
        }
    }

    /// What this account owes in rent, 0 if it is not there.
    pub fn owed_by(&self, account: u64) -> u64
        ensures { result ≡ owed_by self.now.accounts account }
    {
        match self.row(account) {
            Some(row) => row.owed,
            None => 0,
        }
    }

    /// One more account, the last, with which all have at most `2^62` credits. There are fewer than 1,024.
    pub fn push(&mut self, row: AccRow)
        requires fewer_than_1024 { length self.old.accounts < account_limit }
        requires credits { credits_of self.old.accounts + row.balance ≤ credit_limit }
        ensures accounts { self.new.accounts ≡ self.old.accounts ++ row ∷ [] }
        ensures pages { self.new.pages ≡ self.old.pages }
    {
        // There is room.
        let _ = self.rows.push(row);
    }

    /// Another row for this account, with which all have at most `2^62` credits.
    pub fn set(&mut self, account: u64, row: AccRow)
        requires there { is_some (account_of self.old.accounts account) ≡ true }
        requires credits { credits_of (with_account self.old.accounts account row) ≤ credit_limit }
        ensures accounts { self.new.accounts ≡ with_account self.old.accounts account row }
        ensures pages { self.new.pages ≡ self.old.pages }
    {
        put(&mut self.rows, account, row);
    }

    /// For how many pages this account pays: 0 if its number is not from 1 to 1,024.
    pub fn pages(&self, account: u64) -> u64
        ensures { result ≡ pages_at self.now.pages account }
    {
        let pages = &self.pages;
        if account >= PLACES as u64 {
            return 0;
        }
        pages[account as usize]
    }

    /// This account, at most 1,024, pays for `pages` pages. The accounts stay.
    pub fn set_pages(&mut self, account: u64, pages: u64)
        requires { account ≤ 1024 }
        ensures pages { (k : ℕ) → pages_at self.new.pages k ≡ (if account == k then pages else pages_at self.old.pages k) }
        ensures accounts { self.new.accounts ≡ self.old.accounts }
    {
        self.pages[account as usize] = pages;
    }
}
