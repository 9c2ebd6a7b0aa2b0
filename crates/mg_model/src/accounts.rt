// An account of the bank.

/// An account. Accounts are numbered from 1 without a gap; account 1 is the treasury.
#[derive(Clone, Copy, PartialEq, Eq)]
pub struct AccRow {
    pub password: u64,
    /// Its credits.
    pub balance: u64,
    /// What it owes in rent.
    pub owed: u64,
}
