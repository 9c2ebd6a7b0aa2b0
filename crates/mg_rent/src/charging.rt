// What one account pays.
ghost use Rattle.std.specs.Prelude.{◌≡◌, ◌≤◌, ◌<◌, ◌+◌, ◌^◌, is_some, length, true};
ghost use Rattle.mg_bank.specs.Bank.{credits_of};
ghost use Rattle.mg_model.specs.Bank.{account_of, charged, credited, owed_by, paid};
ghost use Rattle.mg_model.specs.Limits.{credit_limit};
ghost use Rattle.mg_rent.specs.Charging.{charged_at, paid_at};

use mg_bank::Bank;
use mg_model::AccRow;

// The account once it is charged what is due, and what it pays: what is due and what it owes already, all that it has at
// most. What it can't pay it owes. If what it owes and what is due make more than a word together, it is charged less.
fn settled(row: AccRow, due: u64) -> (AccRow, u64)
    ensures exact { row.owed + due < 2 ^ 64 → result ≡ (charged row due, paid row due) }
    ensures balance { result.0.balance + result.1 ≡ row.balance }
{
    let due = due.min(u64::MAX - row.owed);
    let pays = row.balance.min(row.owed + due);
    let after = AccRow {
        password: row.password,
        balance: row.balance - pays,
        owed: row.owed + due - pays,
    };
    (after, pays)
}

/// Charges this account what is due, and gives what it pays. An account that is not there pays nothing. If what it owes and what
/// is due make more than a word together, it is charged less. No credit comes or goes in any case.
pub(crate) fn charge(bank: &mut Bank, account: u64, due: u64) -> u64
    ensures accounts { owed_by bank.old.accounts account + due < 2 ^ 64 → bank.new.accounts ≡ charged_at bank.old.accounts account due }
    ensures paid { owed_by bank.old.accounts account + due < 2 ^ 64 → result ≡ paid_at bank.old.accounts account due }
    ensures count { length bank.new.accounts ≡ length bank.old.accounts }
    ensures sum { credits_of bank.new.accounts + result ≡ credits_of bank.old.accounts }
    ensures pages { bank.new.pages ≡ bank.old.pages }
{
    bank.keep_rules();
    match bank.row(account) {
        Some(row) => {
            let (after, pays) = settled(row, due);
            bank.set(account, after);
            pays
        }
        None => 0,
    }
}

/// Gives this account an amount, with which all have at most `2^62` credits.
pub(crate) fn give(bank: &mut Bank, account: u64, amount: u64)
    requires there { is_some (account_of bank.old.accounts account) ≡ true }
    requires fits { credits_of bank.old.accounts + amount ≤ credit_limit }
    ensures accounts { bank.new.accounts ≡ credited bank.old.accounts account amount }
    ensures sum { credits_of bank.new.accounts ≡ credits_of bank.old.accounts + amount }
    ensures pages { bank.new.pages ≡ bank.old.pages }
{
    match bank.row(account) {
        Some(row) => {
            let more = AccRow {
                password: row.password,
                balance: row.balance + amount,
                owed: row.owed,
            };
            bank.set(account, more);
        }
        None => {}
    }
}
