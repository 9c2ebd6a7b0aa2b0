// A list of accounts: account n is at place n - 1.
ghost use Rattle.std.specs.Prelude.{◌≡◌, ◌≤◌, ◌+◌, IfSome, is_some, length, true};
ghost use Rattle.mg_bank.specs.Bank.{credits_of};
ghost use Rattle.mg_model.specs.Abbreviations.{with_account};
ghost use Rattle.mg_model.specs.Bank.{account_of, balance_of, credited, debited};
ghost use Rattle.mg_model.specs.Limits.{credit_limit};

use mg_model::AccRow;

/// The account with this number.
pub(crate) fn row_of(rows: &[AccRow], account: u64) -> Option<AccRow>
    ensures found { result ≡ account_of rows.now account }
    ensures within_1_and_rows { IfSome result (λ _. (1 ≤ account) × (account ≤ length rows.now)) }
{
    if account == 0 || account > rows.len() as u64 {
        return None;
    }
    Some(rows[(account - 1) as usize])
}

/// Another row for this account, which is there.
pub(crate) fn put(rows: &mut [AccRow], account: u64, row: AccRow)
    requires { is_some (account_of rows.old account) ≡ true }
    ensures { rows.new ≡ with_account rows.old account row }
{
    rows[(account - 1) as usize] = row;
}

/// Credits are taken from this account, which has as many.
pub(crate) fn take(rows: &mut [AccRow], account: u64, amount: u64)
    requires there { is_some (account_of rows.old account) ≡ true }
    requires enough { amount ≤ balance_of rows.old account }
    ensures rows { rows.new ≡ debited rows.old account amount }
    ensures sum { credits_of rows.new + amount ≡ credits_of rows.old }
{
    rows[(account - 1) as usize].balance -= amount;
}

/// Credits are given to this account. All have at most `2^62` then.
pub(crate) fn give(rows: &mut [AccRow], account: u64, amount: u64)
    requires there { is_some (account_of rows.old account) ≡ true }
    requires fits { credits_of rows.old + amount ≤ credit_limit }
    ensures rows { rows.new ≡ credited rows.old account amount }
    ensures sum { credits_of rows.new ≡ credits_of rows.old + amount }
{
    rows[(account - 1) as usize].balance += amount;
}
