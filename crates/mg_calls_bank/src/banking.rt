// Accounts are opened and looked up, and credits are paid.
ghost use Rattle.std.specs.Prelude.{◌≡◌, ◌≤◌, ◌==◌, filter, sum_by};
ghost use Rattle.mg_model.specs.Bank.{balance_of, owed_by};
ghost use Rattle.mg_model.specs.BankCalls as calls;
ghost use Rattle.mg_volume.specs.Calls.{Answers, CallStages};
ghost use Rattle.mg_volume.specs.Meaning.{accounts_in, objects_in, staged_of};

use crate::refusing::opening;
use mg_model::{Refusal, Reply};
use mg_volume::Volume;

/// A new account, the next in number, with credits of an account that this password opens. Its password is the next that is
/// drawn, and it owes nothing. The refusals come in this order: no such account, or another password than its own (Account);
/// fewer credits than these (Credit); 1,024 accounts, or no password left to draw (Limit).
pub fn account(volume: &mut Volume, account: u64, password: u64, amount: u64) -> Reply
    requires at_most_157_staged { staged_of volume.old ≤ 157 }
    ensures { CallStages (Answers (λ state. calls.open_account state account password amount)) 3 volume.old volume.new result }
{
    match opening(volume, account, password, amount) {
        Some(word) => Reply::No(word),
        None => {
            let fresh = volume.next_password();
            match volume.open_account(account, password, amount, fresh) {
                Ok(number) => Reply::Opened(number, fresh),
                Err(_) => unreachable!(),
            }
        }
    }
}

/// Credits of an account that this password opens go to another account, or to itself. The refusals come in this order: no
/// such account, another password than its own, or no account to pay to (Account); fewer credits than these (Credit).
pub fn pay(volume: &mut Volume, account: u64, password: u64, to: u64, amount: u64) -> Reply
    requires at_most_158_staged { staged_of volume.old ≤ 158 }
    ensures { CallStages (Answers (λ state. calls.pay state account password to amount)) 2 volume.old volume.new result }
{
    match volume.pay(account, password, to, amount) {
        Ok(()) => Reply::Done,
        Err(word) => Reply::No(word),
    }
}

/// The credits of an account that this password opens, what it owes, and for how many pages it pays; another account, or
/// another password, is refused (Account). The state stays.
pub fn balance(volume: &mut Volume, account: u64, password: u64) -> Reply
    ensures { CallStages (Answers (λ state. calls.balance state account password)) 0 volume.old volume.new result }
{
    if volume.bank().opens(account, password) {
        funds(volume, account)
    } else {
        Reply::No(Refusal::Account)
    }
}

// What a reply says of an account.
fn funds(volume: &Volume, account: u64) -> Reply
    ensures { result ≡ Reply.Funds (balance_of (accounts_in volume.now) account) (owed_by (accounts_in volume.now) account) (sum_by (λ row. row.pages) (filter (λ row. row.account == account) (objects_in volume.now))) }
{
    let bank = volume.bank();
    Reply::Funds(
        bank.balance_of(account),
        bank.owed_by(account),
        volume.paid_by(account),
    )
}
