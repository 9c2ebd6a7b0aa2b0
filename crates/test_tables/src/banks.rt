// Accounts and the rent: a bank that is made here, refusals, and sums that were worked out by hand.
ghost use Rattle.std.specs.Prelude.{◌≡◌, ◌≤◌, [], ℕ};
ghost use Rattle.mg_bank.specs.Bank.{pages_at};

use mg_bank::Bank;
use mg_model::limits::PERIOD_LIMIT;
use mg_model::{AccRow, Refusal, Tariff};
use mg_rent::collect;
use std::alloc::Global;

/// What opening three accounts answers, and what three payments do.
type Told = (
    [Result<u64, Refusal>; 3],
    [Result<(), Refusal>; 3],
    [u64; 2],
);

/// The accounts of a bank, with a treasury of 1,000 credits that password 7 opens.
fn told(bank: &mut Bank) -> Told
    requires none { bank.old.accounts ≡ [] }
{
    bank.push(AccRow {
        password: 7,
        balance: 1000,
        owed: 0,
    });
    let opened = [
        bank.open_account(1, 8, 10, 5),
        bank.open_account(1, 7, 1001, 5),
        bank.open_account(1, 7, 10, 5),
    ];
    let paid = [
        bank.pay(1, 7, 3, 1),
        bank.pay(2, 5, 1, 11),
        bank.pay(2, 5, 1, 4),
    ];
    (opened, paid, [bank.balance_of(1), bank.balance_of(2)])
}

/// The rent of one period: the treasury pays for one page and the other account, with 10 credits, for three, at the rate 1.
fn rented(bank: &mut Bank, period: u64) -> Result<u64, Refusal>
    requires none { bank.old.accounts ≡ [] }
    requires no_pages { (n : ℕ) → pages_at bank.old.pages n ≡ 0 }
    requires period { period ≤ 16777215 }
{
    bank.push(AccRow {
        password: 7,
        balance: 990,
        owed: 0,
    });
    bank.push(AccRow {
        password: 5,
        balance: 10,
        owed: 0,
    });
    bank.set_pages(1, 1);
    bank.set_pages(2, 3);
    collect(bank, &Tariff::usual(64), 4, period)
}

fn accounts_are_right(alloc: Global) -> bool {
    match Bank::new(alloc) {
        Ok(mut bank) => {
            told(&mut bank)
                == (
                    [Err(Refusal::Account), Err(Refusal::Credit), Ok(2)],
                    [Err(Refusal::Account), Err(Refusal::Credit), Ok(())],
                    [994, 6],
                )
        }
        Err(_) => false,
    }
}

fn rent_is(alloc: Global, period: u64, wanted: Result<u64, Refusal>) -> bool
    requires { period ≤ 16777215 }
{
    match Bank::new(alloc) {
        Ok(mut bank) => rented(&mut bank, period) == wanted,
        Err(_) => false,
    }
}

fn are_right(alloc: Global) -> [bool; 3] {
    [
        accounts_are_right(alloc),
        rent_is(alloc, 0, Ok(4)),
        rent_is(alloc, PERIOD_LIMIT, Err(Refusal::Calendar)),
    ]
}

#[test]
fn accounts_pay_and_are_refused(rt: HostRuntime) {
    assert_eq!(rt; are_right(rt.alloc()), [true; 3]);
}
