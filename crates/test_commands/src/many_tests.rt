// As many accounts and objects as possible, and rents at each step of the tariff and next to it.
use mg_disk::MemDisk;
use mg_model::draw;
use std::alloc::Global;
use std::test::Fail;
use test_helpers::{MAKING, Streams, ends, outputs_for, volume};

/// The most accounts.
const ACCOUNTS: u64 = 1024;

/// The most objects.
const OBJECTS: u64 = 4096;

/// The steps of the usual tariff of 4,100 frames, the last first: a number of pages, and the rate from there on.
const STEPS: [(u64, u64); 4] = [(3075, 8), (2050, 4), (1025, 2), (0, 1)];

/// The numbers of pages in use at which rent is collected.
const RENTS: [u64; 10] = [
    1024, 1025, 1026, 2049, 2050, 2051, 3074, 3075, 3076, OBJECTS,
];

const DIGITS: [&str; 16] = [
    "0", "1", "2", "3", "4", "5", "6", "7", "8", "9", "a", "b", "c", "d", "e", "f",
];

const DRY: &str =
    "vol dry 4100 0000000000000000000000000000000000000000000000000000000000000000 10000000";

const FORMAT: &str =
    "vol format 4100 0000000000000000000000000000000000000000000000000000000000000000 10000000";

/// The credits of an account, its debt, and the pages that it pays for.
#[derive(Clone, Copy)]
struct Account {
    balance: u64,
    owed: u64,
    pages: u64,
}

/// Lines with their answers, and the state that they leave.
#[derive(Drop)]
struct Script {
    input: String,
    wanted: String,
    accounts: Vec<Account>,
    draws: u64,
    used: u64,
    period: u64,
}

/// A script with no line: account 1 pays for the root, and the others are not open.
fn empty_script(alloc: Global, accounts: Vec<Account>) -> Script {
    Script {
        input: String::new(alloc),
        wanted: String::new(alloc),
        accounts,
        draws: 2,
        used: 1,
        period: 0,
    }
}

/// An account with these credits, which pays for nothing.
fn with_balance(balance: u64) -> Account {
    Account {
        balance,
        owed: 0,
        pages: 0,
    }
}

/// The password with this number. That of the treasury has number 1, and those of the other accounts follow it.
fn password(number: u64) -> u64 {
    draw(&[0; 32], number % 8192)
}

/// Appends to a text. If memory runs out the part is missing, and the texts then differ.
fn push(text: &mut String, part: &str) {
    let _ = text.push_str(part);
}

/// Appends a line of these words and numbers.
fn push_line(text: &mut String, words: &str, numbers: &[u64]) {
    push(text, words);
    for number in numbers {
        push_number(text, *number);
    }
    push(text, "\n");
}

fn push_number(text: &mut String, number: u64) {
    let mut digits = itoa::Buffer::new();
    push(text, " ");
    push(text, digits.format(number));
}

/// Appends a line of these words and of numbers in hexadecimal digits.
fn push_hex_line(text: &mut String, words: &str, numbers: &[u64]) {
    push(text, words);
    for number in numbers {
        push_hex(text, *number);
    }
    push(text, "\n");
}

fn push_hex(text: &mut String, number: u64) {
    push(text, " 0x");
    let mut rest = number;
    for _ in 0..16 {
        rest = rest.rotate_left(4);
        push(text, DIGITS.get((rest % 16) as usize).unwrap_or(&""));
    }
}

/// The account with this number.
fn row_of(script: &Script, number: u64) -> Account {
    let place = number.wrapping_sub(1) as usize;
    script
        .accounts
        .get(place)
        .copied()
        .unwrap_or(with_balance(0))
}

/// Changes an account.
fn set_account(script: &mut Script, number: u64, new: Account) {
    if let Some(old) = script.accounts.get_mut(number.wrapping_sub(1) as usize) {
        *old = new;
    }
}

/// Adds credits to an account.
fn add_credits(script: &mut Script, number: u64, amount: u64) {
    let row = row_of(script, number);
    let balance = row.balance.wrapping_add(amount);
    set_account(script, number, Account { balance, ..row });
}

/// Opens an account with credits of the treasury.
fn open_account(script: &mut Script, number: u64, amount: u64) {
    let opens = password(number);
    push_line(&mut script.input, "1 account 1", &[password(1), amount]);
    push(&mut script.wanted, "ok");
    push_number(&mut script.wanted, number);
    push_hex_line(&mut script.wanted, "", &[opens]);
    script.draws = script.draws.wrapping_add(1);
    add_credits(script, 1, 0_u64.wrapping_sub(amount));
    set_account(script, number, with_balance(amount));
}

/// Opens all accounts but the treasury. Each ninth one has no credits.
fn open_accounts(script: &mut Script) {
    for number in 2..ACCOUNTS + 1 {
        open_account(script, number, number % 9 * 300);
    }
}

/// Makes an object of one page that this account pays for. It is refused if the account has a debt.
fn create(script: &mut Script, payer: u64) -> bool {
    push_line(&mut script.input, "1 create 1", &[payer, password(payer)]);
    let row = row_of(script, payer);
    if row.owed > 0 {
        push(&mut script.wanted, "no Debt\n");
        return false;
    }
    let base = 0x1_0000_0000_u64.wrapping_add(script.used.wrapping_mul(4096));
    let given = password(script.draws);
    push_hex_line(&mut script.wanted, "ok", &[base, given]);
    script.draws = script.draws.wrapping_add(1);
    script.used = script.used.wrapping_add(1);
    let pages = row.pages.wrapping_add(1);
    set_account(script, payer, Account { pages, ..row });
    true
}

/// The rate for `used` pages in use.
fn rate_at(used: u64) -> u64 {
    for (from, rate) in STEPS {
        if from <= used {
            return rate;
        }
    }
    0
}

/// Takes what an account pays at this rate, and returns it.
fn pay(row: &mut Account, rate: u64) -> u64 {
    let due = row.owed.wrapping_add(rate.wrapping_mul(row.pages));
    let paid = due.min(row.balance);
    row.balance = row.balance.wrapping_sub(paid);
    row.owed = due.wrapping_sub(paid);
    paid
}

/// Takes what all accounts pay, and returns the sum.
fn pay_all(script: &mut Script, rate: u64) -> u64 {
    let mut sum: u64 = 0;
    for row in script.accounts.iter_mut() {
        sum = sum.wrapping_add(pay(row, rate));
    }
    sum
}

/// Collects rent.
fn collect(script: &mut Script) {
    let rate = rate_at(script.used);
    let sum = pay_all(script, rate);
    add_credits(script, 1, sum);
    script.period = script.period.wrapping_add(1);
    push(&mut script.input, "rent\n");
    push_line(&mut script.wanted, "ok", &[script.period, rate, sum]);
}

/// Makes all objects but the root. The accounts pay in turn, and the treasury for each that has a debt.
fn make_objects(script: &mut Script) {
    for number in 1..OBJECTS {
        if !create(script, number % ACCOUNTS + 1) {
            let _ = create(script, 1);
        }
        if RENTS.contains(&script.used) {
            collect(script);
        }
    }
}

/// Appends a line for the balance of each account.
fn push_balances(script: &mut Script) {
    for number in 1..ACCOUNTS + 1 {
        let row = row_of(script, number);
        let opens = password(number);
        push_line(&mut script.input, "1 balance", &[number, opens]);
        push_line(
            &mut script.wanted,
            "ok",
            &[row.balance, row.owed, row.pages],
        );
    }
}

/// Appends all of these lines. After all accounts and all objects one more of each is refused.
fn write_all(script: &mut Script) {
    let opens = password(1);
    let treasury = Account {
        pages: 1,
        ..with_balance(10_000_000)
    };
    set_account(script, 1, treasury);
    open_accounts(script);
    push_line(&mut script.input, "1 account 1", &[opens, 0]);
    push_line(&mut script.input, "1 account 1", &[opens, 10_000_000]);
    push(&mut script.wanted, "no Limit\nno Credit\n");
    make_objects(script);
    push_line(&mut script.input, "1 create 1 1", &[opens]);
    push_line(&mut script.input, "1 create 1024 1", &[opens]);
    push(&mut script.wanted, "no Limit\nno Limit\n");
    push_balances(script);
    collect(script);
    push_balances(script);
}

/// Opens all accounts on a volume of 1,000 credits. Each new one gets a credit until none is left. Then one more without a credit and
/// one with a credit are refused.
fn write_accounts(script: &mut Script) {
    let opens = password(1);
    let treasury = Account {
        pages: 1,
        ..with_balance(1000)
    };
    set_account(script, 1, treasury);
    for number in 2..ACCOUNTS + 1 {
        open_account(script, number, u64::from(number < 1002));
    }
    push_line(&mut script.input, "1 account 1", &[opens, 0]);
    push_line(&mut script.input, "1 account 1", &[opens, 1]);
    push(&mut script.wanted, "no Limit\nno Credit\n");
    push_balances(script);
}

/// Whether a command with these lines prints just their answers.
fn is_answered(alloc: Global, line: &str, disk: &mut MemDisk, script: &Script) -> bool {
    let streams = Streams {
        room: 1_000_000,
        ..Streams::of(script.input.as_bytes())
    };
    ends(alloc, line, disk, &streams, 0, script.wanted.as_bytes())
}

/// Whether `dry` does, on a disk of which no call may be made.
fn is_answered_dry(alloc: Global, script: &Script) -> bool {
    match MemDisk::new(alloc, 1, 0, Vec::new(alloc)) {
        Ok(mut disk) => is_answered(alloc, DRY, &mut disk, script),
        Err(_) => false,
    }
}

/// Whether `run` does on the volume that these words make, and whether `check` then prints this.
fn is_answered_run(alloc: Global, format: &str, script: &Script, checked: &str) -> (bool, bool) {
    match volume(alloc, format) {
        Ok(mut disk) => {
            let is_answered = is_answered(alloc, "vol run 64", &mut disk, script);
            let is_checked = outputs_for(alloc, "vol check", &mut disk, "", checked);
            (is_answered, is_checked)
        }
        Err(_) => (false, false),
    }
}

fn is_all_answered(alloc: Global, script: &Script) -> (bool, (bool, bool)) {
    (
        is_answered_dry(alloc, script),
        is_answered_run(
            alloc,
            FORMAT,
            script,
            "0 ok 4100 4096 4096 1024 1 11 10000000\n",
        ),
    )
}

/// The same with more than 7,000 lines.
fn is_written_answered(alloc: Global) -> (bool, (bool, bool)) {
    match vec![in alloc; with_balance(0); ACCOUNTS as usize] {
        Ok(accounts) => {
            let mut script = empty_script(alloc, accounts);
            write_all(&mut script);
            is_all_answered(alloc, &script)
        }
        Err(_) => (false, (false, false)),
    }
}

#[test]
fn as_many_accounts_and_objects_as_there_may_be(rt: HostRuntime) -> Result<(), Fail> {
    assert_eq!(rt; is_written_answered(rt.alloc()), (true, (true, true)));
    Ok(())
}

/// The same for the accounts of a volume of 1,000 credits.
fn are_accounts_answered(alloc: Global) -> (bool, bool) {
    match vec![in alloc; with_balance(0); ACCOUNTS as usize] {
        Ok(accounts) => {
            let mut script = empty_script(alloc, accounts);
            write_accounts(&mut script);
            is_answered_run(alloc, MAKING, &script, "0 ok 64 1 1 1024 1 0 1000\n")
        }
        Err(_) => (false, false),
    }
}

#[test]
fn as_many_accounts_as_there_may_be_with_1000_credits(rt: HostRuntime) {
    assert!(rt; are_accounts_answered(rt.alloc()) == (true, true));
}
