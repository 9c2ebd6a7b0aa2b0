// The blocks of 64 rows of accounts.
ghost use Rattle.std.specs.Prelude.{◌≡◌, ◌≤◌, ◌<◌, ◌+◌, ◌*◌, ◌/◌, ◌==◌, ◌||◌, nat_lt, ℕ, length, slice_get, None, Some};
ghost use Rattle.std.specs.Option.{option_map_or};
ghost use Rattle.mg_model.specs.Layout.{body_limit};
ghost use Rattle.mg_pages.specs.Meaning.{staged_of};
ghost use Rattle.mg_rows.specs.Blocks.{account_in};
ghost use Rattle.mg_volume.specs.StagesAccounts.{StagesAccounts};

use mg_disk::{BLOCK_SIZE, Block};
use mg_layout::FIRST_ACCOUNT_BLOCK;
use mg_model::AccRow;
use mg_pages::Pages;
use mg_rows::{MOST_START_ACCOUNTS, accounts_start, put_account};

// The row at a place, if an account has it.
fn row_at(rows: &[AccRow], place: u64) -> Option<&AccRow>
    ensures { option_map_or (λ row. Some row.now) result None ≡ slice_get rows.now place }
{
    rows.get(place as usize)
}

/// Block k of the table, k below 16: the rows of the accounts from place `64 * k` on. After the last account they are free.
pub(crate) fn account_block(rows: &[AccRow], k: u64) -> Block
    requires { k < 16 }
    ensures { (j : ℕ) → j < 64 → account_in result j ≡ Some (slice_get rows.now (64 * k + j)) }
{
    let mut block = [0; BLOCK_SIZE];
    for j in 0..64 {
        put_account(row_at(rows, 64 * k + j), j, &mut block);
    }
    block
}

/// Stages block k of the table, k below 16, as the accounts are.
pub(crate) fn stage_accounts(pages: &mut Pages, rows: &[AccRow], k: u64)
    requires block { k < 16 }
    requires fewer_than_160_staged { staged_of pages.old < body_limit }
    ensures { StagesAccounts 1 (λ i. i == k) rows.now pages.old pages.new }
{
    if rows.len() <= 64 * k as usize + MOST_START_ACCOUNTS {
        stage_few(pages, rows, k);
    } else {
        stage_many(pages, rows, k);
    }
}

// The same where the block has at most 8 accounts: no more than their rows are spelled.
#[inline(never)]
fn stage_few(pages: &mut Pages, rows: &[AccRow], k: u64)
    requires block { k < 16 }
    requires few { length rows.now ≤ 64 * k + 8 }
    requires fewer_than_160_staged { staged_of pages.old < body_limit }
    ensures { StagesAccounts 1 (λ i. i == k) rows.now pages.old pages.new }
{
    let start = accounts_start(rows, 64 * k as usize);
    pages.stage_start(FIRST_ACCOUNT_BLOCK + k, &start);
}

// The same for any number of accounts.
#[inline(never)]
fn stage_many(pages: &mut Pages, rows: &[AccRow], k: u64)
    requires block { k < 16 }
    requires fewer_than_160_staged { staged_of pages.old < body_limit }
    ensures { StagesAccounts 1 (λ i. i == k) rows.now pages.old pages.new }
{
    let block = account_block(rows, k);
    pages.stage(FIRST_ACCOUNT_BLOCK + k, &block);
}

/// Stages two blocks of the table, which may be the same.
pub(crate) fn stage_both(pages: &mut Pages, rows: &[AccRow], j: u64, k: u64)
    requires first { j < 16 }
    requires second { k < 16 }
    requires at_most_158_staged { staged_of pages.old ≤ 158 }
    ensures { StagesAccounts 2 (λ i. (i == j) || (i == k)) rows.now pages.old pages.new }
{
    stage_accounts(pages, rows, j);
    stage_accounts(pages, rows, k);
}

/// Stages the first `count` blocks of the table, at most 16.
pub(crate) fn stage_first(pages: &mut Pages, rows: &[AccRow], count: u64)
    requires n_at_most_16 { count ≤ 16 }
    requires at_most_144_staged { staged_of pages.old ≤ 144 }
    ensures { StagesAccounts 16 (λ k. nat_lt k count) rows.now pages.old pages.new }
{
    for k in 0..count {
        stage_accounts(pages, rows, k);
    }
}
