// The rows of accounts.
ghost use Rattle.std.specs.Prelude.{◌≡◌, ◌≤◌, ◌<◌, ◌+◌, ℕ, replicate, length, slice_get, Some};
ghost use Rattle.std.specs.Option.{option_map_or};
ghost use Rattle.mg_model.specs.Bytes.{padded_to};
ghost use Rattle.mg_model.specs.Layout.{block_size};
ghost use Rattle.mg_model.specs.Spelling.{account_bytes, account_read};
ghost use Rattle.mg_rows.specs.Answers.{as_read};
ghost use Rattle.mg_rows.specs.Blocks.{account_in};

use crate::bytes::copy_to;
use crate::spelled::Spelled;
use mg_layout::{Filling, are_zeros, number_at};
use mg_model::AccRow;
use mg_model::layout::ACCOUNT_SIZE;

/// How many accounts [`accounts_start`] has room for.
pub const MOST_START_ACCOUNTS: usize = 8;

/// How many bytes they take.
pub const ACCOUNTS_START: usize = 512;

/// What 64 bytes spell of an account.
pub fn read_account(bytes: &[u8]) -> Option<Spelled<AccRow>>
    requires { length bytes.now ≡ 64 }
    ensures { as_read result ≡ account_read bytes.now }
{
    if are_zeros(bytes) {
        return Some(Spelled::Free);
    }
    let row = AccRow {
        password: number_at(bytes, 8),
        balance: number_at(bytes, 16),
        owed: number_at(bytes, 24),
    };
    let spelled = spelling(&row);
    if spelled[..] == bytes[..] {
        Some(Spelled::Row(row))
    } else {
        None
    }
}

/// Spells an account, or a free row, in 64 bytes. It is read back.
pub fn write_account(row: Option<&AccRow>, out: &mut [u8])
    requires { length out.old ≡ 64 }
    ensures spelled { out.new ≡ option_map_or (λ row. account_bytes row.now) row.entry (replicate 64 0) }
    ensures read_back { account_read out.new ≡ Some (option_map_or (λ row. Some row.now) row.entry None) }
{
    match row {
        Some(row) => copy_to(&spelling(row), out),
        None => copy_to(&[0; ACCOUNT_SIZE], out),
    }
}

/// The bytes that a block of accounts begins with, whose rows are those from place `first` on: at most 8, the last ones of
/// the list. After them the block has zeros, which are free rows.
pub fn accounts_start(rows: &[AccRow], first: usize) -> [u8; ACCOUNTS_START]
    requires few { length rows.now ≤ first + 8 }
    ensures { (j : ℕ) → j < 64 → account_in (padded_to block_size result) j ≡ Some (slice_get rows.now (first + j)) }
{
    let mut filling = Filling::new();
    for j in 0..rows.len().saturating_sub(first) {
        filling.add(&spelling(&rows[first + j]));
    }
    filling.whole()
}

// The bytes of this account.
fn spelling(row: &AccRow) -> [u8; ACCOUNT_SIZE]
    ensures spelled { result ≡ account_bytes row.now }
    ensures read_back { account_read result ≡ Some (Some row.now) }
{
    let mut filling = Filling::new();
    filling.add_words(&[1, row.password, row.balance, row.owed]);
    filling.whole()
}
