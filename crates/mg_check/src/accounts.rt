// The table of accounts.
ghost use Rattle.std.specs.Prelude.{◌≡◌, ◌≢◌, ◌≤◌, ◌+◌, ◌/◌, ◌%◌, IfOk, false, length, vec_capacity};
ghost use Rattle.mg_model.specs.Layout.{first_account_block, first_thread_block};
ghost use Rattle.mg_model.specs.Limits.{account_limit};
ghost use Rattle.mg_model.specs.Volume.{has_no_gap};
ghost use Rattle.mg_rows.specs.Blocks.{account_in};
ghost use Rattle.mg_rows.specs.Laws.{IsAccountRow};
ghost use Rattle.mg_rules.specs.RowsRead.{placed_from};

use crate::lists::{add, with_room};
use crate::table_rows::TableRow;
use mg_disk::Block;
use mg_journal::ViewFault;
use mg_layout::{FIRST_ACCOUNT_BLOCK, FIRST_THREAD_BLOCK};
use mg_model::AccRow;
use mg_model::limits::ACCOUNT_LIMIT;
use mg_rows::{Spelled, account_in};
use std::alloc::Global;

/// How many rows a block has.
const IN_BLOCK: u64 = 64;

impl TableRow for AccRow {
    ghost ROWS = { account_limit };

    const ROWS: u64 = ACCOUNT_LIMIT as u64;

    ghost block_at = { λ i. first_account_block + i / 64 };

    ghost END = { first_thread_block };

    const END: u64 = FIRST_THREAD_BLOCK;

    ghost spelled = { λ block i. account_in block (i % 64) };

    ghost IsKept = { IsAccountRow };

    fn block_at(i: u64) -> u64 {
        FIRST_ACCOUNT_BLOCK + i / IN_BLOCK
    }

    fn read(block: &Block, i: u64) -> Option<Spelled<AccRow>> {
        account_in(block, i % IN_BLOCK)
    }
}

/// These accounts without their places. They are damaged if these are not the first ones, one after another.
pub(crate) fn without_places(
    alloc: Global,
    rows: &[(u64, AccRow)],
) -> Result<Vec<AccRow>, ViewFault>
    ensures same { IfOk result (λ accounts. placed_from 0 accounts.items ≡ rows.now) }
    ensures long { IfOk result (λ accounts. length accounts.items ≡ length rows.now) }
    ensures has_capacity { IfOk result (λ accounts. account_limit ≤ vec_capacity accounts) }
    ensures damaged { result ≡ Err ViewFault.Damaged → has_no_gap 0 rows.now ≡ false }
    ensures no_disk { result ≢ Err ViewFault.Disk }
{
    let mut accounts = with_room(alloc, ACCOUNT_LIMIT)?;
    for (place, row) in rows {
        if *place != accounts.len() as u64 {
            return Err(ViewFault::Damaged);
        }
        add(&mut accounts, *row)?;
    }
    Ok(accounts)
}
