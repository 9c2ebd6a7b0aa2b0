// Tables of rows.
ghost use Rattle.std.specs.Prelude.{◌≡◌, ◌≢◌, ◌≤◌, ◌<◌, ◌+◌, ℕ, List, IfOk, OnOk, None, Some, length, vec_capacity};
ghost use Rattle.std.specs.Option.{ForSome};
ghost use Rattle.mg_disk.specs.Reads.{OnlyReadsBy};
ghost use Rattle.mg_model.specs.Layout.{table_block};
ghost use Rattle.mg_model.specs.Replay.{block_of};
ghost use Rattle.mg_model.specs.Spelling.{Read};
ghost use Rattle.mg_rows.specs.Answers.{as_read};
ghost use Rattle.mg_check.specs.Reads.{CanRead, contents};
ghost use Rattle.mg_rules.specs.RowsRead.{ArePlaced, live_from};
ghost use Rattle.mg_rules.specs.TableRows.{AreLive, EachKeeps, NotSpelled, TakesRow};

use crate::lists::{add, with_room};
use crate::reading::{BlockRun, Contents};
use mg_disk::{Block, Disk};
use mg_faults::Failed;
use mg_journal::ViewFault;
use mg_rows::Spelled;
use std::alloc::Global;

/// A row of a table: where the table lies, and what a place of it spells.
pub(crate) trait TableRow: Copy {
    ghost ROWS: { ℕ };

    /// How many rows the table has.
    const ROWS: u64;

    /// The block of the volume that row `i` lies in.
    ghost block_at: { ℕ → ℕ };

    /// The block after the table.
    ghost END: { ℕ };

    /// The block after the table.
    const END: u64;

    /// What row `i` spells in its block.
    ghost spelled: { List ℕ → ℕ → Read Self };

    /// What every row of the table keeps.
    ghost IsKept: { Self → Type 0 };

    /// The block of the volume that row `i` lies in.
    fn block_at(i: u64) -> u64
        requires { i < ROWS }
        ensures place { result ≡ block_at i }
        ensures within { result < END }
        ensures before { END ≤ table_block };

    /// What row `i` spells in its block.
    fn read(block: &Block, i: u64) -> Option<Spelled<Self>>
        requires { i < ROWS }
        ensures spelled { as_read result ≡ spelled block.now i }
        ensures kept { (row : Self) → as_read result ≡ Some (Some row) → IsKept row };
}

// Takes row `i` of the table out of its block.
fn take<R: TableRow>(rows: &mut Vec<(u64, R)>, i: u64, block: &Block) -> Result<(), ViewFault>
    requires place { i < R.ROWS }
    ensures taken { OnOk result (TakesRow (R.spelled block.now i) R.IsKept i rows.old.items rows.new.items) }
    ensures damaged { result ≡ Err ViewFault.Damaged → R.spelled block.now i ≡ None }
    ensures no_disk { result ≢ Err ViewFault.Disk }
    ensures keeps_capacity { vec_capacity rows.old ≤ vec_capacity rows.new }
{
    let found = R::read(block, i);
    match &found {
        Some(spelled) => match spelled {
            Spelled::Row(row) => add(rows, (i, *row)),
            Spelled::Free => Ok(()),
        },
        None => Err(ViewFault::Damaged),
    }
}

/// Reads all rows of a table, each with its place, in the order of these places.
pub(crate) fn read_all<R: TableRow, C: Contents, D: Disk>(
    alloc: Global,
    view: &C,
    disk: &mut D,
) -> Result<Vec<(u64, R)>, ViewFault>
    requires within_view { table_block ≤ C.total view.now }
    requires can { CanRead D.Disk (C.need view.now) (C.Fits view.now) disk.old }
    ensures told { IfOk result (λ rows. ForSome (contents D.Disk (C.of view.now) disk.old) (λ r. AreLive (λ i. R.spelled (block_of r (R.block_at i)) i) R.ROWS rows.items)) }
    ensures damaged { result ≡ Err ViewFault.Damaged → ForSome (contents D.Disk (C.of view.now) disk.old) (λ r. NotSpelled (λ i. R.spelled (block_of r (R.block_at i)) i) R.ROWS) }
    ensures placed { IfOk result (λ rows. ArePlaced R.ROWS rows.items) }
    ensures kept { IfOk result (λ rows. EachKeeps R.IsKept rows.items) }
    ensures has_capacity { IfOk result (λ rows. R.ROWS ≤ vec_capacity rows) }
    ensures reads { OnlyReadsBy D.Disk disk.old disk.new (result ≡ Err ViewFault.Disk) }
{
    let mut rows = with_room(alloc, R::ROWS as usize)?;
    let mut run = BlockRun::new();
    for i in 0..R::ROWS {
        let block = R::block_at(i);
        match run.turn_to(view, disk, block, R::END) {
            Ok(()) => {}
            Err(Failed) => return Err(ViewFault::Disk),
        }
        take(&mut rows, i, run.block(block))?;
    }
    Ok(rows)
}

// Adds free places after the others, until there are `count` places.
fn fill_to<R: TableRow>(rows: &mut Vec<Option<R>>, count: u64) -> Result<(), ViewFault>
    requires within { length rows.old.items ≤ count }
    ensures long { OnOk result (length rows.new.items ≡ count) }
    ensures live { OnOk result (live_from 0 rows.new.items ≡ live_from 0 rows.old.items) }
    ensures memory { result ≢ Err ViewFault.Damaged }
    ensures no_disk { result ≢ Err ViewFault.Disk }
    ensures keeps_capacity { vec_capacity rows.old ≤ vec_capacity rows.new }
{
    for _ in rows.len() as u64..count {
        add(rows, None)?;
    }
    Ok(())
}

// Adds row `i` of the table in its place. If there is none, nothing is added.
fn put<R: TableRow>(rows: &mut Vec<Option<R>>, i: u64, block: &Block) -> Result<(), ViewFault>
    requires place { i < R.ROWS }
    requires next { length rows.old.items ≤ i }
    ensures taken { OnOk result (TakesRow (R.spelled block.now i) R.IsKept i (live_from 0 rows.old.items) (live_from 0 rows.new.items)) }
    ensures damaged { result ≡ Err ViewFault.Damaged → R.spelled block.now i ≡ None }
    ensures no_disk { result ≢ Err ViewFault.Disk }
    ensures long { OnOk result (length rows.new.items ≤ i + 1) }
    ensures keeps_capacity { vec_capacity rows.old ≤ vec_capacity rows.new }
{
    let found = R::read(block, i);
    match &found {
        Some(spelled) => match spelled {
            Spelled::Row(row) => {
                fill_to(rows, i)?;
                add(rows, Some(*row))
            }
            Spelled::Free => Ok(()),
        },
        None => Err(ViewFault::Damaged),
    }
}

/// Reads the places of a table: the row in each, or that there is none, up to the last that has one. There is room for all.
pub(crate) fn read_places<R: TableRow, C: Contents, D: Disk>(
    alloc: Global,
    view: &C,
    disk: &mut D,
) -> Result<Vec<Option<R>>, ViewFault>
    requires within_view { table_block ≤ C.total view.now }
    requires can { CanRead D.Disk (C.need view.now) (C.Fits view.now) disk.old }
    ensures told { IfOk result (λ rows. ForSome (contents D.Disk (C.of view.now) disk.old) (λ r. AreLive (λ i. R.spelled (block_of r (R.block_at i)) i) R.ROWS (live_from 0 rows.items))) }
    ensures damaged { result ≡ Err ViewFault.Damaged → ForSome (contents D.Disk (C.of view.now) disk.old) (λ r. NotSpelled (λ i. R.spelled (block_of r (R.block_at i)) i) R.ROWS) }
    ensures long { IfOk result (λ rows. length rows.items ≤ R.ROWS) }
    ensures placed { IfOk result (λ rows. ArePlaced R.ROWS (live_from 0 rows.items)) }
    ensures kept { IfOk result (λ rows. EachKeeps R.IsKept (live_from 0 rows.items)) }
    ensures has_capacity { IfOk result (λ rows. R.ROWS ≤ vec_capacity rows) }
    ensures reads { OnlyReadsBy D.Disk disk.old disk.new (result ≡ Err ViewFault.Disk) }
{
    let mut rows = with_room(alloc, R::ROWS as usize)?;
    let mut run = BlockRun::new();
    for i in 0..R::ROWS {
        let block = R::block_at(i);
        match run.turn_to(view, disk, block, R::END) {
            Ok(()) => {}
            Err(Failed) => return Err(ViewFault::Disk),
        }
        put(&mut rows, i, run.block(block))?;
    }
    Ok(rows)
}
