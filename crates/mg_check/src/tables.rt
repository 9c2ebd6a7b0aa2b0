// All tables of a volume.
ghost use Rattle.std.specs.Prelude.{◌≡◌, ◌≤◌, IfOk, Some};
ghost use Rattle.std.specs.Option.{ForSome};
ghost use Rattle.mg_disk.specs.Reads.{OnlyReadsBy};
ghost use Rattle.mg_check.specs.Reads.{CanRead, contents};
ghost use Rattle.mg_rules.specs.RowsRead.{AreHeld, AreKept};
ghost use Rattle.mg_rules.specs.RowsTold.{AreTold, HasNoState, NoCounters, TellsRows};
ghost use Rattle.mg_model.specs.Layout.{globals_block, table_block, total_blocks};
ghost use Rattle.mg_model.specs.Replay.{block_of};
ghost use Rattle.mg_model.specs.Spelling.{globals_read};

use crate::accounts::without_places;
use crate::reading::{Contents, read_block};
use crate::table::read_table;
use crate::table_rows::{read_all, read_places};
use mg_disk::{BLOCK_SIZE, Disk};
use mg_faults::Failed;
use mg_journal::ViewFault;
use mg_layout::GLOBALS_BLOCK;
use mg_model::{AccRow, Globals, Params};
use mg_rows::read_globals;
use mg_rules::VolumeRows;
use std::alloc::Global;

// Reads the globals.
fn read_counters<C: Contents, D: Disk>(view: &C, disk: &mut D) -> Result<Globals, ViewFault>
    requires within_view { table_block ≤ C.total view.now }
    requires can { CanRead D.Disk (C.need view.now) (C.Fits view.now) disk.old }
    ensures told { IfOk result (λ counters. ForSome (contents D.Disk (C.of view.now) disk.old) (λ r. globals_read (block_of r globals_block) ≡ Some counters)) }
    ensures damaged { result ≡ Err ViewFault.Damaged → ForSome (contents D.Disk (C.of view.now) disk.old) (λ r. NoCounters r) }
    ensures reads { OnlyReadsBy D.Disk disk.old disk.new (result ≡ Err ViewFault.Disk) }
{
    let mut block = [0; BLOCK_SIZE];
    match read_block(view, disk, GLOBALS_BLOCK, &mut block) {
        Ok(()) => match read_globals(&block) {
            Some(globals) => Ok(globals),
            None => Err(ViewFault::Damaged),
        },
        Err(Failed) => Err(ViewFault::Disk),
    }
}

// Reads all tables of a volume with these settings, in the order in which they lie after the journal.
fn read_tables<C: Contents, D: Disk>(
    alloc: Global,
    view: &C,
    disk: &mut D,
    params: &Params,
) -> Result<VolumeRows, ViewFault>
    requires within_view { total_blocks params.now.frames ≤ C.total view.now }
    requires can { CanRead D.Disk (C.need view.now) (C.Fits view.now) disk.old }
    ensures told { IfOk result (λ rows. ForSome (contents D.Disk (C.of view.now) disk.old) (AreTold rows)) }
    ensures params { IfOk result (λ rows. rows.params ≡ params.now) }
    ensures held { IfOk result AreHeld }
    ensures damaged { result ≡ Err ViewFault.Damaged → ForSome (contents D.Disk (C.of view.now) disk.old) (HasNoState params.now) }
    ensures reads { OnlyReadsBy D.Disk disk.old disk.new (result ≡ Err ViewFault.Disk) }
{
    let frames = params.frames();
    let globals = read_counters(view, disk)?;
    let placed: Vec<(u64, AccRow)> = read_all(alloc, view, disk)?;
    let accounts = without_places(alloc, &placed)?;
    let threads = read_all(alloc, view, disk)?;
    let objects = read_places(alloc, view, disk)?;
    let table = read_table(alloc, view, disk, frames)?;
    Ok(VolumeRows {
        params: *params,
        globals,
        accounts,
        threads,
        objects,
        table,
    })
}

/// Reads the tables of a volume with these settings out of its contents: the rows and the frame table, which keep the rules of a
/// volume, whatever the disk reads. It writes nothing, and reads each block of a table once.
///
/// [`ViewFault::Damaged`] comes exactly if the contents that reads give spell no state with these settings;
/// [`ViewFault::Disk`] only if a call of the disk failed.
pub fn read_rows<C: Contents, D: Disk>(
    alloc: Global,
    view: &C,
    disk: &mut D,
    params: &Params,
) -> Result<VolumeRows, ViewFault>
    requires within_view { total_blocks params.now.frames ≤ C.total view.now }
    requires can { CanRead D.Disk (C.need view.now) (C.Fits view.now) disk.old }
    ensures told { IfOk result (λ rows. ForSome (contents D.Disk (C.of view.now) disk.old) (TellsRows params.now rows)) }
    ensures params { IfOk result (λ rows. rows.params ≡ params.now) }
    ensures kept { IfOk result AreKept }
    ensures damaged { result ≡ Err ViewFault.Damaged → ForSome (contents D.Disk (C.of view.now) disk.old) (HasNoState params.now) }
    ensures reads { OnlyReadsBy D.Disk disk.old disk.new (result ≡ Err ViewFault.Disk) }
{
    let rows = read_tables(alloc, view, disk, params)?;
    match rows.fit(alloc) {
        Ok(true) => Ok(rows),
        Ok(false) => Err(ViewFault::Damaged),
        Err(_) => Err(ViewFault::Memory),
    }
}
