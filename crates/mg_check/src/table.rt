// The frame table of a volume.
ghost use Rattle.std.specs.Prelude.{◌≡◌, ◌≢◌, ◌≤◌, ◌+◌, ◌%◌, ◌==◌, ℕ, IfOk, OnOk, false, [], length, min};
ghost use Rattle.std.specs.Option.{ForSome};
ghost use Rattle.mg_disk.specs.Reads.{OnlyReadsBy};
ghost use Rattle.mg_model.specs.Layout.{first_frame};
ghost use Rattle.mg_check.specs.Reads.{CanRead, contents};
ghost use Rattle.mg_rules.specs.TableTold.{AreEntries, HasRest, IsTable, entry_in};

use crate::lists::{add, with_room};
use crate::reading::{BlockRun, Contents};
use mg_disk::{Block, Disk};
use mg_faults::Failed;
use mg_journal::ViewFault;
use mg_layout::{BLOCK_WORDS, TABLE_BLOCK, number_at};
use std::alloc::Global;

// Takes the entry of this frame out of its block of the table; there are `frames` frames.
fn take(table: &mut Vec<u64>, frame: u64, block: &Block, frames: u64) -> Result<(), ViewFault>
    ensures told { OnOk result ((entry : ℕ → ℕ) → entry frame ≡ entry_in block.now frame → AreEntries entry frame frames table.old.items → AreEntries entry (frame + 1) frames table.new.items) }
    ensures long { OnOk result (length table.old.items ≡ min frame frames → length table.new.items ≡ min (frame + 1) frames) }
    ensures damaged { result ≡ Err ViewFault.Damaged → (entry_in block.now frame == 0) ≡ false }
    ensures behind { result ≡ Err ViewFault.Damaged → frames ≤ frame }
    ensures no_disk { result ≢ Err ViewFault.Disk }
{
    let page = number_at(block, 8 * (frame % BLOCK_WORDS) as usize);
    if frame < frames {
        return add(table, page);
    }
    if page == 0 {
        Ok(())
    } else {
        Err(ViewFault::Damaged)
    }
}

/// Reads the frame table of this number of frames.
pub(crate) fn read_table<C: Contents, D: Disk>(
    alloc: Global,
    view: &C,
    disk: &mut D,
    frames: u64,
) -> Result<Vec<u64>, ViewFault>
    requires at_most_65536_frames { frames ≤ 65536 }
    requires within_view { first_frame frames ≤ C.total view.now }
    requires can { CanRead D.Disk (C.need view.now) (C.Fits view.now) disk.old }
    ensures told { IfOk result (λ table. ForSome (contents D.Disk (C.of view.now) disk.old) (λ r. IsTable r frames table.items)) }
    ensures long { IfOk result (λ table. length table.items ≡ frames) }
    ensures damaged { result ≡ Err ViewFault.Damaged → ForSome (contents D.Disk (C.of view.now) disk.old) (λ r. HasRest r frames) }
    ensures reads { OnlyReadsBy D.Disk disk.old disk.new (result ≡ Err ViewFault.Disk) }
{
    let mut table = with_room(alloc, frames as usize)?;
    let mut run = BlockRun::new();
    let blocks = (frames + BLOCK_WORDS - 1) / BLOCK_WORDS;
    let (all, end) = (BLOCK_WORDS * blocks, TABLE_BLOCK + blocks);
    for f in 0..all {
        let block = TABLE_BLOCK + f / BLOCK_WORDS;
        match run.turn_to(view, disk, block, end) {
            Ok(()) => {}
            Err(Failed) => return Err(ViewFault::Disk),
        }
        take(&mut table, f, run.block(block), frames)?;
    }
    Ok(table)
}
