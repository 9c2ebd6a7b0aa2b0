// The frame table, read into frames that hold no page yet.
ghost use Rattle.std.specs.Prelude.{◌≡◌, ◌≤◌, ◌+◌, ◌*◌, ◌<◌, OnOk, length, true};
ghost use Rattle.std.specs.Option.{ForSome};
ghost use Rattle.mg_disk.specs.Disk.{block_at};
ghost use Rattle.mg_disk.specs.Reads.{OnlyReads};
ghost use Rattle.mg_journal.specs.Standing.{Stands, total_of};
ghost use Rattle.mg_model.specs.Abbreviations.{table_of};
ghost use Rattle.mg_model.specs.Bytes.{are_zeros};
ghost use Rattle.mg_model.specs.Layout.{table_block};
ghost use Rattle.mg_model.specs.Tests.{all_distinct};
ghost use Rattle.mg_model.specs.Volume.{bound_pages};
ghost use Rattle.mg_pages.specs.Held.{IsSound};
ghost use Rattle.mg_pages.specs.Loading.{AreFreeFrom, HoldFirstEntries, LoadsBlock, entry_bound};
ghost use Rattle.mg_pages.specs.Meaning.{replayed};

use crate::blocks::Blocks;
use crate::words::word_at;
use mg_bytes::{BLOCK_WORDS, Geometry};
use mg_disk::{BLOCK_SIZE, Block, Disk};
use mg_faults::Failed;
use mg_frames::Frames;
use mg_model::layout::TABLE_BLOCK;

// Binds a page to a frame, which is free. Past the last frame, and if the page is 0 or is bound already, nothing is done.
fn bind_entry(frames: &mut Frames, frame: u64, page: u64)
    requires free { AreFreeFrom frame frames.old }
    ensures { frames.new ≡ entry_bound frames.old frame page }
{
    if frame >= frames.len() || page == 0 {
        return;
    }
    match frames.bound_frame(page) {
        Some(_) => {}
        None => frames.put(frame, page),
    }
}

// Binds the pages of block `k` of the frame table.
fn bind_entries(frames: &mut Frames, k: u64, block: &Block)
    requires block { k < 128 }
    requires free { AreFreeFrom (512 * k) frames.old }
    ensures loads { LoadsBlock k block.now frames.old frames.new }
    ensures free { AreFreeFrom (512 * (k + 1)) frames.new }
    ensures count { length frames.new ≡ length frames.old }
{
    for j in 0..BLOCK_WORDS {
        bind_entry(frames, BLOCK_WORDS * k + j, word_at(block, j));
    }
}

// Reads block `k` of the frame table, and binds its pages.
fn load_block<D: Disk>(
    blocks: &Blocks,
    frames: &mut Frames,
    disk: &mut D,
    k: u64,
) -> Result<(), Failed>
    requires stands { Stands D.Disk blocks.now.store disk.old }
    requires block { k < 128 }
    requires place { table_block + k < total_of blocks.now.store }
    requires free { AreFreeFrom (512 * k) frames.old }
    ensures loads { OnOk result (ForSome (D.seen disk.old) (λ image. LoadsBlock k (block_at (replayed (total_of blocks.now.store) image) (table_block + k)) frames.old frames.new)) }
    ensures free { OnOk result (AreFreeFrom (512 * (k + 1)) frames.new) }
    ensures count { length frames.new ≡ length frames.old }
    ensures stands { Stands D.Disk blocks.now.store disk.new }
    ensures reads { OnlyReads D.Disk disk.old disk.new result }
{
    let mut block = [0; BLOCK_SIZE];
    match blocks.contents(disk, TABLE_BLOCK + k, &mut block) {
        Ok(()) => {
            bind_entries(frames, k, &block);
            Ok(())
        }
        Err(Failed) => Err(Failed),
    }
}

/// Binds the pages of the frame table to frames that hold none: those that its entries have, but a page that is bound already.
/// [`Failed`] comes from a read; some pages may be bound then.
pub(crate) fn load_pages<D: Disk>(
    blocks: &Blocks,
    frames: &mut Frames,
    disk: &mut D,
) -> Result<(), Failed>
    requires stands { Stands D.Disk blocks.now.store disk.old }
    requires sound { IsSound (total_of blocks.now.store) frames.old blocks.now.writes }
    requires unbound { are_zeros frames.old ≡ true }
    ensures first_entries { OnOk result (ForSome (D.seen disk.old) (λ image. HoldFirstEntries (table_of (replayed (total_of blocks.now.store) image) (length frames.old)) frames.new)) }
    ensures table { OnOk result (ForSome (D.seen disk.old) (λ image. all_distinct (bound_pages (table_of (replayed (total_of blocks.now.store) image) (length frames.old))) ≡ true → frames.new ≡ table_of (replayed (total_of blocks.now.store) image) (length frames.old))) }
    ensures count { length frames.new ≡ length frames.old }
    ensures stands { Stands D.Disk blocks.now.store disk.new }
    ensures reads { OnlyReads D.Disk disk.old disk.new result }
{
    for k in 0..Geometry::of(frames.len()).table {
        match load_block(blocks, frames, disk, k) {
            Ok(()) => {}
            Err(Failed) => return Err(Failed),
        }
    }
    Ok(())
}
