// A store to a word of a page, as blocks that are staged.
ghost use Rattle.std.specs.Prelude.{◌≡◌, ◌≢◌, ◌⊎◌, ◌+◌, ◌/◌, ◌≤◌, ◌<◌, ◌==◌, OnErr, OnOk, false, length, replicate, slice_set, true};
ghost use Rattle.std.specs.List.{list_any};
ghost use Rattle.mg_journal.specs.Standing.{Stands, total_of};
ghost use Rattle.mg_model.specs.Bytes.{block_words};
ghost use Rattle.mg_model.specs.Layout.{body_limit};
ghost use Rattle.mg_pages.specs.Held.{IsSound, with_writes};
ghost use Rattle.mg_pages.specs.Parts.{Begins, LooksAt, Stores};

use crate::blocks::Blocks;
use crate::near::Near;
use crate::table::{entries_block, frame_block};
use crate::words::put_word;
use mg_bytes::BLOCK_WORDS;
use mg_disk::{BLOCK_SIZE, Disk};
use mg_faults::Failed;
use mg_frames::Frames;
use mg_model::layout::TABLE_BLOCK;

/// Writes a word at an index of a page. [`Failed`] comes from a read, before anything is changed.
pub(crate) fn store_word<D: Disk>(
    blocks: &mut Blocks,
    frames: &mut Frames,
    near: &mut Near,
    disk: &mut D,
    page: u64,
    index: u64,
    value: u64,
) -> Result<(), Failed>
    requires stands { Stands D.Disk blocks.old.store disk.old }
    requires sound { IsSound (total_of blocks.old.store) frames.old blocks.old.writes }
    requires page { page ≢ 0 }
    requires frame { (list_any (λ entry. entry == page) frames.old ≡ true) ⊎ (list_any (λ entry. entry == 0) frames.old ≡ true) }
    requires index { index < 512 }
    requires at_most_158_writes { length blocks.old.writes + 2 ≤ body_limit }
    ensures stored { OnOk result (Stores (D.seen disk.old) blocks.old.store blocks.old.kept page index value frames.old frames.new blocks.old.writes blocks.new.writes) }
    ensures failed { OnErr result ((frames.new ≡ frames.old) × (blocks.new.writes ≡ blocks.old.writes)) }
    ensures looks { LooksAt D.Disk blocks.old blocks.new disk.old disk.new result }
{
    match near.frame_of(frames, page) {
        Some(frame) => blocks.set_word(disk, frame_block(frames.len(), frame), index, value),
        None => {
            begin(blocks, frames, page, index, value);
            Ok(())
        }
    }
}

// Binds a page to the lowest free frame and stages the frame's block, zeros but for one word, and the frame table's block.
fn begin(blocks: &mut Blocks, frames: &mut Frames, page: u64, index: u64, value: u64)
    requires at_least_16_frames { 16 ≤ length frames.old }
    requires page { page ≢ 0 }
    requires unbound { list_any (λ entry. entry == page) frames.old ≡ false }
    requires free { list_any (λ entry. entry == 0) frames.old ≡ true }
    requires index { index < 512 }
    requires at_most_158_writes { length blocks.old.writes + 2 ≤ body_limit }
    ensures begins { Begins page frames.old frames.new blocks.old.writes blocks.new.writes (λ bytes. block_words bytes ≡ slice_set (replicate 512 0) index value) }
    ensures keeps { blocks.new ≡ with_writes blocks.old blocks.new.writes }
{
    let frame = frames.bind(page);
    let mut fresh = [0; BLOCK_SIZE];
    put_word(&mut fresh, index, value);
    blocks.stage(frame_block(frames.len(), frame), &fresh);
    let k = frame / BLOCK_WORDS;
    blocks.stage(TABLE_BLOCK + k, &entries_block(frames.as_slice(), k));
}
