// The frames of released pages, and the blocks of the frame table that change.
ghost use Rattle.std.specs.Prelude.{◌≡◌, ◌+◌, ◌/◌, ◌≤◌, ◌<◌, ℕ, false, true, length, map, slice_index, slice_index_or};
ghost use Rattle.mg_frames.specs.Words.{is_within, unless_within};
ghost use Rattle.mg_model.specs.Layout.{body_limit, table_blocks};
ghost use Rattle.mg_journal.specs.Staged.{are_once};
ghost use Rattle.mg_pages.specs.Held.{with_writes};
ghost use Rattle.mg_pages.specs.Parts.{StagesTable};

use crate::blocks::Blocks;
use crate::table::entries_block;
use mg_bytes::{BLOCK_WORDS, Geometry};
use mg_frames::Frames;
use mg_model::layout::TABLE_BLOCK;

/// The most blocks that a frame table has.
const MOST_BLOCKS: usize = 128;

/// Frees the frames of all pages in a range, and stages each block of the frame table that changes.
pub(crate) fn release_pages(blocks: &mut Blocks, frames: &mut Frames, first: u64, pages: u64)
    requires at_least_16_frames { 16 ≤ length frames.old }
    requires at_most_65536_frames { length frames.old ≤ 65536 }
    requires once { are_once blocks.old.writes ≡ true }
    requires at_most_32_writes { length blocks.old.writes + 128 ≤ body_limit }
    ensures frames { frames.new ≡ map (unless_within first pages) frames.old }
    ensures staged { StagesTable frames.old frames.new (table_blocks (length frames.old)) blocks.old.writes blocks.new.writes }
    ensures keeps { blocks.new ≡ with_writes blocks.old blocks.new.writes }
{
    let changed = blocks_with(frames.as_slice(), first, pages);
    frames.release_range(first, pages);
    for k in 0..Geometry::of(frames.len()).table {
        if changed[k as usize] {
            blocks.stage(TABLE_BLOCK + k, &entries_block(frames.as_slice(), k));
        }
    }
}

// Which blocks of the frame table name a page of a range.
fn blocks_with(frames: &[u64], first: u64, pages: u64) -> [bool; MOST_BLOCKS]
    requires { length frames.now ≤ 65536 }
    ensures { (i : ℕ) → i < length frames.now → slice_index_or result (i / 512) true ≡ false → is_within first pages (slice_index frames.now i) ≡ false }
{
    let mut found = [false; MOST_BLOCKS];
    for (i, page) in frames.iter().enumerate() {
        if lies_within(*page, first, pages) {
            found[i / BLOCK_WORDS as usize] = true;
        }
    }
    found
}

// Whether a page lies in a range.
fn lies_within(page: u64, first: u64, pages: u64) -> bool
    ensures { result ≡ is_within first pages page }
{
    first <= page && page - first < pages
}
