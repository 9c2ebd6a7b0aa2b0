// The frame table: one entry of 8 bytes a frame.
ghost use Rattle.std.specs.Prelude.{◌≡◌, ◌+◌, ◌*◌, ◌≤◌, ◌<◌, slice_index};
ghost use Rattle.mg_model.specs.Layout.{first_frame};
ghost use Rattle.mg_pages.specs.Entries.{HoldsEntries};

use crate::words::put_word;
use mg_bytes::{BLOCK_WORDS, Geometry};
use mg_disk::{BLOCK_SIZE, Block};
use mg_model::layout::TABLE_BLOCK;

/// The block of a frame, on a volume with this number of frames.
pub(crate) fn frame_block(frames: u64, frame: u64) -> u64
    requires at_least_16_frames { 16 ≤ frames }
    requires at_most_65536_frames { frames ≤ 65536 }
    requires frame { frame < frames }
    ensures { result ≡ first_frame frames + frame }
{
    Geometry::of(frames).first_frame + frame
}

/// The block of the first frame, on a volume with this number of frames.
pub(crate) fn first_block(frames: u64) -> u64
    requires at_least_16_frames { 16 ≤ frames }
    requires at_most_65536_frames { frames ≤ 65536 }
    ensures { result ≡ first_frame frames }
{
    Geometry::of(frames).first_frame
}

/// Block `k` of the frame table.
pub(crate) fn entries_block(frames: &[u64], k: u64) -> Block
    requires { k < 128 }
    ensures { HoldsEntries frames.now k result }
{
    let entries = BLOCK_WORDS as usize;
    let first = entries * k as usize;
    let mut block = [0; BLOCK_SIZE];
    for j in 0..entries {
        put_word(&mut block, j as u64, entry_at(frames, first + j));
    }
    block
}

// The entry of a frame, 0 past the last one.
fn entry_at(frames: &[u64], frame: usize) -> u64
    ensures { result ≡ slice_index frames.now frame }
{
    if frame < frames.len() {
        frames[frame]
    } else {
        0
    }
}
