// The places of the parts of a volume.
ghost use Rattle.std.specs.Prelude.{◌≡◌, ◌≤◌};
ghost use Rattle.mg_model.specs.Layout.{first_frame, table_blocks, total_blocks};

use mg_disk::BLOCK_SIZE;
use mg_model::layout::TABLE_BLOCK;

/// How many words a block has. The frame table has an entry in each.
pub const BLOCK_WORDS: u64 = BLOCK_SIZE as u64 / 8;

/// The places and sizes that depend on the number of frames, in blocks.
#[derive(Clone, Copy, PartialEq, Eq)]
pub struct Geometry {
    /// How many blocks a volume needs.
    pub total: u64,
    /// How many of them the frame table takes.
    pub table: u64,
    /// The block of frame 0.
    pub first_frame: u64,
}

impl Geometry {
    /// The places of a volume with this number of frames, from 16 to 65,536.
    pub fn of(frames: u64) -> Geometry
        requires at_least_16_frames { 16 ≤ frames }
        requires at_most_65536_frames { frames ≤ 65536 }
        ensures total { result.total ≡ total_blocks frames }
        ensures table { result.table ≡ table_blocks frames }
        ensures first { result.first_frame ≡ first_frame frames }
    {
        let table = (frames + BLOCK_WORDS - 1) / BLOCK_WORDS;
        let first_frame = TABLE_BLOCK + table;
        Geometry {
            total: first_frame + frames,
            table,
            first_frame,
        }
    }
}
