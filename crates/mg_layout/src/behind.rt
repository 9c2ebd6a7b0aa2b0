// The blocks after the gate, as they are written when a volume is made.
ghost use Rattle.std.specs.Prelude.{◌≡◌, ◌≤◌, ◌<◌, ◌+◌, OnErr, OnOk, option_map};
ghost use Rattle.mg_disk.specs.Disk.{TornAt, only_place};
ghost use Rattle.mg_disk.specs.Stops.{DiskCalls, Leaves, MightHaveLeft, NothingPending, TimeGoes};
ghost use Rattle.mg_model.specs.Layout.{first_frame, total_blocks};
ghost use Rattle.mg_layout.specs.FreshBelow.{fresh_until, with_block};
ghost use Rattle.mg_layout.specs.FreshImage.{is_written};

use crate::fresh::fresh_block;
use mg_bytes::Geometry;
use mg_disk::{BLOCK_SIZE, Disk};
use mg_faults::Failed;
use mg_model::Params;
use mg_model::layout::{FIRST_SEGMENT, GLOBALS_BLOCK, SEGMENT_SIZE, SUPER_BLOCK};

/// Writes the blocks after the gate, and syncs the disk. A stop leaves an image that it might have left before, with any bytes
/// after the gate.
pub(crate) fn write_behind<D: Disk>(disk: &mut D, params: &Params) -> Result<(), Failed>
    requires within_disk { total_blocks params.now.frames ≤ D.block_count disk.old }
    ensures any_moment { Leaves D.Disk disk.old disk.new (TornAt (λ i. 1 ≤ i) (MightHaveLeft D.Disk disk.old)) }
    ensures written { OnOk result (D.seen disk.new ≡ option_map (fresh_until params.now (first_frame params.now.frames)) (D.seen disk.old)) }
    ensures settled { OnOk result (NothingPending D.Disk disk.new) }
    ensures calls { DiskCalls D.Disk disk.old disk.new result }
{
    let last = Geometry::of(params.frames()).first_frame;
    for i in 0..last {
        write_fresh(disk, params, i + 1)?;
    }
    disk.sync()
}

// Writes a block of a fresh volume, if it is one of those that are written.
fn write_fresh<D: Disk>(disk: &mut D, params: &Params, i: u64) -> Result<(), Failed>
    requires within_disk { total_blocks params.now.frames ≤ D.block_count disk.old }
    requires in_range { i < total_blocks params.now.frames }
    ensures stops { TimeGoes D.Disk disk.old disk.new (TornAt (only_place i) ((D.time disk.old).left_since (D.time disk.old).moment)) }
    ensures written { OnOk result (D.seen disk.new ≡ option_map (with_block params.now i) (D.seen disk.old)) }
    ensures calls { DiskCalls D.Disk disk.old disk.new result }
{
    if !is_written(params.frames(), i) {
        return Ok(());
    }
    let mut block = [0; BLOCK_SIZE];
    fresh_block(params, i, &mut block);
    disk.write(i, &block)
}

/// Whether block `i` is one of those that are written when a volume is made.
pub(crate) fn is_written(frames: u64, i: u64) -> bool
    requires at_least_16_frames { 16 ≤ frames }
    requires at_most_65536_frames { frames ≤ 65536 }
    ensures { result ≡ is_written frames i }
{
    let last = Geometry::of(frames).first_frame;
    i <= SUPER_BLOCK
        || (i % SEGMENT_SIZE == FIRST_SEGMENT && i < GLOBALS_BLOCK)
        || (GLOBALS_BLOCK <= i && i <= last)
}
