// Making a volume. Whatever was pending, a stop at any moment leaves no volume, the fresh volume, or what the blocks after the
// gate spelled in an image that a stop might have left before.
ghost use Rattle.std.specs.Prelude.{◌≡◌, ◌≤◌, OnOk};
ghost use Rattle.mg_disk.specs.Disk.{Image};
ghost use Rattle.mg_disk.specs.Stops.{DiskCalls, DiskCallsBy, FromLeft, Leaves, NothingPending};
ghost use Rattle.mg_model.specs.Fresh.{fresh};
ghost use Rattle.mg_model.specs.Layout.{total_blocks};
ghost use Rattle.mg_model.specs.Volume.{Is, volume};
ghost use Rattle.mg_layout.specs.MayFormat.{MayFormat, ReadsFresh};
ghost use Rattle.mg_layout.specs.Small.{IsUntouchedSmall, TellsSmall};

use crate::behind::write_behind;
use crate::fresh::fresh_block;
use mg_bytes::Geometry;
use mg_disk::{BLOCK_SIZE, Disk, write_firmly};
use mg_faults::Failed;
use mg_model::Params;
use mg_model::layout::GATE_BLOCK;
use thiserror::Error;

/// Why no volume was made.
#[derive(Debug, Drop, Error)]
pub enum FormatFault {
    /// The volume needs more blocks than the disk has. No call was made on the disk.
    #[error("the volume needs {need} blocks, and the disk has {have}")]
    TooSmall { need: u64, have: u64 },
    /// A call of the disk failed. The disk holds no volume, what the blocks after the gate spelled, or the fresh volume.
    #[error("a call of the disk failed")]
    Disk,
}

/// Makes a fresh volume with these settings. It reads nothing.
///
/// The gate is closed first, then every block after it is written, and then the gate is opened, with a sync after each. So a
/// stop at any moment leaves no volume, the fresh volume, or what the blocks after the gate spelled in an image that a stop
/// might have left before, whatever was pending then.
pub fn format<D: Disk>(disk: &mut D, params: &Params) -> Result<(), FormatFault>
    ensures any_moment { Leaves D.Disk disk.old disk.new (FromLeft D.Disk disk.old (λ image. MayFormat image params.now)) }
    ensures made { OnOk result (ReadsFresh params.now (D.seen disk.old) (D.seen disk.new)) }
    ensures settled { OnOk result (NothingPending D.Disk disk.new) }
    ensures left { OnOk result ((c : Image) → (D.time disk.new).left_since (D.time disk.new).moment c → volume c ≡ Is (fresh params.now)) }
    ensures small { TellsSmall (total_blocks params.now.frames) (D.block_count disk.old) result }
    ensures no_call { IsUntouchedSmall disk.old disk.new result }
    ensures calls { DiskCallsBy D.Disk disk.old disk.new (result ≡ Err FormatFault.Disk) }
{
    let need = Geometry::of(params.frames()).total;
    let have = disk.blocks();
    if have < need {
        return Err(FormatFault::TooSmall { need, have });
    }
    match make(disk, params) {
        Ok(()) => Ok(()),
        Err(Failed) => Err(FormatFault::Disk),
    }
}

// Closes the gate, writes the blocks after it, and opens it.
fn make<D: Disk>(disk: &mut D, params: &Params) -> Result<(), Failed>
    requires within_disk { total_blocks params.now.frames ≤ D.block_count disk.old }
    ensures any_moment { Leaves D.Disk disk.old disk.new (FromLeft D.Disk disk.old (λ image. MayFormat image params.now)) }
    ensures made { OnOk result (ReadsFresh params.now (D.seen disk.old) (D.seen disk.new)) }
    ensures settled { OnOk result (NothingPending D.Disk disk.new) }
    ensures calls { DiskCalls D.Disk disk.old disk.new result }
{
    params.keep_rules();
    let mut gate = [0; BLOCK_SIZE];
    write_firmly(disk, GATE_BLOCK, &gate)?;
    write_behind(disk, params)?;
    fresh_block(params, GATE_BLOCK, &mut gate);
    write_firmly(disk, GATE_BLOCK, &gate)
}
