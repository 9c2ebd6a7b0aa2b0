// Reading the volume of a disk.
ghost use Rattle.std.specs.Prelude.{◌≡◌, ◌≤◌, IfOk, IsSome, None, OnOk};
ghost use Rattle.std.specs.Option.{ForSome};
ghost use Rattle.mg_disk.specs.Reads.{OnlyReadsBy};
ghost use Rattle.mg_rules.specs.RowsRead.{AreKept, IsReadAs};
ghost use Rattle.mg_rules.specs.Settled.{IsSettled};
ghost use Rattle.mg_journal.specs.Looked.{Fits};
ghost use Rattle.mg_model.specs.Layout.{globals_block, total_blocks};
ghost use Rattle.mg_model.specs.Replay.{replay};
ghost use Rattle.mg_model.specs.Volume.{Damaged, NotVolume, OldVolume, settled_volume, volume};

use crate::examining::OpenFault;
use crate::settings::read_settings;
use crate::tables::read_rows;
use mg_disk::Disk;
use mg_journal::{View, ViewFault};
use mg_layout::Geometry;
use mg_model::Params;
use mg_rules::VolumeRows;
use std::alloc::Global;

// Reads the rows of a volume with these settings, through a view of its journal.
fn read_through_view<D: Disk>(
    alloc: Global,
    disk: &mut D,
    params: &Params,
) -> Result<(View, VolumeRows), ViewFault>
    ensures told { IfOk result (λ read. ForSome (D.seen disk.old) (IsSettled params.now read.1)) }
    ensures params { IfOk result (λ read. read.1.params ≡ params.now) }
    ensures kept { IfOk result (λ read. AreKept read.1) }
    ensures fits { IfOk result (λ read. ForSome (D.seen disk.old) (λ image. Fits read.0 image)) }
    ensures total { IfOk result (λ read. read.0.total ≡ total_blocks params.now.frames) }
    ensures within_disk { OnOk result (total_blocks params.now.frames ≤ D.block_count disk.old) }
    ensures damaged { result ≡ Err ViewFault.Damaged → ForSome (D.seen disk.old) (λ image. settled_volume image params.now ≡ Damaged) }
    ensures reads { OnlyReadsBy D.Disk disk.old disk.new (result ≡ Err ViewFault.Disk) }
{
    let total = Geometry::of(params.frames()).total;
    if disk.blocks() < total {
        return Err(ViewFault::Damaged);
    }
    let view = View::look(alloc, disk, total)?;
    match read_rows(alloc, &view, disk, params) {
        Ok(rows) => Ok((view, rows)),
        Err(fault) => Err(fault),
    }
}

/// Reads the rows of a volume and its frame table, and gives them with the view of the journal that they were read through.
/// It writes nothing. Beside what the journal needs, the gate, the superblock and each block of a table are read once, and no
/// block of a frame. The rows keep the rules of a volume, whatever the disk reads.
///
/// [`OpenFault::Not`], [`OpenFault::Old`] and [`OpenFault::Damaged`] come exactly if the image that reads give is no
/// volume, an older one, or a damaged one; [`OpenFault::Disk`] only if a call of the disk failed.
pub fn read_volume<D: Disk>(alloc: Global, disk: &mut D) -> Result<(View, VolumeRows), OpenFault>
    ensures told { IfOk result (λ read. ForSome (D.seen disk.old) (IsReadAs read.1)) }
    ensures kept { IfOk result (λ read. AreKept read.1) }
    ensures fits { IfOk result (λ read. ForSome (D.seen disk.old) (λ image. Fits read.0 image)) }
    ensures total { IfOk result (λ read. read.0.total ≡ total_blocks read.1.params.frames) }
    ensures within_disk { IfOk result (λ read. total_blocks read.1.params.frames ≤ D.block_count disk.old) }
    ensures not { result ≡ Err OpenFault.Not → ForSome (D.seen disk.old) (λ image. volume image ≡ NotVolume) }
    ensures old { result ≡ Err OpenFault.Old → ForSome (D.seen disk.old) (λ image. volume image ≡ OldVolume) }
    ensures damaged { result ≡ Err OpenFault.Damaged → ForSome (D.seen disk.old) (λ image. volume image ≡ Damaged) }
    ensures reads { OnlyReadsBy D.Disk disk.old disk.new (result ≡ Err OpenFault.Disk) }
{
    let p = read_settings(disk)?;
    match read_through_view(alloc, disk, &p) {
        Ok(read) => Ok(read),
        Err(ViewFault::Damaged) => Err(OpenFault::Damaged),
        Err(ViewFault::Disk) => Err(OpenFault::Disk),
        Err(ViewFault::Memory) => Err(OpenFault::Memory),
    }
}
