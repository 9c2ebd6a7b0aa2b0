// A volume of version 1 copied to another disk as one of this version.
ghost use Rattle.std.specs.Prelude.{◌≡◌, ◌⊎◌, OnOk};
ghost use Rattle.std.specs.Option.{ForSome};
ghost use Rattle.mg_disk.specs.Stops.{DiskCallsBy, FromLeft, Leaves, NothingPending};
ghost use Rattle.mg_disk.specs.Reads.{OnlyReadsBy};
ghost use Rattle.mg_migrate.specs.Copied.{HoldsNow, StandsClosed};
ghost use Rattle.mg_migrate.specs.Migrated.{Fits1, IsMigrated, IsUntouched, MayMigrate, StandsBack, Tells1};
ghost use Rattle.mg_migrate.specs.Version1.{volume1};

use crate::copying::{CopyFault, copy};
use crate::old_volume::read_old;
use mg_check::{Summary, summary_of};
use mg_disk::Disk;
use mg_layout::Geometry;
use std::alloc::Global;
use thiserror::Error;

/// Why a volume was not migrated.
#[derive(Debug, Drop, Error)]
pub enum MigrateFault {
    /// A call of the old disk failed. If the copying had begun, the old disk holds a volume of version 1 that fits on the new one, and
    /// the gate of the new one is closed, which a stop leaves so; else no call was made on it.
    #[error("a call of the old disk failed")]
    OldDisk,
    /// The old disk holds no volume: its gate is closed, or no superblock is after it. No call was made on the new disk.
    #[error("no volume")]
    Not,
    /// It holds a volume of a version before 1. No call was made on the new disk.
    #[error("a volume of an older version")]
    Old,
    /// It holds a volume of a version later than 1. No call was made on the new disk.
    #[error("a volume of a newer version")]
    New,
    /// It holds a volume of version 1 that is not spelled as that version says. No call was made on the new disk.
    #[error("a damaged volume")]
    Damaged,
    /// The volume needs more blocks than the new disk has. No call was made on it.
    #[error("the volume needs {need} blocks, and the disk has {have}")]
    TooSmall { need: u64, have: u64 },
    /// There was not enough memory. No call was made on the new disk.
    #[error("there was not enough memory")]
    Memory,
    /// A call of the new disk failed. What it holds is no volume, what the blocks after its gate spelled, or the new one.
    #[error("a call of the new disk failed")]
    NewDisk,
}

/// Copies a volume of version 1 to another disk, as one of this version: row by row and frame by frame, each to its number, with
/// what its journal has not written home. Its passwords never end, and all else of its state is as it was. The old disk is only
/// read. Memory does not grow with the frames: 32 blocks are copied at a time.
///
/// The gate of the new disk is closed first, then everything after it is written, and then the gate is opened, with a sync after
/// each. So a stop at any moment leaves there no volume, the new one, or what the blocks after the gate spelled in an image that a
/// stop might have left before, whatever was pending then.
///
/// The answer says of the new volume what `check` does. [`MigrateFault::Not`], [`MigrateFault::Old`], [`MigrateFault::New`] and
/// [`MigrateFault::Damaged`] come exactly if the old image is none, and [`MigrateFault::TooSmall`] exactly if it is a volume
/// that needs more blocks than the new disk has, unless there was not enough memory or a call of the old disk failed before that was known.
/// [`MigrateFault::OldDisk`] and [`MigrateFault::NewDisk`] come only if a call of that disk failed. Whatever the answer is, no call is
/// made on the new disk if the old image is no volume of version 1, or needs more blocks than the new disk has.
pub fn migrate<D: Disk, E: Disk>(
    alloc: Global,
    new: &mut D,
    old: &mut E,
) -> Result<Summary, MigrateFault>
    ensures told { ForSome (E.seen old.old) (λ before. Tells1 result (D.block_count new.old) (volume1 before)) }
    ensures any_moment { ForSome (E.seen old.old) (λ before. Leaves D.Disk new.old new.new (FromLeft D.Disk new.old (λ image. MayMigrate image (volume1 before)))) }
    ensures made { OnOk result (ForSome (E.seen old.old) (λ before. HoldsNow D.Disk (IsMigrated before) new.old new.new)) }
    ensures settled { OnOk result (NothingPending D.Disk new.new) }
    ensures untouched { IsUntouched new.old new.new result }
    ensures stands_back { ForSome (E.seen old.old) (λ before. StandsBack (D.block_count new.old) (volume1 before) new.old new.new) }
    ensures closed { result ≡ Err MigrateFault.OldDisk → (new.new ≡ new.old) ⊎ (StandsClosed D.Disk new.new × ForSome (E.seen old.old) (λ before. Fits1 (D.block_count new.old) (volume1 before))) }
    ensures old_reads { OnlyReadsBy E.Disk old.old old.new (result ≡ Err MigrateFault.OldDisk) }
    ensures new_calls { DiskCallsBy D.Disk new.old new.new (result ≡ Err MigrateFault.NewDisk) }
{
    let (lifting, rows) = read_old(alloc, old)?;
    let summary = summary_of(&rows);
    let need = Geometry::of(rows.params.frames()).total;
    let have = new.blocks();
    if have < need {
        return Err(MigrateFault::TooSmall { need, have });
    }
    match copy(&lifting, need, new, old) {
        Ok(()) => Ok(summary),
        Err(CopyFault::From) => Err(MigrateFault::OldDisk),
        Err(CopyFault::To) => Err(MigrateFault::NewDisk),
    }
}
