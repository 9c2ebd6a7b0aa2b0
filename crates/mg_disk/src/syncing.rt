// Writes that end with a sync.
ghost use Rattle.std.specs.Prelude.{◌≡◌, ◌<◌, OnOk, option_map, slice_set};
ghost use Rattle.std.specs.Option.{ForSome};
ghost use Rattle.mg_disk.specs.Disk.{SameBut, SeenBut, TornAt, only_place};
ghost use Rattle.mg_disk.specs.Stops.{DiskCalls, Leaves, MightHaveLeft, NothingPending};

use crate::{Block, Disk, Failed};

/// Writes a block and syncs the disk.
pub fn write_firmly<D: Disk>(disk: &mut D, i: u64, from: &Block) -> Result<(), Failed>
    requires within_disk { i < D.block_count disk.old }
    ensures any_moment { NothingPending D.Disk disk.old → ForSome (D.seen disk.old) (λ image. Leaves D.Disk disk.old disk.new (SameBut (only_place i) image)) }
    ensures from_any { Leaves D.Disk disk.old disk.new (TornAt (only_place i) (MightHaveLeft D.Disk disk.old)) }
    ensures written { OnOk result (D.seen disk.new ≡ option_map (λ image. slice_set image i from.now) (D.seen disk.old)) }
    ensures torn { SeenBut (only_place i) (D.seen disk.old) (D.seen disk.new) }
    ensures settled { OnOk result (NothingPending D.Disk disk.new) }
    ensures calls { DiskCalls D.Disk disk.old disk.new result }
    ensures tells { D.tells_stops disk.new ≡ D.tells_stops disk.old }
{
    disk.write(i, from)?;
    disk.sync()
}
