// Writing a segment, whose gate is closed.
ghost use Rattle.std.specs.Prelude.{◌≡◌, ◌≤◌, ◌<◌, OnOk, length};
ghost use Rattle.std.specs.Option.{ForSome};
ghost use Rattle.mg_disk.specs.Disk.{SameBut};
ghost use Rattle.mg_disk.specs.Stops.{DiskCalls, Leaves, NothingPending};
ghost use Rattle.mg_disk.specs.Reads.{Becomes};
ghost use Rattle.mg_model.specs.Layout.{body_limit, globals_block, segment_count};
ghost use Rattle.mg_journal.specs.Phases.{HoldsWrites, IsBehind};

use crate::places::index_of;
use crate::writes::Writes;
use mg_disk::Disk;
use mg_faults::Failed;

/// Writes the index and the bodies of a segment, which lie after it, in one run, and syncs them.
pub(crate) fn write_segment<D: Disk>(
    disk: &mut D,
    segment: u64,
    writes: &Writes,
) -> Result<(), Failed>
    requires place { segment < segment_count }
    requires at_most_160_writes { length writes.now ≤ body_limit }
    requires within_disk { globals_block ≤ D.block_count disk.old }
    ensures any_moment { NothingPending D.Disk disk.old → ForSome (D.seen disk.old) (λ image. Leaves D.Disk disk.old disk.new (SameBut (IsBehind segment) image)) }
    ensures written { OnOk result (Becomes (HoldsWrites segment writes.now) (D.seen disk.old) (D.seen disk.new)) }
    ensures settled { OnOk result (NothingPending D.Disk disk.new) }
    ensures calls { DiskCalls D.Disk disk.old disk.new result }
{
    disk.write_blocks(index_of(segment), writes.run())?;
    disk.sync()
}
