// What the first blocks of a disk tell, before anything is written.
ghost use Rattle.std.specs.Prelude.{◌≡◌, ◌≤◌, length};
ghost use Rattle.mg_mirror_session.specs.Judged.{IsJudged, IsKind, first_fault};

use mg_check::OpenFault;
use mg_disk::{Block, Disk, Failed};
use mg_layout::{GATE_BLOCK, GATE_OPEN, SUPER_BLOCK, Super, read_super};
use mg_mirror::Side;

/// Reads the first blocks of the disk on the side `from`, as many as `first` has room for, and says as [`judge`] does what they
/// tell. The other disk is left alone.
pub(crate) fn read_first<D: Disk, E: Disk>(
    left: &mut D,
    right: &mut E,
    from: Side,
    first: &mut [Block],
) -> Result<Option<OpenFault>, Failed>
    requires left_long { length first.old ≤ D.block_count left.old }
    requires right_long { length first.old ≤ E.block_count right.old }
    ensures left { from ≡ Side.Left → IsJudged D.Disk left.old left.new first.new result }
    ensures right { from ≡ Side.Right → IsJudged E.Disk right.old right.new first.new result }
    ensures left_alone { from ≡ Side.Right → left.new ≡ left.old }
    ensures right_alone { from ≡ Side.Left → right.new ≡ right.old }
    ensures same_length { length first.new ≡ length first.old }
{
    match from {
        Side::Left => read_and_judge(left, first),
        Side::Right => read_and_judge(right, first),
    }
}

fn read_and_judge<D: Disk>(disk: &mut D, first: &mut [Block]) -> Result<Option<OpenFault>, Failed>
    requires long { length first.old ≤ D.block_count disk.old }
    ensures judged { IsJudged D.Disk disk.old disk.new first.new result }
    ensures same_length { length first.new ≡ length first.old }
{
    match disk.read_blocks(0, first) {
        Ok(()) => Ok(judge(first)),
        Err(Failed) => Err(Failed),
    }
}

/// The fault that the first two blocks of a disk tell of, or none where the blocks behind them have to be read.
fn judge(first: &[Block]) -> Option<OpenFault>
    ensures { IsKind result (first_fault first.now) }
{
    if first.len() < 2 {
        return Some(OpenFault::Not);
    }
    if first[GATE_BLOCK as usize][0] != GATE_OPEN {
        return Some(OpenFault::Not);
    }
    match read_super(&first[SUPER_BLOCK as usize]) {
        Super::Is(_) => None,
        Super::Damaged => Some(OpenFault::Damaged),
        Super::Old => Some(OpenFault::Old),
        Super::Not => Some(OpenFault::Not),
    }
}
