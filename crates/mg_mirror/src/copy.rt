// A copy of one disk's first blocks on another. Block 0 of the other disk is closed first and written last, so that a stop within
// the copy leaves nothing there that counts as a volume.
ghost use Rattle.std.specs.Prelude.{◌≡◌, ◌+◌, ◌≤◌, IfOk, IsTrue, OnOk, length};
ghost use Rattle.std.specs.Option.{ForSome};
ghost use Rattle.mg_disk.specs.Disk.{InRange, SeenBut, TornAt, only_place};
ghost use Rattle.mg_disk.specs.Stops.{DiskCalls, Leaves, MightHaveLeft, NothingPending, TimeGoes};
ghost use Rattle.mg_mirror.specs.Copy.{AreFrom, AreSame, CanCopy, Copies, CopyCalls, first_byte};

use crate::mirror::Side;
use mg_disk::{BLOCK_SIZE, Block, COPY_BLOCKS, Disk, Failed, write_firmly};

/// Copies the first blocks of the disk on the side `from` to the other one, as [`copy_blocks`] does.
pub(crate) fn copy_side<D: Disk, E: Disk>(
    left: &mut D,
    right: &mut E,
    from: Side,
    blocks: u64,
    first: &[Block],
) -> Result<bool, Failed>
    requires left { from ≡ Side.Left → CanCopy D.Disk E.Disk blocks first.now left.old right.old }
    requires right { from ≡ Side.Right → CanCopy E.Disk D.Disk blocks first.now right.old left.old }
    ensures left { from ≡ Side.Left → Copies D.Disk E.Disk blocks left.old left.new right.old right.new result }
    ensures right { from ≡ Side.Right → Copies E.Disk D.Disk blocks right.old right.new left.old left.new result }
{
    match from {
        Side::Left => copy_blocks(left, right, blocks, first),
        Side::Right => copy_blocks(right, left, blocks, first),
    }
}

/// Copies the first blocks of `from` to `to` and syncs them, or says that `to` failed, whose count then rose. It fails if
/// `from` does. The first of these blocks are `first`, which were read already; if there are none, block 0 is read here.
fn copy_blocks<D: Disk, E: Disk>(
    from: &mut D,
    to: &mut E,
    blocks: u64,
    first: &[Block],
) -> Result<bool, Failed>
    requires can { CanCopy D.Disk E.Disk blocks first.now from.old to.old }
    ensures copies { Copies D.Disk E.Disk blocks from.old from.new to.old to.new result }
{
    if blocks == 0 {
        return Ok(to.sync().is_ok());
    }
    if !first.is_empty() {
        return copy_gated(from, to, blocks, first);
    }
    let mut gate = [[0; BLOCK_SIZE]; 1];
    from.read_blocks(0, &mut gate)?;
    copy_gated(from, to, blocks, &gate)
}

/// Closes block 0 of `to`, copies the blocks after it, and writes block 0, which is the first of `first`, with a sync after each.
fn copy_gated<D: Disk, E: Disk>(
    from: &mut D,
    to: &mut E,
    blocks: u64,
    first: &[Block],
) -> Result<bool, Failed>
    requires can { CanCopy D.Disk E.Disk blocks first.now from.old to.old }
    requires some { 1 ≤ length first.now }
    ensures copies { Copies D.Disk E.Disk blocks from.old from.new to.old to.new result }
{
    if close(to).is_err() {
        return Ok(false);
    }
    if !copy_after(from, to, blocks, first)? {
        return Ok(false);
    }
    Ok(write_firmly(to, 0, &first[0]).is_ok())
}

/// Writes zeros over block 0 and syncs them.
fn close<E: Disk>(to: &mut E) -> Result<(), Failed>
    requires some { 1 ≤ E.block_count to.old }
    ensures any_moment { Leaves E.Disk to.old to.new (TornAt (only_place 0) (MightHaveLeft E.Disk to.old)) }
    ensures closed { OnOk result (ForSome (E.seen to.new) (λ c. first_byte c ≡ 0)) }
    ensures seen { SeenBut (only_place 0) (E.seen to.old) (E.seen to.new) }
    ensures settled { OnOk result (NothingPending E.Disk to.new) }
    ensures calls { DiskCalls E.Disk to.old to.new result }
    ensures tells { E.tells_stops to.new ≡ E.tells_stops to.old }
{
    let mut gate = [0; BLOCK_SIZE];
    gate[0] = 0;
    write_firmly(to, 0, &gate)
}

/// Copies the blocks after block 0 and syncs them, or says that `to` failed.
fn copy_after<D: Disk, E: Disk>(
    from: &mut D,
    to: &mut E,
    blocks: u64,
    first: &[Block],
) -> Result<bool, Failed>
    requires can { CanCopy D.Disk E.Disk blocks first.now from.old to.old }
    requires some { 1 ≤ length first.now }
    ensures any_moment { Leaves E.Disk to.old to.new (TornAt (λ k. 1 ≤ k) (MightHaveLeft E.Disk to.old)) }
    ensures seen { SeenBut (λ k. 1 ≤ k) (E.seen to.old) (E.seen to.new) }
    ensures copied { IfOk result (λ good. IsTrue good → ForSome (D.seen from.old) (λ x. ForSome (E.seen to.new) (AreFrom 1 blocks x))) }
    ensures settled { IfOk result (λ good. IsTrue good → NothingPending E.Disk to.new) }
    ensures calls { CopyCalls D.Disk E.Disk from.old from.new to.old to.new result }
{
    if to.write_blocks(1, &first[1..]).is_err() {
        return Ok(false);
    }
    if !copy_rest(from, to, first.len() as u64, blocks)? {
        return Ok(false);
    }
    Ok(to.sync().is_ok())
}

/// Copies the blocks from `start` on, or says that `to` failed. Nothing is synced.
fn copy_rest<D: Disk, E: Disk>(
    from: &mut D,
    to: &mut E,
    start: u64,
    blocks: u64,
) -> Result<bool, Failed>
    requires from_long { blocks ≤ D.block_count from.old }
    requires to_long { blocks ≤ E.block_count to.old }
    requires start { start ≤ blocks }
    ensures stops { TimeGoes E.Disk to.old to.new (TornAt (λ k. start ≤ k) ((E.time to.old).left_since (E.time to.old).moment)) }
    ensures seen { SeenBut (λ k. start ≤ k) (E.seen to.old) (E.seen to.new) }
    ensures copied { IfOk result (λ good. IsTrue good → ForSome (D.seen from.old) (λ x. ForSome (E.seen to.new) (AreFrom start blocks x))) }
    ensures calls { CopyCalls D.Disk E.Disk from.old from.new to.old to.new result }
{
    let mut run = [[0; BLOCK_SIZE]; COPY_BLOCKS];
    for next in (start..blocks).step_by(COPY_BLOCKS) {
        let count = (blocks - next).min(COPY_BLOCKS as u64);
        if !copy_run(from, to, next, &mut run[..count as usize])? {
            return Ok(false);
        }
    }
    Ok(true)
}

// Copies blocks, the first of them block `first`, as many as `run` has room for, or says that `to` failed.
fn copy_run<D: Disk, E: Disk>(
    from: &mut D,
    to: &mut E,
    first: u64,
    run: &mut [Block],
) -> Result<bool, Failed>
    requires from_long { first + length run.old ≤ D.block_count from.old }
    requires to_long { first + length run.old ≤ E.block_count to.old }
    ensures stops { TimeGoes E.Disk to.old to.new (TornAt (InRange first (length run.old)) ((E.time to.old).left_since (E.time to.old).moment)) }
    ensures seen { SeenBut (InRange first (length run.old)) (E.seen to.old) (E.seen to.new) }
    ensures copied { IfOk result (λ good. IsTrue good → ForSome (D.seen from.old) (λ x. ForSome (E.seen to.new) (AreSame first (length run.old) x))) }
    ensures calls { CopyCalls D.Disk E.Disk from.old from.new to.old to.new result }
{
    from.read_blocks(first, run)?;
    Ok(to.write_blocks(first, run).is_ok())
}
