// The contents of a volume copied to another disk, so that a stop at any moment leaves there no volume, the copy, or what the blocks
// after the gate spelled in an image that a stop might have left before.
ghost use Rattle.std.specs.Prelude.{◌≡◌, ◌≢◌, ◌+◌, ◌^◌, ◌≤◌, ◌<◌, OnOk, length};
ghost use Rattle.std.specs.Option.{ForSome};
ghost use Rattle.mg_check.specs.Reads.{CanRead, contents};
ghost use Rattle.mg_disk.specs.Disk.{InRange, SeenBut, TornAt, only_place};
ghost use Rattle.mg_disk.specs.Stops.{DiskCallsBy, FromLeft, Leaves, MightHaveLeft, NothingPending, TimeGoes};
ghost use Rattle.mg_disk.specs.Reads.{OnlyReadsBy};
ghost use Rattle.mg_migrate.specs.Copied.{AreCopied, AreSame, MayCopy, StandsClosed, StandsCopied};
ghost use Rattle.mg_model.specs.Layout.{gate_block};
ghost use Rattle.mg_model.specs.Volume.{gate_byte};

use mg_check::Contents;
use mg_disk::{BLOCK_SIZE, Block, COPY_BLOCKS, Disk, write_firmly};
use mg_faults::Failed;
use mg_layout::{GATE_BLOCK, GATE_OPEN};

/// Which disk failed while contents were copied.
#[derive(Debug, Drop)]
pub(crate) enum CopyFault {
    /// The disk that they are read from. The gate of the other disk is closed, and a stop leaves it so.
    From,
    /// The disk that they are written to.
    To,
}

/// Copies all blocks of the contents but the gate to the same places of a disk, in order, some of them at a time.
///
/// The gate is closed first, then the blocks after it are copied, and then the gate is opened, with a sync after each.
///
/// The caller gives the count of blocks, since [`Contents`] have it for proofs alone.
pub(crate) fn copy<C: Contents, D: Disk, E: Disk>(
    view: &C,
    total: u64,
    new: &mut D,
    old: &mut E,
) -> Result<(), CopyFault>
    requires total { total ≡ C.total view.now }
    requires at_least_2_blocks { 2 ≤ C.total view.now }
    requires within_disk { C.total view.now ≤ D.block_count new.old }
    requires can { CanRead E.Disk (C.need view.now) (C.Fits view.now) old.old }
    ensures any_moment { ForSome (contents E.Disk (C.of view.now) old.old) (λ r. Leaves D.Disk new.old new.new (FromLeft D.Disk new.old (λ image. MayCopy (C.total view.now) image r))) }
    ensures copied { OnOk result (StandsCopied D.Disk (C.total view.now) (contents E.Disk (C.of view.now) old.old) new.old new.new) }
    ensures closed { result ≡ Err CopyFault.From → StandsClosed D.Disk new.new }
    ensures reads { OnlyReadsBy E.Disk old.old old.new (result ≡ Err CopyFault.From) }
    ensures calls { DiskCallsBy D.Disk new.old new.new (result ≡ Err CopyFault.To) }
{
    write_gate(new, 0)?;
    copy_behind(view, total, new, old)?;
    write_gate(new, GATE_OPEN)
}

// Writes a gate with this byte in front, and zeros after it, and syncs it.
fn write_gate<D: Disk>(new: &mut D, first: u8) -> Result<(), CopyFault>
    requires at_least_1_blocks { 1 ≤ D.block_count new.old }
    ensures any_moment { Leaves D.Disk new.old new.new (TornAt (only_place gate_block) (MightHaveLeft D.Disk new.old)) }
    ensures byte { OnOk result (ForSome (D.seen new.new) (λ c. gate_byte c ≡ first)) }
    ensures seen { OnOk result (SeenBut (only_place gate_block) (D.seen new.old) (D.seen new.new)) }
    ensures settled { OnOk result (NothingPending D.Disk new.new) }
    ensures no_read { result ≢ Err CopyFault.From }
    ensures calls { DiskCallsBy D.Disk new.old new.new (result ≡ Err CopyFault.To) }
{
    let mut gate = [0; BLOCK_SIZE];
    gate[0] = first;
    match write_firmly(new, GATE_BLOCK, &gate) {
        Ok(()) => Ok(()),
        Err(Failed) => Err(CopyFault::To),
    }
}

// Copies the blocks after the gate and syncs them.
fn copy_behind<C: Contents, D: Disk, E: Disk>(
    view: &C,
    total: u64,
    new: &mut D,
    old: &mut E,
) -> Result<(), CopyFault>
    requires total { total ≡ C.total view.now }
    requires within_disk { C.total view.now ≤ D.block_count new.old }
    requires can { CanRead E.Disk (C.need view.now) (C.Fits view.now) old.old }
    ensures any_moment { Leaves D.Disk new.old new.new (TornAt (λ k. 1 ≤ k) (MightHaveLeft D.Disk new.old)) }
    ensures seen { SeenBut (λ k. 1 ≤ k) (D.seen new.old) (D.seen new.new) }
    ensures copied { OnOk result (ForSome (contents E.Disk (C.of view.now) old.old) (λ r. ForSome (D.seen new.new) (AreCopied (C.total view.now) r))) }
    ensures settled { OnOk result (NothingPending D.Disk new.new) }
    ensures reads { OnlyReadsBy E.Disk old.old old.new (result ≡ Err CopyFault.From) }
    ensures calls { DiskCallsBy D.Disk new.old new.new (result ≡ Err CopyFault.To) }
{
    let mut blocks = [[0; BLOCK_SIZE]; COPY_BLOCKS];
    for first in (1..total).step_by(COPY_BLOCKS) {
        let count = (total - first).min(COPY_BLOCKS as u64);
        copy_blocks(view, first, new, old, &mut blocks[..count as usize])?;
    }
    match new.sync() {
        Ok(()) => Ok(()),
        Err(Failed) => Err(CopyFault::To),
    }
}

// Copies blocks, the first of them block `first`, as many as `blocks` has room for.
fn copy_blocks<C: Contents, D: Disk, E: Disk>(
    view: &C,
    first: u64,
    new: &mut D,
    old: &mut E,
    blocks: &mut [Block],
) -> Result<(), CopyFault>
    requires place { first + length blocks.old ≤ C.total view.now }
    requires total { C.total view.now < 2 ^ 64 }
    requires within_disk { first + length blocks.old ≤ D.block_count new.old }
    requires can { CanRead E.Disk (C.need view.now) (C.Fits view.now) old.old }
    ensures stops { TimeGoes D.Disk new.old new.new (TornAt (InRange first (length blocks.old)) ((D.time new.old).left_since (D.time new.old).moment)) }
    ensures seen { SeenBut (InRange first (length blocks.old)) (D.seen new.old) (D.seen new.new) }
    ensures copied { OnOk result (ForSome (contents E.Disk (C.of view.now) old.old) (λ r. ForSome (D.seen new.new) (AreSame first (length blocks.old) r))) }
    ensures reads { OnlyReadsBy E.Disk old.old old.new (result ≡ Err CopyFault.From) }
    ensures calls { DiskCallsBy D.Disk new.old new.new (result ≡ Err CopyFault.To) }
{
    match view.read_blocks(old, first, blocks) {
        Ok(()) => {}
        Err(Failed) => return Err(CopyFault::From),
    }
    match new.write_blocks(first, blocks) {
        Ok(()) => Ok(()),
        Err(Failed) => Err(CopyFault::To),
    }
}
