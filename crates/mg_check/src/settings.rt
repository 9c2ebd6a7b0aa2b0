// What the volume of a disk was made with.
ghost use Rattle.std.specs.Prelude.{◌≡◌, ◌≤◌, ◌==◌, IfOk};
ghost use Rattle.std.specs.Option.{ForSome};
ghost use Rattle.mg_disk.specs.Reads.{OnlyReads, OnlyReadsBy};
ghost use Rattle.mg_rules.specs.Settled.{HasSettings};
ghost use Rattle.mg_layout.specs.SuperBlock.{IsSuper};
ghost use Rattle.mg_model.specs.Layout.{gate_open, super_block};
ghost use Rattle.mg_model.specs.Replay.{block_of};
ghost use Rattle.mg_model.specs.Spelling.{super_read};
ghost use Rattle.mg_model.specs.Volume.{Damaged, NotVolume, OldVolume, gate_byte, volume};

use crate::examining::OpenFault;
use mg_disk::{BLOCK_SIZE, Disk};
use mg_faults::Failed;
use mg_layout::{GATE_BLOCK, GATE_OPEN, SUPER_BLOCK, Super, read_super};
use mg_model::Params;

/// Whether the gate of a volume, block 0, is open, that is whether its first byte is the open gate's. It fails only if a call of
/// the disk fails.
pub fn is_gate_open<D: Disk>(disk: &mut D) -> Result<bool, Failed>
    requires at_least_2_blocks { 2 ≤ D.block_count disk.old }
    ensures opened { IfOk result (λ opened. ForSome (D.seen disk.old) (λ image. (gate_byte image == gate_open) ≡ opened)) }
    ensures reads { OnlyReads D.Disk disk.old disk.new result }
{
    let mut block = [0; BLOCK_SIZE];
    match disk.read(GATE_BLOCK, &mut block) {
        Ok(()) => Ok(block[0] == GATE_OPEN),
        Err(Failed) => Err(Failed),
    }
}

// What the superblock spells.
fn read_second<D: Disk>(disk: &mut D) -> Result<Super, Failed>
    requires at_least_2_blocks { 2 ≤ D.block_count disk.old }
    ensures spelled { IfOk result (λ spelled. ForSome (D.seen disk.old) (λ image. IsSuper spelled (super_read (block_of image super_block)))) }
    ensures reads { OnlyReads D.Disk disk.old disk.new result }
{
    let mut block = [0; BLOCK_SIZE];
    match disk.read(SUPER_BLOCK, &mut block) {
        Ok(()) => Ok(read_super(&block)),
        Err(Failed) => Err(Failed),
    }
}

/// Reads the gate and the superblock.
pub(crate) fn read_settings<D: Disk>(disk: &mut D) -> Result<Params, OpenFault>
    ensures told { IfOk result (λ p. ForSome (D.seen disk.old) (HasSettings p)) }
    ensures not { result ≡ Err OpenFault.Not → ForSome (D.seen disk.old) (λ image. volume image ≡ NotVolume) }
    ensures old { result ≡ Err OpenFault.Old → ForSome (D.seen disk.old) (λ image. volume image ≡ OldVolume) }
    ensures damaged { result ≡ Err OpenFault.Damaged → ForSome (D.seen disk.old) (λ image. volume image ≡ Damaged) }
    ensures reads { OnlyReadsBy D.Disk disk.old disk.new (result ≡ Err OpenFault.Disk) }
{
    if disk.blocks() < 2 {
        return Err(OpenFault::Not);
    }
    match is_gate_open(disk) {
        Ok(true) => {}
        Ok(false) => return Err(OpenFault::Not),
        Err(Failed) => return Err(OpenFault::Disk),
    }
    let spelled = match read_second(disk) {
        Ok(spelled) => spelled,
        Err(Failed) => return Err(OpenFault::Disk),
    };
    match spelled {
        Super::Is(p) => Ok(p),
        Super::Damaged => Err(OpenFault::Damaged),
        Super::Old => Err(OpenFault::Old),
        Super::Not => Err(OpenFault::Not),
    }
}
