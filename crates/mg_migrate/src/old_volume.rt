// Reading a volume of version 1: its settings, its journal, and then its tables, as those of the volume that it becomes.
ghost use Rattle.std.specs.Prelude.{◌≡◌, ◌≢◌, ◌≤◌, IfOk};
ghost use Rattle.std.specs.Option.{ForSome};
ghost use Rattle.mg_rules.specs.RowsRead.{AreKept};
ghost use Rattle.mg_disk.specs.Reads.{OnlyReads, OnlyReadsBy};
ghost use Rattle.mg_migrate.specs.Layout1.{total1_blocks};
ghost use Rattle.mg_migrate.specs.OldRead.{HasSettings1, IsOldRead, IsSeen1, TellsOld};
ghost use Rattle.mg_migrate.specs.Spelling1.{super1_read};
ghost use Rattle.mg_migrate.specs.Super1.{IsSuper1};
ghost use Rattle.mg_migrate.specs.Version1.{volume1};
ghost use Rattle.mg_model.specs.Layout.{super_block};
ghost use Rattle.mg_model.specs.Replay.{block_of};

use crate::fresh::TABLE1_BLOCK;
use crate::lifting::Lifting;
use crate::migrating::MigrateFault;
use crate::superblock::{Super1, read_super1};
use mg_check::{VolumeRows, is_gate_open, read_rows};
use mg_disk::{BLOCK_SIZE, Disk};
use mg_faults::Failed;
use mg_journal::{View, ViewFault};
use mg_layout::{Geometry, SUPER_BLOCK, TABLE_BLOCK};
use mg_model::Params;
use std::alloc::Global;

// What the superblock spells.
fn read_second<E: Disk>(old: &mut E) -> Result<Super1, Failed>
    requires at_least_2_blocks { 2 ≤ E.block_count old.old }
    ensures spelled { IfOk result (λ spelled. ForSome (E.seen old.old) (λ image. IsSuper1 spelled (super1_read (block_of image super_block)))) }
    ensures reads { OnlyReads E.Disk old.old old.new result }
{
    let mut block = [0; BLOCK_SIZE];
    match old.read(SUPER_BLOCK, &mut block) {
        Ok(()) => Ok(read_super1(&block)),
        Err(Failed) => Err(Failed),
    }
}

// Reads the gate and the superblock.
fn read_settings<E: Disk>(old: &mut E) -> Result<Params, MigrateFault>
    ensures told { IfOk result (λ p. ForSome (E.seen old.old) (HasSettings1 p)) }
    ensures none { ForSome (E.seen old.old) (λ image. TellsOld result (volume1 image)) }
    ensures no_new { result ≢ Err MigrateFault.NewDisk }
    ensures reads { OnlyReadsBy E.Disk old.old old.new (result ≡ Err MigrateFault.OldDisk) }
{
    if old.blocks() < 2 {
        return Err(MigrateFault::Not);
    }
    match is_gate_open(old) {
        Ok(true) => {}
        Ok(false) => return Err(MigrateFault::Not),
        Err(Failed) => return Err(MigrateFault::OldDisk),
    }
    let spelled = match read_second(old) {
        Ok(spelled) => spelled,
        Err(Failed) => return Err(MigrateFault::OldDisk),
    };
    match spelled {
        Super1::Is(p) => Ok(p),
        Super1::Damaged => Err(MigrateFault::Damaged),
        Super1::New => Err(MigrateFault::New),
        Super1::Old => Err(MigrateFault::Old),
        Super1::Not => Err(MigrateFault::Not),
    }
}

// How many blocks the volume needs: the objects of version 1 take half as many as those of today.
fn total1(params: &Params) -> u64
    ensures { result ≡ total1_blocks params.now.frames }
{
    Geometry::of(params.frames()).total - (TABLE_BLOCK - TABLE1_BLOCK)
}

// Looks through the journal of a volume with these settings.
fn look_through<E: Disk>(
    alloc: Global,
    old: &mut E,
    params: &Params,
) -> Result<Lifting, MigrateFault>
    requires has { ForSome (E.seen old.old) (HasSettings1 params.now) }
    ensures told { IfOk result (λ seen. ForSome (E.seen old.old) (IsSeen1 seen)) }
    ensures settings { IfOk result (λ seen. seen.settings ≡ params.now) }
    ensures within_disk { IfOk result (λ seen. seen.placed.total ≤ E.block_count old.old) }
    ensures none { ForSome (E.seen old.old) (λ image. TellsOld result (volume1 image)) }
    ensures no_new { result ≢ Err MigrateFault.NewDisk }
    ensures reads { OnlyReadsBy E.Disk old.old old.new (result ≡ Err MigrateFault.OldDisk) }
{
    let total = total1(params);
    if old.blocks() < total {
        return Err(MigrateFault::Damaged);
    }
    match View::look(alloc, old, total) {
        Ok(view) => Ok(Lifting::new(view, params)),
        Err(ViewFault::Damaged) => Err(MigrateFault::Damaged),
        Err(ViewFault::Disk) => Err(MigrateFault::OldDisk),
        Err(ViewFault::Memory) => Err(MigrateFault::Memory),
    }
}

// Reads the rows of a volume with these settings that is seen so.
fn read_lifted<E: Disk>(
    alloc: Global,
    seen: &Lifting,
    old: &mut E,
    params: &Params,
) -> Result<VolumeRows, MigrateFault>
    requires settings { seen.now.settings ≡ params.now }
    requires within_disk { seen.now.placed.total ≤ E.block_count old.old }
    requires seen { ForSome (E.seen old.old) (IsSeen1 seen.now) }
    ensures told { IfOk result (λ rows. ForSome (E.seen old.old) (IsOldRead seen.now rows)) }
    ensures params { IfOk result (λ rows. rows.params ≡ params.now) }
    ensures kept { IfOk result AreKept }
    ensures none { ForSome (E.seen old.old) (λ image. TellsOld result (volume1 image)) }
    ensures no_new { result ≢ Err MigrateFault.NewDisk }
    ensures reads { OnlyReadsBy E.Disk old.old old.new (result ≡ Err MigrateFault.OldDisk) }
{
    match read_rows(alloc, seen, old, params) {
        Ok(rows) => Ok(rows),
        Err(ViewFault::Damaged) => Err(MigrateFault::Damaged),
        Err(ViewFault::Disk) => Err(MigrateFault::OldDisk),
        Err(ViewFault::Memory) => Err(MigrateFault::Memory),
    }
}

/// Reads a volume of version 1. It writes nothing.
pub(crate) fn read_old<E: Disk>(
    alloc: Global,
    old: &mut E,
) -> Result<(Lifting, VolumeRows), MigrateFault>
    ensures told { IfOk result (λ read. ForSome (E.seen old.old) (IsOldRead read.0 read.1)) }
    ensures params { IfOk result (λ read. read.1.params ≡ read.0.settings) }
    ensures kept { IfOk result (λ read. AreKept read.1) }
    ensures within_disk { IfOk result (λ read. read.0.placed.total ≤ E.block_count old.old) }
    ensures none { ForSome (E.seen old.old) (λ image. TellsOld result (volume1 image)) }
    ensures no_new { result ≢ Err MigrateFault.NewDisk }
    ensures reads { OnlyReadsBy E.Disk old.old old.new (result ≡ Err MigrateFault.OldDisk) }
{
    let p = match read_settings(old) {
        Ok(p) => p,
        Err(fault) => return Err(fault),
    };
    let seen = match look_through(alloc, old, &p) {
        Ok(seen) => seen,
        Err(fault) => return Err(fault),
    };
    match read_lifted(alloc, &seen, old, &p) {
        Ok(rows) => Ok((seen, rows)),
        Err(fault) => Err(fault),
    }
}
