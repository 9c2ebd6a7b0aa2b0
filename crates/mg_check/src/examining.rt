// Whether what reads give is a volume.
ghost use Rattle.std.specs.Prelude.{◌≡◌, ◌≤◌, IfOk, length, sum_by};
ghost use Rattle.std.specs.Option.{ForSome};
ghost use Rattle.mg_disk.specs.Reads.{OnlyReadsBy};
ghost use Rattle.mg_rules.specs.RowsRead.{AreHeld};
ghost use Rattle.mg_check.specs.Summaries.{Tells, TellsOf};
ghost use Rattle.mg_rules.specs.Tables.{count_in, pages_in};
ghost use Rattle.mg_model.specs.Layout.{total_blocks};
ghost use Rattle.mg_model.specs.Limits.{object_limit};
ghost use Rattle.mg_model.specs.Volume.{Damaged, NotVolume, OldVolume, volume};

use crate::opening::read_volume;
use mg_disk::Disk;
use mg_model::ObjRow;
use mg_rules::{VolumeRows, pages_in};
use std::alloc::Global;
use thiserror::Error;

/// Why a disk was not opened.
#[derive(Debug, Drop, Error)]
pub enum OpenFault {
    /// It holds no volume: its gate is closed, or no superblock is after it.
    #[error("no volume")]
    Not,
    /// It holds a volume of an older version.
    #[error("a volume of an older version")]
    Old,
    /// It holds a volume that is not spelled as its version says.
    #[error("a damaged volume")]
    Damaged,
    /// A call of the disk failed.
    #[error("a call of the disk failed")]
    Disk,
    /// There was not enough memory.
    #[error("there was not enough memory")]
    Memory,
}

/// What is reported of a volume.
#[derive(Clone, Copy, PartialEq, Eq)]
pub struct Summary {
    /// The most pages that its objects may have together: 16 to 65,536.
    pub frames: u64,
    /// How many objects it has.
    pub objects: u64,
    /// How many pages these have together.
    pub pages: u64,
    /// How many accounts it has.
    pub accounts: u64,
    /// How many threads it has.
    pub threads: u64,
    /// Its period.
    pub period: u64,
    /// The credits that all balances sum to.
    pub credits: u64,
}

/// Reports whether a disk holds a volume, and counts what is in it. It writes nothing. Beside what the journal needs, the gate, the
/// superblock and each block of a table are read once, and no block of a frame.
///
/// [`OpenFault::Not`], [`OpenFault::Old`] and [`OpenFault::Damaged`] come exactly if the image that reads give is no
/// volume, an older one, or a damaged one; [`OpenFault::Disk`] only if a call of the disk failed. [`OpenFault::Memory`] comes if
/// out of memory: for the view of the journal, or for the rows, which are kept as they are read.
pub fn examine<D: Disk>(alloc: Global, disk: &mut D) -> Result<Summary, OpenFault>
    ensures tells { IfOk result (λ summary. ForSome (D.seen disk.old) (Tells summary)) }
    ensures not { result ≡ Err OpenFault.Not → ForSome (D.seen disk.old) (λ image. volume image ≡ NotVolume) }
    ensures old { result ≡ Err OpenFault.Old → ForSome (D.seen disk.old) (λ image. volume image ≡ OldVolume) }
    ensures damaged { result ≡ Err OpenFault.Damaged → ForSome (D.seen disk.old) (λ image. volume image ≡ Damaged) }
    ensures at_least_16_frames { IfOk result (λ summary. 16 ≤ summary.frames) }
    ensures at_most_65536_frames { IfOk result (λ summary. summary.frames ≤ 65536) }
    ensures within_disk { IfOk result (λ summary. total_blocks summary.frames ≤ D.block_count disk.old) }
    ensures reads { OnlyReadsBy D.Disk disk.old disk.new (result ≡ Err OpenFault.Disk) }
{
    match read_volume(alloc, disk) {
        Ok((_, rows)) => Ok(summary_of(&rows)),
        Err(fault) => Err(fault),
    }
}

// How many pages the objects have together.
fn used(objects: &[Option<ObjRow>]) -> u64
    requires at_most_4096_objects { length objects.now ≤ object_limit }
    ensures { result ≡ sum_by pages_in objects.now }
{
    let mut used = 0;
    for row in objects {
        used += pages_in(row);
    }
    used
}

// How many objects there are.
fn count(objects: &[Option<ObjRow>]) -> u64
    requires at_most_4096_objects { length objects.now ≤ object_limit }
    ensures { result ≡ sum_by count_in objects.now }
{
    let mut count = 0;
    for row in objects {
        if row.is_some() {
            count += 1;
        }
    }
    count
}

/// What is reported of a volume with these rows.
pub fn summary_of(rows: &VolumeRows) -> Summary
    requires held { AreHeld rows.now }
    ensures told { TellsOf result rows.now }
    ensures frames { result.frames ≡ rows.now.params.frames }
{
    Summary {
        frames: rows.params.frames(),
        objects: count(&rows.objects),
        pages: used(&rows.objects),
        accounts: rows.accounts.len() as u64,
        threads: rows.threads.len() as u64,
        period: rows.globals.period(),
        credits: rows.params.credits(),
    }
}
