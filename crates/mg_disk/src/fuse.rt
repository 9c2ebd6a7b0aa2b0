//! A disk that dies after some calls.
ghost use Rattle.std.specs.Prelude.{◌≡◌, ◌+◌, ◌-◌, ◌<◌, ◌≤◌, ◌↔◌, IsErr, length, min};
ghost use Rattle.mg_faults.specs.Faults.{is_last};

use crate::counted::counted;
use crate::{Block, Disk, Failed};
use mg_faults::FaultCount;

/// A disk that passes a number of calls of read, write and sync on, and fails each call after them.
///
/// Its count of faults is its own: 0 at first, raised by each call that answers [`Failed`], whether it passed or not.
#[derive(Drop)]
pub struct Fuse<D: Disk> {
    inner: D,
    calls_left: u64,
    count: FaultCount,
}

impl<D: Disk> Fuse<D> {
    ghost use Rattle.mg_disk.specs.Stops.{NothingPending};
    ghost use Rattle.mg_disk.specs.Fuse.{inner_of, calls_left};

    /// Passes `calls` calls to `inner`. No call is made here.
    pub fn new(inner: D, calls: u64) -> Fuse<D>
        ensures inner { inner_of result ≡ inner }
        ensures calls { calls_left result ≡ calls }
        ensures settled { NothingPending D.Disk inner → NothingPending ⟦<Fuse<D> as Disk>⟧ result }
        ensures count { ⟦<Fuse<D> as Disk>⟧.faults result ≡ 0 }
    {
        Fuse {
            inner,
            calls_left: calls,
            count: FaultCount::new(),
        }
    }

    /// The disk in the state that its calls left.
    pub fn into_inner(self) -> D
        ensures { result ≡ inner_of self }
    {
        self.inner
    }
}

impl<D: Disk> Disk for Fuse<D> {
    ghost use Rattle.mg_disk.specs.Fuse.{Burns, PassesReads, PassesWrites};
    ghost use Rattle.mg_disk.specs.Calls.{IsRead, IsReadRun, IsWrite, IsWriteRun, IsSync};

    ghost block_count = { λ f. D.Disk.block_count f.inner };

    ghost seen = { λ f. D.Disk.seen f.inner };

    ghost tells_stops = { λ f. D.Disk.tells_stops f.inner };

    ghost time = { λ f. D.Disk.time f.inner };

    ghost faults = { λ f. f.count };

    ghost is_spent = { λ f. is_last f.count };

    ghost now_has_been = { λ f. D.Disk.now_has_been f.inner };

    ghost counts_now = { λ f. D.Disk.counts_now f.inner };

    ghost seen_may_stay = { λ f. D.Disk.seen_may_stay f.inner };

    ghost only_told = { λ f. D.Disk.only_told f.inner };

    ghost seen_count = { λ f. D.Disk.seen_count f.inner };

    ghost seen_bytes = { λ f. D.Disk.seen_bytes f.inner };

    fn blocks(&self) -> u64 {
        self.inner.blocks()
    }

    fn read(&mut self, i: u64, out: &mut Block) -> Result<(), Failed>
        requires in_range { i < ⟦<Fuse<D> as Disk>⟧.block_count self.old }
        ensures meets { IsRead ⟦<Fuse<D> as Disk>⟧ self.old self.new i out.new result }
        ensures burns { Burns 1 D.Disk self.old self.new result }
    {
        let outcome = match spend(&mut self.calls_left) {
            Ok(()) => self.inner.read(i, out),
            Err(e) => Err(e),
        };
        counted(outcome, &mut self.count)
    }

    fn write(&mut self, i: u64, from: &Block) -> Result<(), Failed>
        requires in_range { i < ⟦<Fuse<D> as Disk>⟧.block_count self.old }
        ensures meets { IsWrite ⟦<Fuse<D> as Disk>⟧ self.old self.new i from.now result }
        ensures burns { Burns 1 D.Disk self.old self.new result }
    {
        let outcome = match spend(&mut self.calls_left) {
            Ok(()) => self.inner.write(i, from),
            Err(e) => Err(e),
        };
        counted(outcome, &mut self.count)
    }

    /// Each block is a call, and is spent whatever the run answers. If fewer calls are left, as many blocks are read, and
    /// the run fails.
    fn read_blocks(&mut self, first: u64, out: &mut [Block]) -> Result<(), Failed>
        requires in_range { first + length out.old ≤ ⟦<Fuse<D> as Disk>⟧.block_count self.old }
        ensures meets { IsReadRun ⟦<Fuse<D> as Disk>⟧ self.old self.new first (length out.old) out.new result }
        ensures burns { Burns (length out.old) D.Disk self.old self.new result }
        ensures passes { PassesReads D.Disk self.old self.new first out.old out.new result }
    {
        let passing = spend_run(&mut self.calls_left, out.len());
        let outcome = if passing < out.len() {
            if passing > 0 {
                let _ = self.inner.read_blocks(first, &mut out[..passing]);
            }
            Err(Failed)
        } else if passing > 0 {
            self.inner.read_blocks(first, out)
        } else {
            Ok(())
        };
        counted(outcome, &mut self.count)
    }

    /// Each block is a call, and is spent whatever the run answers. If fewer calls are left, as many blocks are written, and
    /// the run fails.
    fn write_blocks(&mut self, first: u64, from: &[Block]) -> Result<(), Failed>
        requires in_range { first + length from.now ≤ ⟦<Fuse<D> as Disk>⟧.block_count self.old }
        ensures meets { IsWriteRun ⟦<Fuse<D> as Disk>⟧ self.old self.new first from.now result }
        ensures burns { Burns (length from.now) D.Disk self.old self.new result }
        ensures passes { PassesWrites D.Disk self.old self.new first from.now result }
    {
        let passing = spend_run(&mut self.calls_left, from.len());
        let outcome = if passing < from.len() {
            if passing > 0 {
                let _ = self.inner.write_blocks(first, &from[..passing]);
            }
            Err(Failed)
        } else if passing > 0 {
            self.inner.write_blocks(first, from)
        } else {
            Ok(())
        };
        counted(outcome, &mut self.count)
    }

    fn sync(&mut self) -> Result<(), Failed>
        ensures meets { IsSync ⟦<Fuse<D> as Disk>⟧ self.old self.new result }
        ensures burns { Burns 1 D.Disk self.old self.new result }
    {
        let outcome = match spend(&mut self.calls_left) {
            Ok(()) => self.inner.sync(),
            Err(e) => Err(e),
        };
        counted(outcome, &mut self.count)
    }
}

/// Spends one call. It fails if none is left.
fn spend(calls_left: &mut u64) -> Result<(), Failed>
    ensures blown { IsErr result ↔ (calls_left.old ≡ 0) }
    ensures spent { calls_left.new ≡ calls_left.old - 1 }
{
    if *calls_left == 0 {
        return Err(Failed);
    }
    *calls_left -= 1;
    Ok(())
}

/// Spends `calls` calls, or all that are left if these are fewer. Returns how many were spent.
fn spend_run(calls_left: &mut u64, calls: usize) -> usize
    ensures passing { result ≡ min calls_left.old calls }
    ensures spent { calls_left.new ≡ calls_left.old - calls }
{
    let passing = (*calls_left).min(calls as u64);
    *calls_left -= passing;
    passing as usize
}
