// The journal of a volume: commits that a stop leaves whole or absent.
ghost use Rattle.std.specs.Prelude.{◌≡◌, ◌≤◌, ◌<◌, ◌+◌, [], IfOk, IsOk, IsSome, None, OnOk, is_ok, length, true};
ghost use Rattle.std.specs.Option.{ForSome};
ghost use Rattle.mg_disk.specs.Disk.{block_at};
ghost use Rattle.mg_disk.specs.Stops.{DiskCalls, DiskCallsBy, Leaves, LeftOr, NothingPending, WritesNothing};
ghost use Rattle.mg_disk.specs.Reads.{Becomes, OnlyReads};
ghost use Rattle.mg_model.specs.Layout.{body_limit, globals_block, segment_body, segment_count};
ghost use Rattle.mg_model.specs.Replay.{homes_fit, replay};
ghost use Rattle.mg_journal.specs.Contents.{SameContents};
ghost use Rattle.mg_journal.specs.Looked.{IsViewOf};
ghost use Rattle.mg_journal.specs.Newest.{Adds};
ghost use Rattle.mg_journal.specs.Phases.{IsNext};
ghost use Rattle.mg_journal.specs.Standing.{AllClosed, CanCommit, HasRoom, IsCommitted, IsOpened, OldOrNew, SameVolume, Stands, is_live, total_of};

use crate::committing::write_firmly;
use crate::faults::ViewFault;
use crate::places::{SEGMENTS, gate_of, index_of, opened_gate};
use crate::recovering::{recover, sync_and_recover};
use crate::segment::write_segment;
use crate::view::View;
use crate::writes::Writes;
use mg_disk::{Block, Disk};
use mg_faults::Failed;
use std::alloc::Global;
use std::marker::Model;

/// The journal of a volume on a disk.
#[derive(Drop)]
pub struct Store {
    // Where the newest body of each block lies.
    view: View,
    live: bool,
    // How many segments are open: the first ones.
    opened: u64,
}

impl Model for Store {
    ghost use Rattle.mg_journal.specs.Held.{IsKept, Store};

    ghost Value = { Store };

    ghost view = { λ s. record { total = s.view.total; live = s.live; opened = s.opened; table = s.view.table } };

    ghost invariant = { λ s. IsKept (record { total = s.view.total; live = s.live; opened = s.opened; table = s.view.table }) };
}

impl Store {
    /// Opens the journal of a volume of `total` blocks, whatever a stop left of a commit: what reads give is synced, each home that
    /// open segments name is written once, from its newest body, and synced, and then the gates are closed first to last, with a
    /// sync after each. The contents of what reads give stay, whatever the answer, and at any moment a stop leaves an image that
    /// it might have left before, or these contents. After Ok nothing is pending, and no segment is open.
    ///
    /// [`ViewFault::Damaged`] comes if the journal cannot be replayed, and then nothing was written,
    /// [`ViewFault::Disk`] only if a call of the disk failed, and [`ViewFault::Memory`] if there was not enough
    /// memory.
    pub fn open<D: Disk>(alloc: Global, disk: &mut D, total: u64) -> Result<Store, ViewFault>
        requires journal { globals_block ≤ total }
        requires within_disk { total ≤ D.block_count disk.old }
        ensures any_moment { ForSome (D.seen disk.old) (λ image. Leaves D.Disk disk.old disk.new (LeftOr D.Disk disk.old (SameContents total image))) }
        ensures contents { Becomes (SameContents total) (D.seen disk.old) (D.seen disk.new) }
        ensures opened { IfOk result (λ store. IsOpened D.Disk total store disk.new) }
        ensures replayed { IfOk result (λ _. ForSome (D.seen disk.old) (λ image. IsSome (replay image total))) }
        ensures damaged { result ≡ Err ViewFault.Damaged → ForSome (D.seen disk.old) (λ image. replay image total ≡ None) }
        ensures untouched { result ≡ Err ViewFault.Damaged → WritesNothing D.Disk disk.old disk.new }
        ensures calls { DiskCallsBy D.Disk disk.old disk.new (result ≡ Err ViewFault.Disk) }
    {
        let view = match View::look(alloc, disk, total) {
            Ok(view) => view,
            Err(fault) => return Err(fault),
        };
        match Store::recover(disk, view) {
            Ok(store) => Ok(store),
            Err(Failed) => Err(ViewFault::Disk),
        }
    }

    /// Opens the journal of a disk that this view fits, as [`Store::open`] does once it has looked through the journal. It
    /// takes no memory. [`Failed`] comes only if a call of the disk failed.
    pub fn recover<D: Disk>(disk: &mut D, mut view: View) -> Result<Store, Failed>
        requires looks { IsViewOf D.Disk view disk.old }
        ensures any_moment { ForSome (D.seen disk.old) (λ image. Leaves D.Disk disk.old disk.new (LeftOr D.Disk disk.old (SameContents view.total image))) }
        ensures contents { Becomes (SameContents view.total) (D.seen disk.old) (D.seen disk.new) }
        ensures opened { IfOk result (λ store. IsOpened D.Disk view.total store disk.new) }
        ensures calls { DiskCalls D.Disk disk.old disk.new result }
    {
        match sync_and_recover(disk, &mut view) {
            Ok(()) => {
                view.clear();
                Ok(Store {
                    view,
                    live: true,
                    opened: 0,
                })
            }
            Err(Failed) => Err(Failed),
        }
    }

    /// Whether it may still commit: true from opening on, and false from the first commit on that answered [`Failed`].
    pub fn live(&self) -> bool
        ensures { result ≡ is_live self.now }
    {
        self.live
    }

    /// Writes these blocks, so that a stop at any moment leaves the old contents or the new: into the next of the journal's
    /// eight segments, with two syncs, while homes wait. If all eight are open it makes a checkpoint first, which writes
    /// the homes and closes the gates. With nothing in `writes` no call is made. After [`Failed`], which comes only if a call of
    /// the disk failed, it is not live: the disk has the old contents or the new.
    pub fn commit<D: Disk>(&mut self, disk: &mut D, writes: &Writes) -> Result<(), Failed>
        requires ready { CanCommit D.Disk self.old disk.old }
        requires homes { homes_fit (total_of self.old) writes.now ≡ true }
        ensures any_moment { ForSome (D.seen disk.old) (λ image. Leaves D.Disk disk.old disk.new (OldOrNew (total_of self.old) writes.now image)) }
        ensures done { OnOk result (Becomes (IsCommitted (total_of self.old) writes.now) (D.seen disk.old) (D.seen disk.new)) }
        ensures stands { OnOk result (Stands D.Disk self.new disk.new) }
        ensures live { is_live self.new ≡ is_ok result }
        ensures total { total_of self.new ≡ total_of self.old }
        ensures no_call { writes.now ≡ [] → (disk.new ≡ disk.old) × IsOk result }
        ensures calls { DiskCalls D.Disk disk.old disk.new result }
    {
        if writes.len() == 0 {
            return Ok(());
        }
        match self.commit_segment(disk, writes) {
            Ok(()) => Ok(()),
            Err(Failed) => {
                self.live = false;
                Err(Failed)
            }
        }
    }

    /// Gives block `i` of the contents. A read that fails leaves any bytes in `out`.
    pub fn read<D: Disk>(&self, disk: &mut D, i: u64, out: &mut Block) -> Result<(), Failed>
        requires place { i < total_of self.now }
        requires stands { Stands D.Disk self.now disk.old }
        ensures block { OnOk result (ForSome (D.seen disk.old) (λ image. ForSome (replay image (total_of self.now)) (λ r. out.new ≡ block_at r i))) }
        ensures stands { Stands D.Disk self.now disk.new }
        ensures reads { OnlyReads D.Disk disk.old disk.new result }
    {
        self.view.read(disk, i, out)
    }

    // Writes these blocks into the next segment, after a checkpoint if none is left.
    fn commit_segment<D: Disk>(&mut self, disk: &mut D, writes: &Writes) -> Result<(), Failed>
        requires stands { Stands D.Disk self.old disk.old }
        requires homes { homes_fit (total_of self.old) writes.now ≡ true }
        requires at_most_160_writes { length writes.now ≤ body_limit }
        ensures any_moment { ForSome (D.seen disk.old) (λ image. Leaves D.Disk disk.old disk.new (OldOrNew (total_of self.old) writes.now image)) }
        ensures done { OnOk result (Becomes (IsCommitted (total_of self.old) writes.now) (D.seen disk.old) (D.seen disk.new)) }
        ensures stands { OnOk result (Stands D.Disk self.new disk.new) }
        ensures same { SameVolume self.old self.new }
        ensures calls { DiskCalls D.Disk disk.old disk.new result }
    {
        self.make_room(disk)?;
        self.write_next(disk, writes)?;
        self.add_segment(writes);
        Ok(())
    }

    // Makes a checkpoint if all segments are open.
    fn make_room<D: Disk>(&mut self, disk: &mut D) -> Result<(), Failed>
        requires stands { Stands D.Disk self.old disk.old }
        ensures any_moment { ForSome (D.seen disk.old) (λ image. Leaves D.Disk disk.old disk.new (SameContents (total_of self.old) image)) }
        ensures contents { OnOk result (Becomes (SameContents (total_of self.old)) (D.seen disk.old) (D.seen disk.new)) }
        ensures stands { OnOk result (Stands D.Disk self.new disk.new) }
        ensures room { OnOk result (HasRoom self.old.opened self.new.opened) }
        ensures at_most_8_open { self.old.opened ≤ segment_count }
        ensures kept { self.old.opened < segment_count → (D.seen disk.new ≡ D.seen disk.old) × (self.new.opened ≡ self.old.opened) }
        ensures same { SameVolume self.old self.new }
        ensures calls { DiskCalls D.Disk disk.old disk.new result }
    {
        if self.opened < SEGMENTS {
            Ok(())
        } else {
            self.close_segments(disk)
        }
    }

    /// Writes the newest body of each block that an open segment names to its home, once, and syncs it, and then closes
    /// the gates first to last, with a sync after each, so that no segment is open. The contents stay, whatever the answer. After
    /// [`Failed`], which comes only if a call of the disk failed, it is not live.
    pub fn checkpoint<D: Disk>(&mut self, disk: &mut D) -> Result<(), Failed>
        requires ready { CanCommit D.Disk self.old disk.old }
        ensures any_moment { ForSome (D.seen disk.old) (λ image. Leaves D.Disk disk.old disk.new (SameContents (total_of self.old) image)) }
        ensures contents { Becomes (SameContents (total_of self.old)) (D.seen disk.old) (D.seen disk.new) }
        ensures closed { OnOk result (ForSome (D.seen disk.new) AllClosed) }
        ensures stands { OnOk result (Stands D.Disk self.new disk.new) }
        ensures live { is_live self.new ≡ is_ok result }
        ensures total { total_of self.new ≡ total_of self.old }
        ensures calls { DiskCalls D.Disk disk.old disk.new result }
    {
        match self.close_segments(disk) {
            Ok(()) => Ok(()),
            Err(Failed) => {
                self.live = false;
                Err(Failed)
            }
        }
    }

    // Recovers the disk as an opening does, but for gates that are known to be open. The contents stay.
    fn close_segments<D: Disk>(&mut self, disk: &mut D) -> Result<(), Failed>
        requires stands { Stands D.Disk self.old disk.old }
        ensures any_moment { ForSome (D.seen disk.old) (λ image. Leaves D.Disk disk.old disk.new (SameContents (total_of self.old) image)) }
        ensures contents { Becomes (SameContents (total_of self.old)) (D.seen disk.old) (D.seen disk.new) }
        ensures stands { OnOk result (Stands D.Disk self.new disk.new) }
        ensures none { OnOk result (self.new.opened ≡ 0) }
        ensures closed { OnOk result (ForSome (D.seen disk.new) AllClosed) }
        ensures same { SameVolume self.old self.new }
        ensures calls { DiskCalls D.Disk disk.old disk.new result }
    {
        recover(disk, &mut self.view, self.opened)?;
        self.view.clear();
        self.opened = 0;
        Ok(())
    }

    // Writes the index and the bodies of the next segment, and then opens its gate, with a sync after each.
    fn write_next<D: Disk>(&self, disk: &mut D, writes: &Writes) -> Result<(), Failed>
        requires stands { Stands D.Disk self.now disk.old }
        requires fewer_than_8_open { self.now.opened < segment_count }
        requires homes { homes_fit (total_of self.now) writes.now ≡ true }
        requires at_most_160_writes { length writes.now ≤ body_limit }
        ensures any_moment { ForSome (D.seen disk.old) (λ image. Leaves D.Disk disk.old disk.new (OldOrNew (total_of self.now) writes.now image)) }
        ensures next { OnOk result (Becomes (IsNext (total_of self.now) self.now.opened writes.now) (D.seen disk.old) (D.seen disk.new)) }
        ensures settled { OnOk result (NothingPending D.Disk disk.new) }
        ensures calls { DiskCalls D.Disk disk.old disk.new result }
    {
        write_segment(disk, self.opened, writes)?;
        write_firmly(disk, gate_of(self.opened), &opened_gate())
    }

    // Adds the next segment, which is open with these bodies.
    fn add_segment(&mut self, writes: &Writes)
        requires fewer_than_8_open { self.old.opened < segment_count }
        requires homes { homes_fit (total_of self.old) writes.now ≡ true }
        requires at_most_160_writes { length writes.now ≤ body_limit }
        ensures opened { self.new.opened ≡ self.old.opened + 1 }
        ensures added { Adds (segment_body self.old.opened 0) writes.now self.old.table self.new.table }
        ensures same { SameVolume self.old self.new }
    {
        self.view.add(index_of(self.opened) + 1, writes);
        self.opened += 1;
    }
}
