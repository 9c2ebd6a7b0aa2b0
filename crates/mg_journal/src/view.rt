// A journal that is looked through and left as it is.
ghost use Rattle.std.specs.Prelude.{◌≡◌, ◌+◌, ◌≤◌, ◌<◌, [], All, IfOk, IsSome, None, OnOk, length, option_map, true};
ghost use Rattle.std.specs.Option.{ForSome};
ghost use Rattle.mg_disk.specs.Disk.{HasBlocks, SameBut, block_at};
ghost use Rattle.mg_disk.specs.Stops.{DiskCalls, Leaves, NothingPending};
ghost use Rattle.mg_disk.specs.Reads.{Becomes, OnlyReads, OnlyReadsBy};
ghost use Rattle.mg_model.specs.Layout.{globals_block, segment_count};
ghost use Rattle.mg_model.specs.Replay.{homes_fit, replay, written};
ghost use Rattle.mg_journal.specs.Applied.{filled};
ghost use Rattle.mg_journal.specs.Contents.{names};
ghost use Rattle.mg_journal.specs.Looked.{Fits};
ghost use Rattle.mg_journal.specs.Newest.{Adds, Ascends, newest_at};
ghost use Rattle.mg_journal.specs.Places.{IsPlace, place_limit};

use crate::applying::HomeBuffers;
use crate::faults::ViewFault;
use crate::places::SEGMENTS;
use crate::reading::look_segment;
use crate::table::Table;
use crate::writes::Writes;
use mg_disk::{Block, Disk};
use mg_faults::Failed;
use std::alloc::Global;
use std::marker::Model;

/// The contents of a disk, seen through its journal: if a block was written to an open segment it is read there.
#[derive(Drop)]
pub struct View {
    total: u64,
    // Where the newest body of each block lies that the open segments have.
    table: Table,
    // Memory for the writing of homes.
    buffers: HomeBuffers,
}

impl Model for View {
    ghost use Rattle.std.specs.Prelude.{All};
    ghost use Rattle.mg_journal.specs.Looked.{Placed};
    ghost use Rattle.mg_journal.specs.Places.{IsPlace};

    ghost Value = { Placed };

    ghost view = { λ v. record { total = v.total; table = v.table } };

    ghost invariant = { λ v. All (IsPlace v.total) v.table };
}

impl View {
    /// Looks through the journal of a disk for a volume of `total` blocks. It only reads: each gate once, and each index of
    /// an open segment once.
    ///
    /// [`ViewFault::Damaged`] comes exactly if the journal cannot be replayed, [`ViewFault::Disk`] only if a call of
    /// the disk failed. [`ViewFault::Memory`] comes if out of memory. All memory is taken before the first call of the disk.
    pub fn look<D: Disk>(alloc: Global, disk: &mut D, total: u64) -> Result<View, ViewFault>
        requires journal { globals_block ≤ total }
        requires within_disk { total ≤ D.block_count disk.old }
        ensures fits { IfOk result (λ view. ForSome (D.seen disk.old) (λ image. Fits view image)) }
        ensures total { IfOk result (λ view. view.total ≡ total) }
        ensures damaged { result ≡ Err ViewFault.Damaged → ForSome (D.seen disk.old) (λ image. replay image total ≡ None) }
        ensures replayed { IfOk result (λ _. ForSome (D.seen disk.old) (λ image. IsSome (replay image total))) }
        ensures reads { OnlyReadsBy D.Disk disk.old disk.new (result ≡ Err ViewFault.Disk) }
    {
        let mut table = match Table::new(alloc) {
            Ok(table) => table,
            Err(_) => return Err(ViewFault::Memory),
        };
        let buffers = match HomeBuffers::new(alloc) {
            Ok(buffers) => buffers,
            Err(_) => return Err(ViewFault::Memory),
        };
        for segment in 0..SEGMENTS {
            match look_segment(disk, segment, total, &mut table) {
                Ok(()) => {}
                Err(fault) => return Err(fault),
            }
        }
        Ok(View {
            total,
            table,
            buffers,
        })
    }

    /// Writes the newest body of each block that the open segments have to its home, in the order of blocks, and syncs them. If
    /// there are none no call is made.
    pub(crate) fn write_homes<D: Disk>(&mut self, disk: &mut D) -> Result<(), Failed>
        requires journal { globals_block ≤ self.old.total }
        requires within_disk { self.old.total ≤ D.block_count disk.old }
        ensures ascends { Ascends self.old.table }
        ensures same { self.new ≡ self.old }
        ensures any_moment { NothingPending D.Disk disk.old → ForSome (D.seen disk.old) (λ image. Leaves D.Disk disk.old disk.new (SameBut (λ k. names (filled image self.old.table) k ≡ true) image)) }
        ensures written { OnOk result (D.seen disk.new ≡ option_map (λ image. written image (filled image self.old.table)) (D.seen disk.old)) }
        ensures torn { Becomes (λ image. SameBut (λ k. names (filled image self.old.table) k ≡ true) image) (D.seen disk.old) (D.seen disk.new) }
        ensures settled { OnOk result (NothingPending D.Disk disk.old → NothingPending D.Disk disk.new) }
        ensures calls { DiskCalls D.Disk disk.old disk.new result }
    {
        self.buffers.write(disk, self.table.as_slice())
    }

    /// Holds that these bodies are the newest, which lie from this block on.
    pub(crate) fn add(&mut self, first: u64, writes: &Writes)
        requires fits_in_table { length self.old.table + length writes.now ≤ place_limit }
        requires within { first + length writes.now ≤ globals_block }
        requires homes { homes_fit self.old.total writes.now ≡ true }
        ensures added { Adds first writes.now self.old.table self.new.table }
        ensures total { self.new.total ≡ self.old.total }
    {
        self.table.add(first, writes);
    }

    /// Holds that no segment is open any more.
    pub(crate) fn clear(&mut self)
        ensures none { self.new.table ≡ [] }
        ensures total { self.new.total ≡ self.old.total }
    {
        self.table.clear();
    }

    // The block that holds block `i` of the contents.
    fn place_of(&self, i: u64) -> u64
        requires below { i < self.now.total }
        ensures newest { result ≡ newest_at self.now.table i }
        ensures below { result < self.now.total }
    {
        match self.table.body_of(i) {
            Some(body) => body,
            None => i,
        }
    }

    /// Gives block `i` of the contents. A read that fails leaves any bytes in `out`.
    pub fn read<D: Disk>(&self, disk: &mut D, i: u64, out: &mut Block) -> Result<(), Failed>
        requires place { i < self.now.total }
        requires within_disk { self.now.total ≤ D.block_count disk.old }
        requires fits { ForSome (D.seen disk.old) (λ image. Fits self.now image) }
        ensures block { OnOk result (ForSome (D.seen disk.old) (λ image. ForSome (replay image self.now.total) (λ r. out.new ≡ block_at r i))) }
        ensures reads { OnlyReads D.Disk disk.old disk.new result }
    {
        disk.read(self.place_of(i), out)
    }
    /// Gives blocks of the contents one after another, the first of them block `first`, as many as `out` has room for. They
    /// are read together, and then those again that an open segment has, there. A read that fails leaves any bytes in `out`.
    pub fn read_blocks<D: Disk>(
        &self,
        disk: &mut D,
        first: u64,
        out: &mut [Block],
    ) -> Result<(), Failed>
        requires place { first + length out.old ≤ self.now.total }
        requires within_disk { self.now.total ≤ D.block_count disk.old }
        requires fits { ForSome (D.seen disk.old) (λ image. Fits self.now image) }
        ensures read { OnOk result (ForSome (D.seen disk.old) (λ image. ForSome (replay image self.now.total) (HasBlocks first out.new))) }
        ensures count { length out.new ≡ length out.old }
        ensures reads { OnlyReads D.Disk disk.old disk.new result }
    {
        disk.keeps_count();
        disk.read_blocks(first, out)?;
        for k in 0..out.len() {
            self.read_newer(disk, first + k as u64, &mut out[k])?;
        }
        Ok(())
    }

    // Reads block `i` again if an open segment has it. `block` has the bytes at its home.
    fn read_newer<D: Disk>(&self, disk: &mut D, i: u64, block: &mut Block) -> Result<(), Failed>
        requires place { i < self.now.total }
        requires within_disk { self.now.total ≤ D.block_count disk.old }
        requires fits { ForSome (D.seen disk.old) (λ image. Fits self.now image) }
        requires home { ForSome (D.seen disk.old) (λ image. block.old ≡ block_at image i) }
        ensures block { OnOk result (ForSome (D.seen disk.old) (λ image. ForSome (replay image self.now.total) (λ r. block.new ≡ block_at r i))) }
        ensures reads { OnlyReads D.Disk disk.old disk.new result }
    {
        let place = self.place_of(i);
        if place == i {
            Ok(())
        } else {
            disk.read(place, block)
        }
    }
}
