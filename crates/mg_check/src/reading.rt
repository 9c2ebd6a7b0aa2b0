// Reading blocks of a volume, through its journal or in another way.
ghost use Rattle.std.specs.Prelude.{◌≡◌, ◌+◌, ◌-◌, ◌^◌, ◌≤◌, ◌<◌, ℕ, Option, OnOk, length};
ghost use Rattle.std.specs.Option.{ForSome};
ghost use Rattle.mg_disk.specs.Disk.{HasBlocks, Image, InRange, block_at};
ghost use Rattle.mg_disk.specs.Reads.{OnlyReads};
ghost use Rattle.mg_journal.specs.Looked.{Fits};
ghost use Rattle.mg_model.specs.Replay.{block_of, replay};
ghost use Rattle.mg_check.specs.Reads.{CanRead, IsRun, contents};

use mg_disk::{BLOCK_SIZE, Block, COPY_BLOCKS, Disk};
use mg_faults::Failed;
use mg_journal::View;

/// The contents of a volume, as blocks of a disk give them. Whoever has them judges and reads their rows with [`read_rows`].
///
/// [`read_rows`]: crate::read_rows
pub trait Contents {
    /// How many blocks they have.
    ghost total: { Self → ℕ };

    /// The contents that an image has, if it has some.
    ghost of: { Self → Image → Option Image };

    /// How many blocks a disk has to have.
    ghost need: { Self → ℕ };

    /// Whether they can be read from this image.
    ghost Fits: { Self → Image → Type 0 };

    /// Gives block `i` of the contents. It writes nothing. A read that fails leaves any bytes in `out`.
    fn read<D: Disk>(&self, disk: &mut D, i: u64, out: &mut Block) -> Result<(), Failed>
        requires place { i < total self.now }
        requires within_disk { need self.now ≤ D.block_count disk.old }
        requires fits { ForSome (D.seen disk.old) (λ image. Fits self.now image) }
        ensures block { OnOk result (ForSome (D.seen disk.old) (λ image. ForSome (of self.now image) (λ r. out.new ≡ block_at r i))) }
        ensures reads { OnlyReads D.Disk disk.old disk.new result };

    /// Gives blocks of the contents one after another, the first of them block `first`, as many as `out` has room for. It
    /// writes nothing. A read that fails leaves any bytes in `out`.
    ///
    /// If contents have no faster way, this is a call of `read` a block.
    fn read_blocks<D: Disk>(
        &self,
        disk: &mut D,
        first: u64,
        out: &mut [Block],
    ) -> Result<(), Failed>
        requires place { first + length out.old ≤ total self.now }
        requires ends { first + length out.old < 2 ^ 64 }
        requires within_disk { need self.now ≤ D.block_count disk.old }
        requires fits { ForSome (D.seen disk.old) (λ image. Fits self.now image) }
        ensures read { OnOk result (ForSome (D.seen disk.old) (λ image. ForSome (of self.now image) (HasBlocks first out.new))) }
        ensures count { length out.new ≡ length out.old }
        ensures reads { OnlyReads D.Disk disk.old disk.new result }
    {
        for k in 0..out.len() {
            self.read(disk, first + k as u64, &mut out[k])?;
        }
        Ok(())
    }
}

// What the journal of a volume gives: its contents.
impl Contents for View {
    ghost total = { λ v. v.total };

    ghost of = { λ v image. replay image v.total };

    ghost need = { λ v. v.total };

    ghost Fits = { λ v image. Fits v image };

    fn read<D: Disk>(&self, disk: &mut D, i: u64, out: &mut Block) -> Result<(), Failed> {
        View::read(self, disk, i, out)
    }

    fn read_blocks<D: Disk>(
        &self,
        disk: &mut D,
        first: u64,
        out: &mut [Block],
    ) -> Result<(), Failed> {
        View::read_blocks(self, disk, first, out)
    }
}

/// Gives block `i` of the contents.
pub(crate) fn read_block<C: Contents, D: Disk>(
    view: &C,
    disk: &mut D,
    i: u64,
    out: &mut Block,
) -> Result<(), Failed>
    requires place { i < C.total view.now }
    requires can { CanRead D.Disk (C.need view.now) (C.Fits view.now) disk.old }
    ensures block { OnOk result (ForSome (contents D.Disk (C.of view.now) disk.old) (λ r. out.new ≡ block_of r i)) }
    ensures reads { OnlyReads D.Disk disk.old disk.new result }
{
    view.read(disk, i, out)
}

/// Blocks of the contents that were read together.
#[derive(Drop)]
pub(crate) struct BlockRun {
    first: u64,
    count: u64,
    blocks: [Block; COPY_BLOCKS],
}

impl BlockRun {
    /// No blocks.
    pub(crate) fn new() -> BlockRun
        ensures none { result.count ≡ 0 }
    {
        BlockRun {
            first: 0,
            count: 0,
            blocks: [[0; BLOCK_SIZE]; COPY_BLOCKS],
        }
    }

    /// Sees to it that block `i` of the contents is among them. If it is not there yet, it is read, and so are those that follow it
    /// before block `end`, as many as there is room for.
    pub(crate) fn turn_to<C: Contents, D: Disk>(
        &mut self,
        view: &C,
        disk: &mut D,
        i: u64,
        end: u64,
    ) -> Result<(), Failed>
        requires place { i < end }
        requires within { end ≤ C.total view.now }
        requires can { CanRead D.Disk (C.need view.now) (C.Fits view.now) disk.old }
        requires there { ForSome (contents D.Disk (C.of view.now) disk.old) (IsRun self.old.first self.old.count self.old.blocks) }
        requires room { self.old.count ≤ 32 }
        ensures there { OnOk result (ForSome (contents D.Disk (C.of view.now) disk.old) (IsRun self.new.first self.new.count self.new.blocks)) }
        ensures room { OnOk result (self.new.count ≤ 32) }
        ensures among { OnOk result (InRange self.new.first self.new.count i) }
        ensures reads { OnlyReads D.Disk disk.old disk.new result }
    {
        if self.first <= i && i - self.first < self.count {
            return Ok(());
        }
        let count = (end - i).min(COPY_BLOCKS as u64);
        read_run(view, disk, i, &mut self.blocks[..count as usize])?;
        self.first = i;
        self.count = count;
        Ok(())
    }

    /// Block `i` of the contents.
    pub(crate) fn block(&self, i: u64) -> &Block
        requires among { InRange self.now.first self.now.count i }
        requires room { self.now.count ≤ 32 }
        ensures block { result.now ≡ block_at self.now.blocks (i - self.now.first) }
    {
        &self.blocks[(i - self.first) as usize]
    }
}

// Gives blocks of the contents one after another, the first of them block `first`.
fn read_run<C: Contents, D: Disk>(
    view: &C,
    disk: &mut D,
    first: u64,
    out: &mut [Block],
) -> Result<(), Failed>
    requires place { first + length out.old ≤ C.total view.now }
    requires ends { first + length out.old < 2 ^ 64 }
    requires can { CanRead D.Disk (C.need view.now) (C.Fits view.now) disk.old }
    ensures read { OnOk result (ForSome (contents D.Disk (C.of view.now) disk.old) (HasBlocks first out.new)) }
    ensures same_length { length out.new ≡ length out.old }
    ensures reads { OnlyReads D.Disk disk.old disk.new result }
{
    view.read_blocks(disk, first, out)
}
