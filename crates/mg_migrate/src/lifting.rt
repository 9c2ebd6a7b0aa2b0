// A volume of version 1 looked at as one of this version, block by block.
ghost use Rattle.std.specs.Prelude.{◌≡◌, ◌≤◌, ◌<◌, ◌+◌, ◌/◌, ◌%◌, OnOk, option_map};
ghost use Rattle.std.specs.Option.{ForSome};
ghost use Rattle.mg_disk.specs.Disk.{Image};
ghost use Rattle.mg_disk.specs.Reads.{OnlyReads};
ghost use Rattle.mg_journal.specs.Looked.{Fits};
ghost use Rattle.mg_migrate.specs.Layout1.{total1_blocks};
ghost use Rattle.mg_migrate.specs.Lifted.{lifted, lifted_block, lifted_objects};
ghost use Rattle.mg_model.specs.Layout.{first_object_block, globals_block, total_blocks};
ghost use Rattle.mg_model.specs.Replay.{block_of, replay};

use crate::fresh::TABLE1_BLOCK;
use crate::rows::lift_objects;
use mg_check::Contents;
use mg_disk::{BLOCK_SIZE, Block, Disk};
use mg_faults::Failed;
use mg_journal::View;
use mg_layout::{FIRST_OBJECT_BLOCK, GLOBALS_BLOCK, SUPER_BLOCK, TABLE_BLOCK, write_super};
use mg_model::Params;
use std::marker::Model;

/// The contents that a volume of version 1 has, in the layout of this version: what is seen through its journal, with its
/// settings.
#[derive(Drop)]
pub(crate) struct Lifting {
    view: View,
    params: Params,
}

impl Model for Lifting {
    ghost use Rattle.std.specs.Prelude.{◌≡◌};
    ghost use Rattle.mg_migrate.specs.Layout1.{total1_blocks};
    ghost use Rattle.mg_migrate.specs.LiftedView.{LiftedView};

    ghost Value = { LiftedView };

    ghost view = { λ lifting. record { placed = lifting.view; settings = lifting.params } };

    ghost invariant = { λ lifting. lifting.view.total ≡ total1_blocks lifting.params.frames };
}

impl Lifting {
    /// The volume that is seen so, with these settings.
    pub(crate) fn new(view: View, params: &Params) -> Lifting
        requires { view.total ≡ total1_blocks params.now.frames }
        ensures { result ≡ record { placed = view; settings = params.now } }
    {
        Lifting {
            view,
            params: *params,
        }
    }
}

// Spells block `i` in front of the globals: the superblock, or a block of the gate and the closed journal.
fn write_front(params: &Params, i: u64, out: &mut Block)
    requires { i < globals_block }
    ensures { (r : Image) → out.new ≡ lifted_block params.now r i }
{
    if i == SUPER_BLOCK {
        write_super(params, out);
    } else {
        *out = [0; BLOCK_SIZE];
    }
}

// Gives block k of the objects: two of them come of one.
fn read_objects<D: Disk>(view: &View, disk: &mut D, k: u64, out: &mut Block) -> Result<(), Failed>
    requires place { first_object_block + k / 2 < view.now.total }
    requires within_disk { view.now.total ≤ D.block_count disk.old }
    requires fits { ForSome (D.seen disk.old) (λ image. Fits view.now image) }
    ensures block { OnOk result (ForSome (D.seen disk.old) (λ image. ForSome (replay image view.now.total) (λ r. out.new ≡ lifted_objects (block_of r (first_object_block + k / 2)) (k % 2)))) }
    ensures reads { OnlyReads D.Disk disk.old disk.new result }
{
    let mut old = [0; BLOCK_SIZE];
    match view.read(disk, FIRST_OBJECT_BLOCK + k / 2, &mut old) {
        Ok(()) => {
            lift_objects(&old, k % 2, out);
            Ok(())
        }
        Err(Failed) => Err(Failed),
    }
}

impl Contents for Lifting {
    ghost total = { λ l. total_blocks l.settings.frames };

    ghost of = { λ l image. option_map (lifted l.settings) (replay image l.placed.total) };

    ghost need = { λ l. l.placed.total };

    ghost Fits = { λ l image. Fits l.placed image };

    fn read<D: Disk>(&self, disk: &mut D, i: u64, out: &mut Block) -> Result<(), Failed> {
        if i < GLOBALS_BLOCK {
            write_front(&self.params, i, out);
            Ok(())
        } else if i < FIRST_OBJECT_BLOCK {
            self.view.read(disk, i, out)
        } else if i < TABLE_BLOCK {
            read_objects(&self.view, disk, i - FIRST_OBJECT_BLOCK, out)
        } else {
            self.view.read(disk, i - (TABLE_BLOCK - TABLE1_BLOCK), out)
        }
    }
    /// From the frame table on, blocks that follow one another in the old volume follow one another here.
    fn read_blocks<D: Disk>(
        &self,
        disk: &mut D,
        first: u64,
        out: &mut [Block],
    ) -> Result<(), Failed> {
        if first >= TABLE_BLOCK {
            return self
                .view
                .read_blocks(disk, first - (TABLE_BLOCK - TABLE1_BLOCK), out);
        }
        for k in 0..out.len() {
            self.read(disk, first + k as u64, &mut out[k])?;
        }
        Ok(())
    }
}
