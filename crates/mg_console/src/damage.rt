// Says what is damaged in a volume.
ghost use Rattle.std.specs.Prelude.{◌≡◌, ◌≤◌};
ghost use Rattle.std.specs.Option.{ForSome};
ghost use Rattle.mg_disk.specs.Stops.{WritesNothing};
ghost use Rattle.mg_journal.specs.Looked.{Fits};

use crate::endings::report_of;
use mg_disk::{BLOCK_SIZE, Block, Disk};
use mg_journal::{View, ViewFault};
use mg_layout::{
    BLOCK_WORDS, FIRST_ACCOUNT_BLOCK, FIRST_OBJECT_BLOCK, FIRST_THREAD_BLOCK, GLOBALS_BLOCK,
    Geometry, TABLE_BLOCK, are_zeros,
};
use mg_model::Params;
use mg_rows::{account_in, object_in, read_globals, read_thread};
use std::io::Eprint;

/// Says what is damaged in a refused volume with these settings: its journal, or the first block with a row that is not well formed, or
/// else a rule between rows. It says nothing if a read fails or memory runs out. It writes nothing on the disk.
pub(crate) fn report_damage<R: AllocGlobal + Eprint, D: Disk>(
    rt: &R,
    program: &str,
    path: &str,
    disk: &mut D,
    params: &Params,
)
    ensures { WritesNothing D.Disk disk.old disk.new }
{
    let total = Geometry::of(params.frames()).total;
    if total > disk.blocks() || total < GLOBALS_BLOCK {
        return;
    }
    match View::look(rt.alloc(), disk, total) {
        Ok(view) => report_rows(rt, program, path, disk, &view, params, total),
        Err(ViewFault::Damaged) => {
            report_of(
                rt,
                program,
                path,
                "the journal is damaged: an open segment can't be replayed",
            );
        }
        Err(ViewFault::Disk) => {}
        Err(ViewFault::Memory) => {}
    }
}

/// Names the first block with a row that is not well formed, or says that every row is.
fn report_rows<R: Eprint, D: Disk>(
    rt: &R,
    program: &str,
    path: &str,
    disk: &mut D,
    view: &View,
    params: &Params,
    total: u64,
)
    requires total { view.now.total ≡ total }
    requires within_disk { total ≤ D.block_count disk.old }
    requires fits { ForSome (D.seen disk.old) (λ image. Fits view.now image) }
    ensures { WritesNothing D.Disk disk.old disk.new }
{
    let end = Geometry::of(params.frames()).first_frame.min(total);
    for i in GLOBALS_BLOCK..end {
        let mut block = [0; BLOCK_SIZE];
        if view.read(disk, i, &mut block).is_err() {
            return;
        }
        if !is_spelled(i, &block, params.frames()) {
            let part = part_of(i);
            let _ = eprintln!(rt; "{program}: {path}: block {i}, {part}, is damaged");
            return;
        }
    }
    report_of(
        rt,
        program,
        path,
        "each row is well formed, but a rule between rows is broken",
    );
}

/// What is in a block after the journal.
fn part_of(i: u64) -> &'static str {
    if i < FIRST_ACCOUNT_BLOCK {
        "the counters"
    } else if i < FIRST_THREAD_BLOCK {
        "in the table of accounts"
    } else if i < FIRST_OBJECT_BLOCK {
        "in the table of threads"
    } else if i < TABLE_BLOCK {
        "in the table of objects"
    } else {
        "in the frame table"
    }
}

/// Whether each row in this block after the journal is well formed, in a volume of `frames` frames.
fn is_spelled(i: u64, block: &Block, frames: u64) -> bool {
    if i < FIRST_ACCOUNT_BLOCK {
        read_globals(block).is_some()
    } else if i < FIRST_THREAD_BLOCK {
        are_accounts(block)
    } else if i < FIRST_OBJECT_BLOCK {
        read_thread(block).is_some()
    } else if i < TABLE_BLOCK {
        are_objects(block)
    } else {
        is_table(i - TABLE_BLOCK, block, frames)
    }
}

fn are_accounts(block: &Block) -> bool {
    for j in 0..64 {
        if account_in(block, j).is_none() {
            return false;
        }
    }
    true
}

fn are_objects(block: &Block) -> bool {
    for j in 0..4 {
        if object_in(block, j).is_none() {
            return false;
        }
    }
    true
}

/// Whether a block of the frame table has no entry after that of the last frame.
fn is_table(i: u64, block: &Block, frames: u64) -> bool {
    let first = i.saturating_mul(BLOCK_WORDS);
    let entries = frames.saturating_sub(first).min(BLOCK_WORDS);
    are_zeros(&block[entries as usize * 8..])
}
