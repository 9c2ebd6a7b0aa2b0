// The table of threads.
ghost use Rattle.std.specs.Prelude.{◌+◌};
ghost use Rattle.mg_model.specs.Layout.{first_object_block, first_thread_block};
ghost use Rattle.mg_model.specs.Limits.{thread_limit};
ghost use Rattle.mg_model.specs.Ranges.{IsThreadRow};
ghost use Rattle.mg_model.specs.Spelling.{thread_read};

use crate::table_rows::TableRow;
use mg_disk::Block;
use mg_layout::{FIRST_OBJECT_BLOCK, FIRST_THREAD_BLOCK};
use mg_model::ThrRow;
use mg_model::limits::THREAD_LIMIT;
use mg_rows::{Spelled, read_thread};

// A row is a block.
impl TableRow for ThrRow {
    ghost ROWS = { thread_limit };

    const ROWS: u64 = THREAD_LIMIT as u64;

    ghost block_at = { λ i. first_thread_block + i };

    ghost END = { first_object_block };

    const END: u64 = FIRST_OBJECT_BLOCK;

    ghost spelled = { λ block i. thread_read block };

    ghost IsKept = { IsThreadRow };

    fn block_at(i: u64) -> u64 {
        FIRST_THREAD_BLOCK + i
    }

    fn read(block: &Block, _i: u64) -> Option<Spelled<ThrRow>> {
        read_thread(block)
    }
}
