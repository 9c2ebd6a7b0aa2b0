// The table of objects.
ghost use Rattle.std.specs.Prelude.{◌+◌, ◌/◌, ◌%◌};
ghost use Rattle.mg_model.specs.Layout.{first_object_block, table_block};
ghost use Rattle.mg_model.specs.Limits.{object_limit};
ghost use Rattle.mg_model.specs.Ranges.{IsObjectRow};
ghost use Rattle.mg_rows.specs.Blocks.{object_in};

use crate::table_rows::TableRow;
use mg_disk::Block;
use mg_layout::{FIRST_OBJECT_BLOCK, TABLE_BLOCK};
use mg_model::ObjRow;
use mg_model::limits::OBJECT_LIMIT;
use mg_rows::{Spelled, object_in};

/// How many rows a block has.
const IN_BLOCK: u64 = 4;

impl TableRow for ObjRow {
    ghost ROWS = { object_limit };

    const ROWS: u64 = OBJECT_LIMIT as u64;

    ghost block_at = { λ i. first_object_block + i / 4 };

    ghost END = { table_block };

    const END: u64 = TABLE_BLOCK;

    ghost spelled = { λ block i. object_in block (i % 4) };

    ghost IsKept = { IsObjectRow };

    fn block_at(i: u64) -> u64 {
        FIRST_OBJECT_BLOCK + i / IN_BLOCK
    }

    fn read(block: &Block, i: u64) -> Option<Spelled<ObjRow>> {
        object_in(block, i % IN_BLOCK)
    }
}
