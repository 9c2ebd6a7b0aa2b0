// Rows in the blocks of their tables.
ghost use Rattle.std.specs.Prelude.{◌≡◌, ◌≢◌, ◌<◌, ℕ, Some, None};
ghost use Rattle.std.specs.Option.{option_map_or};
ghost use Rattle.mg_rows.specs.Answers.{as_read};
ghost use Rattle.mg_rows.specs.Blocks.{account_in, object_in};

use crate::accounts::{read_account, write_account};
use crate::objects::{read_object, write_object};
use crate::spelled::Spelled;
use mg_disk::Block;
use mg_model::layout::{ACCOUNT_SIZE, OBJECT_SIZE};
use mg_model::{AccRow, ObjRow};

/// What row `j` of a block spells of an object.
pub fn object_in(block: &Block, j: u64) -> Option<Spelled<ObjRow>>
    requires { j < 4 }
    ensures { as_read result ≡ object_in block.now j }
{
    let at = OBJECT_SIZE * j as usize;
    read_object(&block[at..at + OBJECT_SIZE])
}

/// Spells an object, or a free row, in row `j` of a block. The rows beside it stay as they are.
pub fn put_object(row: Option<&ObjRow>, j: u64, block: &mut Block)
    requires { j < 4 }
    ensures here { object_in block.new j ≡ Some (option_map_or (λ row. Some row.now) row.entry None) }
    ensures others { (k : ℕ) → k < 4 → k ≢ j → object_in block.new k ≡ object_in block.old k }
{
    let at = OBJECT_SIZE * j as usize;
    write_object(row, &mut block[at..at + OBJECT_SIZE]);
}

/// What row `j` of a block spells of an account.
pub fn account_in(block: &Block, j: u64) -> Option<Spelled<AccRow>>
    requires { j < 64 }
    ensures { as_read result ≡ account_in block.now j }
{
    let at = ACCOUNT_SIZE * j as usize;
    read_account(&block[at..at + ACCOUNT_SIZE])
}

/// Spells an account, or a free row, in row `j` of a block. The rows beside it stay as they are.
pub fn put_account(row: Option<&AccRow>, j: u64, block: &mut Block)
    requires { j < 64 }
    ensures here { account_in block.new j ≡ Some (option_map_or (λ row. Some row.now) row.entry None) }
    ensures others { (k : ℕ) → k < 64 → k ≢ j → account_in block.new k ≡ account_in block.old k }
{
    let at = ACCOUNT_SIZE * j as usize;
    write_account(row, &mut block[at..at + ACCOUNT_SIZE]);
}
