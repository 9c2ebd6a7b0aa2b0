// The globals.
ghost use Rattle.std.specs.Prelude.{◌≡◌, ◌&&◌, if◌then◌else◌, Some};
ghost use Rattle.mg_model.specs.Bytes.{padded_to};
ghost use Rattle.mg_model.specs.Layout.{block_size};
ghost use Rattle.mg_model.specs.Spelling.{globals_bytes, globals_fields, globals_read};
ghost use Rattle.mg_model.specs.Tests.{are_counters};

use mg_disk::Block;
use mg_layout::{Filling, number_at};
use mg_model::Globals;

/// How many bytes of their block the globals take; after them there are zeros.
pub const GLOBALS_START: usize = 32;

/// What a block spells of the globals, which are never free.
pub fn read_globals(block: &Block) -> Option<Globals>
    ensures { result ≡ globals_read block.now }
{
    let draws = number_at(block, 0);
    let period = number_at(block, 8);
    let cursor = number_at(block, 16);
    let births = number_at(block, 24);
    if draws < 2 || draws > 1 << 32 || period >= 1 << 24 || cursor > 256 {
        return None;
    }
    if births < 1 || births >= 1 << 32 {
        return None;
    }
    let globals = Globals::new(draws, period, cursor, births);
    if spelling(&globals) == *block {
        Some(globals)
    } else {
        None
    }
}

/// Spells the globals in a block. They are read back.
pub fn write_globals(globals: &Globals, out: &mut Block)
    ensures spelled { out.new ≡ globals_bytes globals.now }
    ensures read_back { globals_read out.new ≡ Some globals.now }
{
    *out = spelling(globals);
}

/// The bytes that the block of the globals begins with. After them the block has zeros. They are read back.
pub fn globals_start(globals: &Globals) -> [u8; GLOBALS_START]
    ensures spelled { padded_to block_size result ≡ globals_bytes globals.now }
    ensures read_back { globals_read (padded_to block_size result) ≡ Some globals.now }
{
    let mut filling = Filling::new();
    filling.add_words(&[
        globals.draws(),
        globals.period(),
        globals.cursor(),
        globals.births(),
    ]);
    filling.whole()
}

// The bytes of these globals.
fn spelling(globals: &Globals) -> Block
    ensures spelled { result ≡ globals_bytes globals.now }
    ensures read_back { globals_read result ≡ Some globals.now }
{
    let mut filling = Filling::new();
    filling.add_words(&[
        globals.draws(),
        globals.period(),
        globals.cursor(),
        globals.births(),
    ]);
    filling.whole()
}
