// The blocks of a fresh volume.
ghost use Rattle.std.specs.Prelude.{◌≡◌, ◌<◌, [], ◌∷◌};
ghost use Rattle.mg_model.specs.Bytes.{padded_to, words_bytes};
ghost use Rattle.mg_model.specs.Fresh.{fresh};
ghost use Rattle.mg_model.specs.Layout.{block_size, total_blocks};
ghost use Rattle.mg_layout.specs.FreshImage.{accounts_bytes, frame_bytes, fresh_bytes, gate_bytes, objects_bytes, table_bytes, threads_bytes};

use crate::filling::Filling;
use crate::superblock::write_super;
use mg_bytes::Geometry;
use mg_disk::{BLOCK_SIZE, Block, GATE_OPEN};
use mg_model::layout::{
    FIRST_ACCOUNT_BLOCK, FIRST_OBJECT_BLOCK, FIRST_THREAD_BLOCK, GATE_BLOCK, GLOBALS_BLOCK,
    SUPER_BLOCK, TABLE_BLOCK,
};
use mg_model::limits::{ALL_RIGHTS, NEVER, ROOT_BASE};
use mg_model::{Params, draw};

/// The page of that address.
const ROOT_PAGE: u64 = 0x0010_0000;

/// Writes the bytes of block `i` of a fresh volume. A block that no row, frame or gate fills is zeros.
pub fn fresh_block(params: &Params, i: u64, out: &mut Block)
    requires { i < total_blocks params.now.frames }
    ensures { out.new ≡ fresh_bytes params.now i }
{
    let geometry = Geometry::of(params.frames());
    if i == GATE_BLOCK {
        *out = gate();
    } else if i == SUPER_BLOCK {
        write_super(params, out);
    } else if i == GLOBALS_BLOCK {
        *out = globals();
    } else if i == FIRST_ACCOUNT_BLOCK {
        *out = treasury(params);
    } else if i == FIRST_THREAD_BLOCK {
        *out = first_thread(params);
    } else if i == FIRST_OBJECT_BLOCK {
        *out = root_row(params);
    } else if i == TABLE_BLOCK {
        *out = table();
    } else if i == geometry.first_frame {
        *out = root_page(params);
    } else {
        *out = [0; BLOCK_SIZE];
    }
}

// The gate, open.
fn gate() -> Block
    ensures { result ≡ gate_bytes }
{
    let mut filling = Filling::new();
    filling.add(&[GATE_OPEN]);
    filling.whole()
}

// Two passwords were drawn, and one thread was born.
fn globals() -> Block
    ensures { result ≡ padded_to block_size (words_bytes (2 ∷ 0 ∷ 0 ∷ 1 ∷ [])) }
{
    let mut filling = Filling::new();
    filling.add_words(&[2, 0, 0, 1]);
    filling.whole()
}

// Account 1 has all credits.
fn treasury(params: &Params) -> Block
    ensures { result ≡ accounts_bytes (fresh params.now) }
{
    let mut filling = Filling::new();
    filling.add_words(&[1, draw(&params.seed(), 1), params.credits(), 0]);
    filling.whole()
}

// Thread 1 is stopped at 0, and its one frame has one slot: the root under its own password.
fn first_thread(params: &Params) -> Block
    ensures { result ≡ threads_bytes (fresh params.now) }
{
    let mut filling = Filling::new();
    filling.add_words(&[1, 1, 0, 0, 1, 1, 0, 0]);
    filling.add_words(&[0; 8]);
    filling.add_words(&[0, 1, ROOT_BASE, draw(&params.seed(), 0)]);
    filling.whole()
}

// The root object has one page, paid by account 1, and one password that never ends.
fn root_row(params: &Params) -> Block
    ensures { result ≡ objects_bytes (fresh params.now) }
{
    let mut filling = Filling::new();
    filling.add_words(&[1, ROOT_BASE, 1, 1, 1, 0, 0, 0, 0, 0]);
    filling.add_words(&[draw(&params.seed(), 0)]);
    filling.add_words(&[0; 31]);
    filling.add(&[ALL_RIGHTS]);
    filling.add(&[0; 31]);
    filling.add_words(&[0; 16]);
    filling.add_words(&[NEVER]);
    filling.whole()
}

// Frame 0 has the page of the root object.
fn table() -> Block
    ensures { result ≡ padded_to block_size (words_bytes (0x100000 ∷ [])) }
{
    let mut filling = Filling::new();
    filling.add_words(&[ROOT_PAGE]);
    filling.whole()
}

// The root's page is a capability list with one entry, for the root itself.
fn root_page(params: &Params) -> Block
    ensures { result ≡ frame_bytes (fresh params.now) }
{
    let mut filling = Filling::new();
    filling.add_words(&[1, 0, ROOT_BASE, draw(&params.seed(), 0)]);
    filling.whole()
}
