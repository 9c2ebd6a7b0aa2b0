// The blocks of a fresh volume of version 1.
ghost use Rattle.std.specs.Prelude.{◌≡◌, ◌<◌};
ghost use Rattle.mg_migrate.specs.Fresh1.{fresh1_bytes, objects1_bytes};
ghost use Rattle.mg_migrate.specs.Layout1.{total1_blocks};

use crate::superblock::write_super1;
use mg_disk::Block;
use mg_layout::{FIRST_OBJECT_BLOCK, Filling, SUPER_BLOCK, TABLE_BLOCK, fresh_block};
use mg_model::limits::{ALL_RIGHTS, ROOT_BASE};
use mg_model::{Params, draw};

/// The first block of the frame table in version 1.
pub(crate) const TABLE1_BLOCK: u64 = 2083;

/// Spells block `i` of a fresh volume of version 1. Nothing but tests has a use for one.
pub fn fresh_block1(params: &Params, i: u64, out: &mut Block)
    requires { i < total1_blocks params.now.frames }
    ensures { out.new ≡ fresh1_bytes params.now i }
{
    params.keep_rules();
    if i == SUPER_BLOCK {
        write_super1(params, out);
    } else if i == FIRST_OBJECT_BLOCK {
        *out = root_row(params);
    } else if i < TABLE1_BLOCK {
        fresh_block(params, i, out);
    } else {
        fresh_block(params, i + (TABLE_BLOCK - TABLE1_BLOCK), out);
    }
}

// The root object has one page, paid by account 1, and one password.
fn root_row(params: &Params) -> Block
    ensures { result ≡ objects1_bytes params.now }
{
    let mut filling = Filling::new();
    filling.add_words(&[1, ROOT_BASE, 1, 1, 1, 0, 0, 0, 0, 0]);
    filling.add_words(&[draw(&params.seed(), 0)]);
    filling.add_words(&[0; 15]);
    filling.add(&[ALL_RIGHTS]);
    filling.add(&[0; 15]);
    filling.whole()
}
