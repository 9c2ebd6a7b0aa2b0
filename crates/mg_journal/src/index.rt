// The index of a segment: how many bodies it has, and the block that each belongs to.
ghost use Rattle.std.specs.Prelude.{◌≡◌, ◌<◌, ◌+◌, ◌*◌, ℕ};
ghost use Rattle.mg_model.specs.Bytes.{number_at};
ghost use Rattle.mg_model.specs.Layout.{body_limit};

use mg_bytes::put_number;
use mg_disk::Block;

/// Makes it the index of no bodies.
pub(crate) fn clear_index(index: &mut Block)
    ensures none { number_at index.new 0 ≡ 0 }
{
    put_number(index, 0, 0);
}

/// Makes the index of `bodies` bodies the index of one more, which belongs to this block.
pub(crate) fn add_home(index: &mut Block, bodies: usize, home: u64)
    requires fewer_than_160 { bodies < body_limit }
    ensures count { number_at index.new 0 ≡ bodies + 1 }
    ensures home { number_at index.new (8 + 8 * bodies) ≡ home }
    ensures others { (j : ℕ) → j < bodies → number_at index.new (8 + 8 * j) ≡ number_at index.old (8 + 8 * j) }
{
    put_number(index, 8 + 8 * bodies, home);
    put_number(index, 0, bodies as u64 + 1);
}
