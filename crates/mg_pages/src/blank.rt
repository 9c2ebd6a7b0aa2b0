// A block of zeros.
ghost use Rattle.std.specs.Prelude.{◌≡◌, replicate};
ghost use Rattle.mg_model.specs.Layout.{block_size};

use mg_disk::{BLOCK_SIZE, Block};
use std::marker::Model;

/// A block of zeros that is only read. Copying it is faster than clearing a block and copying that.
#[derive(Drop)]
pub(crate) struct Blank {
    bytes: Block,
}

impl Model for Blank {
    ghost use Rattle.std.specs.Prelude.{◌≡◌, ℕ, List, replicate};
    ghost use Rattle.mg_model.specs.Layout.{block_size};

    ghost Value = { List ℕ };

    ghost view = { λ b. b.bytes };

    ghost invariant = { λ b. b.bytes ≡ replicate block_size 0 };
}

impl Blank {
    /// A block of zeros.
    pub(crate) fn new() -> Blank {
        Blank {
            bytes: [0; BLOCK_SIZE],
        }
    }

    /// The zeros.
    pub(crate) fn zeros(&self) -> &Block
        ensures { result.now ≡ replicate block_size 0 }
    {
        &self.bytes
    }
}
