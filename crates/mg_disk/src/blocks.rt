// Vectors of blocks.
ghost use Rattle.std.specs.Prelude.{◌≡◌, ◌<◌, ℕ, Contains, vec_len, vec_capacity, IfOk};
ghost use Rattle.mg_disk.specs.Disk.{SameBut, AreBytes};
ghost use Rattle.mg_disk.specs.Blocks.{zeros_of, IsGated};

use crate::{BLOCK_SIZE, Block, GATE_OPEN};
use std::alloc::{AllocError, Global};

/// `blocks` blocks of zeros, in a vector that has room for no more.
pub(crate) fn zeros(alloc: Global, blocks: u64) -> Result<Vec<Block>, AllocError>
    ensures zeros { IfOk result (λ content. content.items ≡ zeros_of blocks) }
    ensures count { IfOk result (λ content. vec_len content ≡ blocks) }
    ensures bytes { IfOk result (λ content. AreBytes content.items) }
{
    let mut content = Vec::with_capacity(alloc, blocks as usize)?;
    for _ in 0..blocks {
        content.push([0; BLOCK_SIZE])?;
    }
    Ok(content)
}

/// Writes gates at these places.
pub(crate) fn put_gates(content: &mut Vec<Block>, places: &[u64])
    requires { (k : ℕ) → Contains places.now k → k < vec_len content.old }
    ensures gates { IsGated places.now content.old.items content.new.items }
    ensures len { vec_len content.new ≡ vec_len content.old }
    ensures bytes { AreBytes content.old.items → AreBytes content.new.items }
{
    for &i in places {
        content[i as usize] = [GATE_OPEN; BLOCK_SIZE];
    }
}

/// Copies the blocks at these places, the only places that differ.
pub(crate) fn copy_at(places: &[u64], from: &Vec<Block>, to: &mut Vec<Block>)
    requires in_range { (k : ℕ) → Contains places.now k → k < vec_len from.now }
    requires differ { SameBut (Contains places.now) to.old.items from.now.items }
    ensures same { to.new.items ≡ from.now.items }
    ensures len { vec_len to.new ≡ vec_len to.old }
    ensures capacity { vec_capacity to.new ≡ vec_capacity to.old }
{
    for &i in places {
        to[i as usize] = from[i as usize];
    }
}
