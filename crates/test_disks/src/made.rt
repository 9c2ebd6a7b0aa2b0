// What the tests begin with.
ghost use Rattle.std.specs.Prelude.{◌≡◌};

use mg_disk::{Disk, MemDisk};
use std::alloc::Global;
use std::process::Abort;

/// A vector of these.
pub fn owned<T: Copy>(rt: &impl Abort, alloc: Global, items: &[T]) -> Vec<T> {
    items.to_vec(alloc).expect(rt, "memory")
}

/// A disk of zeros in memory whose calls of these numbers fail, with room for 20 calls.
pub fn zeros(rt: &impl Abort, alloc: Global, blocks: u64, fails: &[u64]) -> MemDisk
    ensures blocks { ⟦<MemDisk as Disk>⟧.block_count result ≡ blocks }
    ensures no_faults { ⟦<MemDisk as Disk>⟧.faults result ≡ 0 }
{
    let fails = owned(rt, alloc, fails);
    MemDisk::new(alloc, blocks, 20, fails).expect(rt, "memory")
}
