// Disks of zeros whose calls fail, and what a store reads of one.
ghost use Rattle.std.specs.Prelude.{◌≡◌, ◌<◌, IfSome};
ghost use Rattle.mg_journal.specs.Standing.{Stands, total_of};

use mg_disk::{BLOCK_SIZE, Block, Disk, MemDisk};
use mg_journal::Store;
use std::alloc::Global;

/// The number of no call.
pub(crate) const NONE: u64 = u64::MAX;

/// A disk of `blocks` blocks of zeros, with room for `room` calls, whose call number `failing` fails.
pub(crate) fn zeros(alloc: Global, blocks: u64, room: u64, failing: u64) -> Option<MemDisk>
    ensures blocks { IfSome result (λ disk. ⟦<MemDisk as Disk>⟧.block_count disk ≡ blocks) }
{
    match Vec::from_array(alloc, [failing]) {
        Ok(fails) => match MemDisk::new(alloc, blocks, room, fails) {
            Ok(disk) => Some(disk),
            Err(_) => None,
        },
        Err(_) => None,
    }
}

/// What a block of the contents begins with.
pub(crate) fn begins<D: Disk>(store: &Store, disk: &mut D, i: u64) -> Option<u8>
    requires place { i < total_of store.now }
    requires stands { Stands D.Disk store.now disk.old }
    ensures stands { Stands D.Disk store.now disk.new }
    ensures blocks { D.block_count disk.new ≡ D.block_count disk.old }
{
    let mut block: Block = [0; BLOCK_SIZE];
    match store.read(disk, i, &mut block) {
        Ok(()) => Some(block[0]),
        Err(_) => None,
    }
}
