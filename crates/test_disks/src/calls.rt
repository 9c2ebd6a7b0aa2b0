// Single calls of a disk.
ghost use Rattle.std.specs.Prelude.{◌≡◌, ◌<◌};

use mg_disk::{BLOCK_SIZE, Block, Disk};

/// Whether a block could be written with this byte throughout.
pub fn wrote<D: Disk>(disk: &mut D, i: u64, byte: u8) -> bool
    requires { i < D.block_count disk.old }
    ensures { D.block_count disk.new ≡ D.block_count disk.old }
{
    disk.write(i, &[byte; BLOCK_SIZE]).is_ok()
}

/// Whether a sync is good.
pub fn synced<D: Disk>(disk: &mut D) -> bool
    ensures { D.block_count disk.new ≡ D.block_count disk.old }
{
    disk.sync().is_ok()
}

/// The byte that a block has throughout, if it can be read.
pub fn byte_of<D: Disk>(disk: &mut D, i: u64) -> Option<u8>
    requires { i < D.block_count disk.old }
    ensures { D.block_count disk.new ≡ D.block_count disk.old }
{
    let mut block: Block = [1; BLOCK_SIZE];
    if disk.read(i, &mut block).is_ok() && block == [block[0]; BLOCK_SIZE] {
        Some(block[0])
    } else {
        None
    }
}
