// Images of disks that a stop left.
use mg_disk::{Left, MemDisk};
use std::alloc::Global;

/// The disk that a stop now leaves, with no call made yet. None if out of memory.
pub fn image_of(alloc: Global, disk: &MemDisk, left: Left) -> Option<MemDisk> {
    match disk.stopped(alloc, left) {
        Ok(image) => Some(image),
        Err(_) => None,
    }
}
