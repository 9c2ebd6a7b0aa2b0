// A mirror of two disks that continues with one of them.
ghost use Rattle.std.specs.Prelude.{◌≡◌, min};

use crate::calls::{byte_of, synced, wrote};
use crate::made::zeros;
use mg_disk::{Counts, Disk, Fuse, MemDisk};
use mg_mirror::{Mirror, Side};
use std::alloc::Global;
use std::marker::Brand;
use std::process::Abort;

/// Whether the mirror has two blocks and both sides, and block 1 is then written, read and synced on this side alone.
fn goes_on<D: Disk, E: Disk>(mirror: &mut Mirror<D, E, Brand>, alone: Side) -> bool
    requires { ⟦<Mirror<D, E, Brand> as Disk>⟧.block_count mirror.old ≡ 2 }
{
    mirror.blocks() == 2
        && mirror.alone().is_none()
        && wrote(mirror, 1, 7)
        && mirror.alone() == Some(alone)
        && byte_of(mirror, 1) == Some(7)
        && synced(mirror)
}

type Mortal = Fuse<MemDisk>;

fn counts_of(disk: Mortal) -> Counts {
    disk.into_inner().counts()
}

fn ends(
    rt: &impl Abort,
    mirror: Mirror<Mortal, Mortal, Brand>,
    alone: Side,
    counts: (Counts, Counts),
)
    requires { ⟦<Mirror<Mortal, Mortal, Brand> as Disk>⟧.block_count mirror ≡ 2 }
{
    let mut mirror = mirror;
    assert!(rt; goes_on(&mut mirror, alone));
    let (left, right) = mirror.sides();
    assert!(rt; (counts_of(left), counts_of(right)) == counts);
}

/// A mirror of two disks continues with this side alone. The disks then saw these calls.
fn mirrors(rt: &impl Abort, left: Mortal, right: Mortal, alone: Side, counts: (Counts, Counts))
    requires left { ⟦<Mortal as Disk>⟧.block_count left ≡ 2 }
    requires right { min 2 (⟦<Mortal as Disk>⟧.block_count right) ≡ 2 }
    requires left_faults { ⟦<Mortal as Disk>⟧.faults left ≡ 0 }
    requires right_faults { ⟦<Mortal as Disk>⟧.faults right ≡ 0 }
{
    match Mirror::open(left, right, Side::Left) {
        Ok(mirror) => ends(rt, mirror, alone, counts),
        Err(_) => panic!(rt; "the left side gives its blocks"),
    }
}

const fn calls(reads: u64, writes: u64, syncs: u64) -> Counts {
    Counts {
        reads,
        writes,
        syncs,
    }
}

fn mortal(rt: &impl Abort, alloc: Global, blocks: u64, calls: u64) -> Mortal
    ensures blocks { ⟦<Mortal as Disk>⟧.block_count result ≡ blocks }
    ensures no_faults { ⟦<Mortal as Disk>⟧.faults result ≡ 0 }
{
    Fuse::new(zeros(rt, alloc, blocks, &[]), calls)
}

// Opening makes three writes and three syncs on the right side: block 0 is closed, block 1 copied, block 0 written.
#[test]
fn goes_on_with_one_side(rt: HostRuntime) {
    let left = mortal(&rt, rt.alloc(), 2, 20);
    let right = mortal(&rt, rt.alloc(), 3, 6);
    mirrors(
        &rt,
        left,
        right,
        Side::Left,
        (calls(3, 1, 1), calls(0, 3, 3)),
    );
}

// The left side dies once both of its blocks are copied. The right side sees the copy, and what is done after it.
#[test]
fn stands_alone_on_the_right(rt: HostRuntime) {
    let left = mortal(&rt, rt.alloc(), 2, 2);
    let right = mortal(&rt, rt.alloc(), 2, 20);
    mirrors(
        &rt,
        left,
        right,
        Side::Right,
        (calls(2, 0, 0), calls(1, 4, 4)),
    );
}
