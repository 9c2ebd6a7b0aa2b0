// Rows and counters that are staged are seen at once.
ghost use Rattle.std.specs.Prelude.{◌≡◌, IfSome, IsSome, IsSomeAnd};
ghost use Rattle.mg_model.specs.Fresh.{fresh};
ghost use Rattle.mg_model.specs.Volume.{Is, volume};
ghost use Rattle.test_kernel.specs.Fresh.{IsFresh};

use mg_disk::{Disk, MemDisk};
use mg_layout::format;
use mg_model::{Frame, Globals, ObjRow, Params, Slot, Tariff, ThrRow};
use mg_volume::Volume;
use std::alloc::Global;

/// The base of an object that is not the root, and its pages.
pub(crate) const BASE: u64 = 0x1_0001_0000;

pub(crate) const PAGES: u64 = 3;

/// A fresh volume of 64 frames with the seed 0.
pub(crate) fn fresh(alloc: Global) -> Option<Volume>
    ensures { IfSome result IsFresh }
{
    let params = Params::new(64, [0; 32], 1000, Tariff::usual(64))?;
    match MemDisk::new(alloc, 2660, 30_000, Vec::new(alloc)) {
        Ok(disk) => made(alloc, disk, &params),
        Err(_) => None,
    }
}

fn made(alloc: Global, mut disk: MemDisk, params: &Params) -> Option<Volume>
    requires told { IsSome (⟦<MemDisk as Disk>⟧.seen disk) }
    requires frames { params.now.frames ≡ 64 }
    ensures { IfSome result IsFresh }
{
    match format(&mut disk, params) {
        Ok(()) => opened(alloc, disk, params),
        Err(_) => None,
    }
}

fn opened(alloc: Global, mut disk: MemDisk, params: &Params) -> Option<Volume>
    requires made { IsSomeAnd (⟦<MemDisk as Disk>⟧.seen disk) (λ image. volume image ≡ Is (fresh params.now)) }
    requires frames { params.now.frames ≡ 64 }
    ensures { IfSome result IsFresh }
{
    match Volume::open(alloc, &mut disk) {
        Ok(volume) => Some(volume),
        Err(_) => None,
    }
}

/// Whether an object is there as inserted, has its extension, and is gone, each with the number of staged blocks.
type Objects = [(bool, usize); 3];

fn objects_of(volume: &mut Volume) -> Objects
    requires { IsFresh volume.old }
{
    volume.insert(object());
    let come = (volume.object(BASE) == Some(object()), volume.staged());
    volume.change(extended());
    let last = volume.covering(BASE + 4096 * PAGES - 1);
    let changed = (last == Some(extended()), volume.staged());
    volume.remove(BASE);
    let gone = (volume.object(BASE).is_none(), volume.staged());
    [come, changed, gone]
}

// The same, each time by the object's base.
fn based_objects_of(volume: &mut Volume) -> Objects
    requires { IsFresh volume.old }
{
    volume.stage_object(BASE, Some(object()));
    let come = (volume.object(BASE) == Some(object()), volume.staged());
    volume.stage_object(BASE, Some(extended()));
    let last = volume.covering(BASE + 4096 * PAGES - 1);
    let changed = (last == Some(extended()), volume.staged());
    volume.stage_object(BASE, None);
    let gone = (volume.object(BASE).is_none(), volume.staged());
    [come, changed, gone]
}

pub(crate) fn object() -> ObjRow
    ensures base { result.base ≡ 0x100010000 }
    ensures pages { result.pages ≡ 3 }
{
    ObjRow::new(BASE, PAGES, 1)
}

fn extended() -> ObjRow
    ensures base { result.base ≡ 0x100010000 }
    ensures pages { result.pages ≡ 3 }
{
    let mut row = object();
    row.set_ext(Some(Slot {
        base: 1 << 32,
        password: 3,
    }));
    row
}

// Stages other counters. None if too much is staged.
fn stage_counters(volume: &mut Volume, counters: Globals) -> Option<()> {
    if volume.staged() >= 160 {
        return None;
    }
    volume.stage_globals(counters);
    Some(())
}

fn thread() -> ThrRow {
    ThrRow::new(2, 1, 8, Frame::new(0))
}

// Draws the next password. None if too much is staged or no password is left.
fn next_password(volume: &mut Volume) -> Option<u64> {
    if volume.staged() >= 160 || volume.globals().draws() >= 1 << 32 {
        return None;
    }
    Some(volume.next_password())
}

/// Whether thread 1 is gone, whether thread 256 is there, and whether the counters are the new ones with two draws. Then the two
/// passwords, and the number of staged blocks.
type Rest = ([bool; 3], [u64; 2], usize);

fn rest_of(volume: &mut Volume) -> Option<Rest>
    requires { IsFresh volume.old }
{
    volume.stage_thread(256, Some(thread()));
    volume.stage_thread(1, None);
    // The period may go back.
    stage_counters(volume, Globals::new(2, 5, 256, 9))?;
    stage_counters(volume, Globals::new(2, 3, 256, 9))?;
    let passwords = [next_password(volume)?, next_password(volume)?];
    let are_seen = [
        volume.thread(1).is_none(),
        volume.thread(256) == Some(thread()),
        volume.globals() == Globals::new(4, 3, 256, 9),
    ];
    Some((are_seen, passwords, volume.staged()))
}

/// What is staged on a fresh volume.
#[derive(Clone, Copy)]
enum Staged {
    Objects,
    BasedObjects,
    Rest,
}

// Both rows of the object are in one block, and no page of it has a frame. The passwords are the third and the fourth of the key stream
// for the key 0, which RFC 8439 prints in its appendix A.1.
fn is_seen(volume: &mut Volume, staged: Staged) -> bool
    requires { IsFresh volume.old }
{
    match staged {
        Staged::Objects => objects_of(volume) == [(true, 1); 3],
        Staged::BasedObjects => based_objects_of(volume) == [(true, 1); 3],
        Staged::Rest => {
            let passwords = [0x1aed_8da0_b819_d2bd, 0xc70d_778b_ccef_36a8];
            rest_of(volume) == Some(([true; 3], passwords, 3))
        }
    }
}

fn is_seen_on_fresh(alloc: Global, staged: Staged) -> bool {
    match fresh(alloc) {
        Some(mut volume) => is_seen(&mut volume, staged),
        None => false,
    }
}

#[test]
fn what_is_staged_is_seen(rt: HostRuntime) {
    let are_seen = [
        is_seen_on_fresh(rt.alloc(), Staged::Objects),
        is_seen_on_fresh(rt.alloc(), Staged::BasedObjects),
        is_seen_on_fresh(rt.alloc(), Staged::Rest),
    ];
    assert_eq!(rt; are_seen, [true; 3]);
}
