// The objects of a volume are lent in the order of their bases.
ghost use Rattle.test_kernel.specs.Fresh.{IsFresh};

use crate::staging::{BASE, PAGES, fresh, object};
use mg_model::ObjRow;
use mg_volume::Volume;
use std::alloc::Global;

/// The base of the root.
const ROOT: u64 = 1 << 32;

/// The bases of two objects, by their ranks.
fn bases(volume: &Volume) -> Option<[u64; 2]> {
    let objects = volume.objects();
    if objects.len() != 2 {
        return None;
    }
    Some([objects.nth(0).base(), objects.nth(1).base()])
}

/// The base of an object, if there is one.
fn base(row: Option<ObjRow>) -> Option<u64> {
    match row {
        Some(row) => Some(row.base()),
        None => None,
    }
}

/// The number of objects. Then the bases of those that have the address before BASE, BASE, the last address of its object and the
/// next one.
type Listed = (usize, [Option<u64>; 4]);

fn listed(volume: &Volume) -> Listed {
    let objects = volume.objects();
    let end = BASE + 4096 * PAGES;
    (
        objects.len(),
        [
            base(objects.covering(BASE - 1)),
            base(objects.covering(BASE)),
            base(objects.covering(end - 1)),
            base(objects.covering(end)),
        ],
    )
}

/// Whether an object more is listed after the root, and is gone from the list once it is removed.
fn is_listed(volume: &mut Volume) -> bool
    requires { IsFresh volume.old }
{
    let first = listed(volume) == (1, [None; 4]);
    volume.insert(object());
    let come = bases(volume) == Some([ROOT, BASE])
        && listed(volume) == (2, [None, Some(BASE), Some(BASE), None]);
    volume.remove(BASE);
    first && come && listed(volume) == (1, [None; 4])
}

fn is_listed_on_fresh(alloc: Global) -> bool {
    match fresh(alloc) {
        Some(mut volume) => is_listed(&mut volume),
        None => false,
    }
}

#[test]
fn objects_are_listed_by_their_bases(rt: HostRuntime) {
    assert_eq!(rt; is_listed_on_fresh(rt.alloc()), true);
}
