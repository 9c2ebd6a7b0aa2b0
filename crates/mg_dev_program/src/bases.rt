// Says what is wrong with the bases of devices.
ghost use Rattle.mg_disk.specs.Stops.{WritesNothing};

use crate::NAME;
use mg_check::{VolumeRows, read_volume};
use mg_disk::Disk;
use mg_model::limits::{FIRST_PAGE, PAGE_END, PAGE_SIZE};
use std::io::Eprint;

/// Says of each device's base if no object can begin there, or if none does yet. The disk is only read, and only if there are devices.
/// A disk with no volume is reported later.
pub(crate) fn report_bases<R: AllocGlobal + Eprint, D: Disk>(
    rt: &R,
    path: &str,
    asked: &[(u64, u64)],
    disk: &mut D,
)
    ensures { WritesNothing D.Disk disk.old disk.new }
{
    if asked.is_empty() {
        return;
    }
    match read_volume(rt.alloc(), disk) {
        Ok((_, rows)) => report_each(rt, path, asked, Some(&rows)),
        Err(_) => report_each(rt, path, asked, None),
    }
}

fn report_each<R: Eprint>(rt: &R, path: &str, asked: &[(u64, u64)], rows: Option<&VolumeRows>) {
    for (_, base) in asked {
        report_base(rt, path, *base, rows);
    }
}

fn report_base<R: Eprint>(rt: &R, path: &str, base: u64, rows: Option<&VolumeRows>) {
    if !may_begin(base) {
        let _ = eprintln!(rt;
            "{NAME}: {path}: no object can begin at {base:#x}: nothing reaches the device there"
        );
    } else if let Some(rows) = rows {
        if !begins(base, rows) {
            let _ = eprintln!(rt; "{NAME}: {path}: no object begins at {base:#x} yet");
        }
    }
}

/// Whether an object can have this base: a page that an object can have begins there.
fn may_begin(base: u64) -> bool {
    let page = base / PAGE_SIZE;
    base % PAGE_SIZE == 0 && FIRST_PAGE <= page && page < PAGE_END
}

/// Whether an object of a volume has this base.
fn begins(base: u64, rows: &VolumeRows) -> bool {
    for object in &rows.objects {
        if let Some(object) = object {
            if object.base() == base {
                return true;
            }
        }
    }
    false
}
