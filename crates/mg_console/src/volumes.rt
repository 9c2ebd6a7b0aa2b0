// Lines about the file of a volume.
ghost use Rattle.std.specs.Prelude.{◌≡◌, ◌<◌};
ghost use Rattle.mg_disk.specs.Stops.{WritesNothing};

use crate::damage::report_damage;
use crate::endings::report_of;
use mg_disk::{BLOCK_SIZE, Block, Disk};
use mg_file::Found;
use mg_layout::{GATE_BLOCK, GATE_OPEN, Geometry, SUPER_BLOCK, Super, read_super};
use mg_model::Params;
use std::io::Eprint;

/// Says what only the file of a volume shows, one fact a line: that it was missing, or that it was shorter than its volume when it was
/// opened. If the command refused the volume (`is_refused`), also why: the file is empty or no volume, the volume is of an older
/// version, which `migrate` takes, or what is damaged. `found` is what the file was when it was opened, if it was. The disk is only read.
pub fn report_volume<R: AllocGlobal + Eprint, D: Disk>(
    rt: &R,
    program: &str,
    path: &str,
    disk: &mut D,
    found: Option<Found>,
    is_refused: bool,
)
    ensures { WritesNothing D.Disk disk.old disk.new }
{
    let found = match found {
        Some(found) => found,
        None => {
            if is_refused {
                report_missing(rt, program, path);
            }
            return;
        }
    };
    match super_of(disk) {
        Super::Not => {
            if found.is_new {
                report_of(
                    rt,
                    program,
                    path,
                    "there was no such file; an empty one was made",
                );
            } else if is_refused {
                report_none(rt, program, path, found);
            }
        }
        Super::Old => {
            if is_refused {
                report_old(rt, program, path);
            }
        }
        Super::Damaged => {
            if is_refused {
                report_of(rt, program, path, "block 1, the superblock, is damaged");
            }
        }
        Super::Is(params) => {
            report_cut(rt, program, path, found, &params);
            if is_refused {
                report_damage(rt, program, path, disk, &params);
            }
        }
    }
}

/// Says that there is no file.
fn report_missing<R: Eprint>(rt: &R, program: &str, path: &str) {
    report_of(rt, program, path, "there is no such file");
}

/// Says why a file that was there is no volume.
fn report_none<R: Eprint>(rt: &R, program: &str, path: &str, found: Found) {
    if found.bytes == Some(0) {
        report_of(rt, program, path, "the file is empty");
    } else {
        report_of(
            rt,
            program,
            path,
            "it is no volume, or one that was not made to its end: its first two blocks are not those of a volume",
        );
    }
}

/// Says why the file OLD of `migrate` was refused. `found` is what it was when it was opened, if it was.
pub(crate) fn report_unmigrated<R: Eprint>(
    rt: &R,
    program: &str,
    path: &str,
    found: Option<Found>,
) {
    match found {
        None => report_missing(rt, program, path),
        Some(found) => {
            if found.bytes == Some(0) {
                report_of(rt, program, path, "the file is empty");
            } else {
                report_of(
                    rt,
                    program,
                    path,
                    "it is no sound volume of version 1: open not means no volume, open new a later version, open damaged a broken one",
                );
            }
        }
    }
}

/// Says that a volume is of the older version.
fn report_old<R: Eprint>(rt: &R, program: &str, path: &str) {
    let _ = eprintln!(rt;
        "{program}: {path}: a volume of version 1; mungi NEW migrate {path} copies it into one of today's"
    );
}

/// Says that the file of a volume was shorter than the volume, if it was.
fn report_cut<R: Eprint>(rt: &R, program: &str, path: &str, found: Found, params: &Params) {
    let whole = Geometry::of(params.frames())
        .total
        .saturating_mul(BLOCK_SIZE as u64);
    match found.bytes {
        Some(bytes) if bytes < whole => {
            let _ = eprintln!(rt;
                "{program}: {path}: the file has {bytes} bytes, and its volume {whole}: it was cut short, or made by an older program; what lies past its end reads as zeros"
            );
        }
        _ => {}
    }
}

/// What the superblock of a disk spells. Without an open gate, or if a read fails, the disk has no volume.
fn super_of<D: Disk>(disk: &mut D) -> Super
    ensures writes { WritesNothing D.Disk disk.old disk.new }
    ensures blocks { D.block_count disk.new ≡ D.block_count disk.old }
{
    let mut block = [0; BLOCK_SIZE];
    if disk.blocks() <= SUPER_BLOCK || !has_read(disk, GATE_BLOCK, &mut block) {
        return Super::Not;
    }
    if block[0] != GATE_OPEN || !has_read(disk, SUPER_BLOCK, &mut block) {
        return Super::Not;
    }
    read_super(&block)
}

/// Reads a block. False if the read fails.
fn has_read<D: Disk>(disk: &mut D, i: u64, block: &mut Block) -> bool
    requires { i < D.block_count disk.old }
    ensures writes { WritesNothing D.Disk disk.old disk.new }
    ensures blocks { D.block_count disk.new ≡ D.block_count disk.old }
{
    disk.read(i, block).is_ok()
}
