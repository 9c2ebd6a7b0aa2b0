// More pages than the page cache holds.
ghost use Rattle.std.specs.Prelude.{◌≡◌, ◌<◌, true};
ghost use Rattle.mg_kernel.specs.Meaning.{StandsOn};

use crate::kernels::{LISTED, is_made, read_by};
use crate::sharing::{OTHER, are_written};
use crate::trials::{Row, wrong_row};
use mg_disk::{Disk, MemDisk};
use mg_kernel::Kernel;
use mg_model::{ObjRow, Steps};
use std::alloc::Global;
use std::marker::Brand;
use std::sync::ledger::{Blank, Ledger};

/// The most blocks that the page cache holds.
const CACHE_BLOCKS: u64 = 256;

/// The number of pages of the other object. With the page of the root's list there are three more than the cache holds.
const PAGES: u64 = CACHE_BLOCKS + 2;

/// A store into a page of the other object, and a commit.
fn store_rows(page: u64) -> [Row; 2] {
    let store = Row::Store {
        address: OTHER.saturating_add(page.saturating_mul(4096)),
        value: 7,
        words: None,
    };
    [store, Row::Commit]
}

/// Stores into each page once, first to last, and commits each store.
fn is_filled<D: Disk, L: Ledger>(kernel: &mut Kernel, disk: &mut D, steps: &mut Steps<L>) -> bool
    requires { StandsOn D.Disk kernel.old disk.old }
    ensures { result ≡ true → StandsOn D.Disk kernel.new disk.new }
{
    for page in 0..PAGES {
        if wrong_row(kernel, disk, &store_rows(page), steps).is_some() {
            return false;
        }
    }
    true
}

/// The numbers of blocks that three stores read after a store into each page: the second store into the last page but one, a store into
/// the first page, which is cached, and the third store into the last page but one.
fn reads<L: Ledger>(
    kernel: &mut Kernel,
    disk: &mut MemDisk,
    steps: &mut Steps<L>,
) -> Option<[u64; 3]>
    requires { StandsOn ⟦<MemDisk as Disk>⟧ kernel.old disk.old }
{
    read_by(kernel, disk, &LISTED, steps)?;
    if !is_filled(kernel, disk, steps) {
        return None;
    }
    let second = read_by(kernel, disk, &store_rows(CACHE_BLOCKS), steps)?;
    let cached = read_by(kernel, disk, &store_rows(0), steps)?;
    let third = read_by(kernel, disk, &store_rows(CACHE_BLOCKS), steps)?;
    Some([second, cached, third])
}

fn reads_on<L: Ledger>(
    alloc: Global,
    disk: &mut MemDisk,
    steps: &mut Steps<L>,
) -> Option<[u64; 3]> {
    if !is_made(disk, 512) || !are_written(disk, ObjRow::new(OTHER, PAGES, 1)) {
        return None;
    }
    match Kernel::open(alloc, disk) {
        Ok(mut kernel) => reads(&mut kernel, disk, steps),
        Err(_) => None,
    }
}

fn tried<L: Ledger>(alloc: Global, blank: Blank) -> Option<[u64; 3]>
    requires name { blank.name ≡ L.name }
    requires parts { blank.parts ≡ L.parts }
    requires has_parts { 0 < blank.parts }
{
    let mut steps = Steps::<L>::new(blank);
    match MemDisk::new(alloc, 3108, 40_000, Vec::new(alloc)) {
        Ok(mut disk) => reads_on(alloc, &mut disk, &mut steps),
        Err(_) => None,
    }
}

#[test]
fn a_page_that_is_written_twice_is_kept_in_a_full_cache(rt: HostRuntime) {
    let read = tried::<Brand>(rt.alloc(), Blank::new(1));
    assert!(rt; read == Some([1, 0, 0]), "what they read");
}
