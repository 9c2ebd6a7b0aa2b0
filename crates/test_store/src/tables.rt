// A frame table that is read once the pages are made.
ghost use Rattle.std.specs.Prelude.{◌≡◌, ◌≤◌, ◌<◌, true};
ghost use Rattle.mg_journal.specs.Standing.{Stands, total_of};
ghost use Rattle.mg_model.specs.Bytes.{are_zeros};
ghost use Rattle.mg_pages.specs.Meaning.{frame_count, store_of, table_in};

use crate::disks::{NONE, zeros};
use mg_disk::{BLOCK_SIZE, Disk, MemDisk};
use mg_journal::Store;
use mg_layout::{Geometry, TABLE_BLOCK};
use mg_model::Steps;
use mg_pages::Pages;
use std::alloc::Global;
use std::marker::Brand;
use std::sync::ledger::{Blank, Ledger};

/// The blocks of a volume of 64 frames.
const BLOCKS: u64 = 2660;

/// More calls than a test makes of one disk.
const ROOM: u64 = 200;

/// The pages of the first five frames.
type Table = [u64; 5];

/// The tables before the frame table is read, and then; a word of page 0, and how many words are counted after it.
type Read = ([Table; 2], [u64; 2]);

fn table(pages: &Pages) -> Table
    requires frames { frame_count pages.now ≡ 64 }
{
    [
        pages.page_at(0),
        pages.page_at(1),
        pages.page_at(2),
        pages.page_at(3),
        pages.page_at(4),
    ]
}

// Page 0 is no page: its word is told if no page is on the disk.
fn no_page<D: Disk, L: Ledger>(
    pages: &mut Pages,
    disk: &mut D,
    steps: &mut Steps<L>,
) -> Option<[u64; 2]> {
    match pages.word(disk, 0, 3, steps) {
        Ok(word) => Some([word, pages.words()]),
        Err(_) => None,
    }
}

fn loaded<D: Disk, L: Ledger>(pages: &mut Pages, disk: &mut D, steps: &mut Steps<L>) -> Option<Read>
    requires frames { frame_count pages.old ≡ 64 }
    requires unbound { are_zeros (table_in pages.old) ≡ true }
    requires stands { Stands D.Disk (store_of pages.old) disk.old }
{
    let before = table(pages);
    match pages.load_table(disk) {
        Ok(()) => Some(([before, table(pages)], no_page(pages, disk, steps)?)),
        Err(_) => None,
    }
}

fn made<D: Disk, L: Ledger>(
    alloc: Global,
    store: Store,
    disk: &mut D,
    steps: &mut Steps<L>,
) -> Option<Read>
    requires total { total_of store ≡ 2660 }
    requires stands { Stands D.Disk store disk.old }
{
    match Pages::new(alloc, store, Geometry::of(64)) {
        Ok(mut pages) => loaded(&mut pages, disk, steps),
        Err(_) => None,
    }
}

/// Writes a table that has page 7 in its entries 0 and 3, and page 9 in entry 2.
fn write_table(disk: &mut MemDisk) -> bool
    requires blocks { ⟦<MemDisk as Disk>⟧.block_count disk.old ≡ 2660 }
    ensures blocks { ⟦<MemDisk as Disk>⟧.block_count disk.new ≡ 2660 }
{
    let mut block = [0; BLOCK_SIZE];
    block[0] = 7;
    block[16] = 9;
    block[24] = 7;
    disk.write(TABLE_BLOCK, &block).is_ok()
}

fn opened<L: Ledger>(alloc: Global, disk: &mut MemDisk, steps: &mut Steps<L>) -> Option<Read>
    requires blocks { ⟦<MemDisk as Disk>⟧.block_count disk.old ≡ 2660 }
{
    if !write_table(disk) {
        return None;
    }
    match Store::open(alloc, disk, BLOCKS) {
        Ok(store) => made(alloc, store, disk, steps),
        Err(_) => None,
    }
}

fn pages_bound<L: Ledger>(alloc: Global, blank: Blank) -> Option<Read>
    requires name { blank.name ≡ L.name }
    requires parts { blank.parts ≡ L.parts }
    requires has_parts { 0 < blank.parts }
{
    let mut steps = Steps::<L>::new(blank);
    match zeros(alloc, BLOCKS, ROOM, NONE) {
        Some(mut disk) => opened(alloc, &mut disk, &mut steps),
        None => None,
    }
}

// A page that occurs twice, as in no volume, is bound to the first of its frames. A word of no page is 0, and is counted.
#[test]
fn a_table_binds_each_page_once(rt: HostRuntime) {
    assert!(rt;
        pages_bound::<Brand>(rt.alloc(), Blank::new(1)) == Some(([[0; 5], [7, 0, 9, 0, 0]], [0, 1]))
    );
}
