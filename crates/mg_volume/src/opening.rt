// Opening a volume whose rows were read: its journal, and then its frame table.
ghost use Rattle.std.specs.Prelude.{◌≡◌, ◌≤◌, true, IfOk, IfSome, length, vec_capacity};
ghost use Rattle.std.specs.Option.{ForSome};
ghost use Rattle.mg_bank.specs.Bank.{credits_of};
ghost use Rattle.mg_rules.specs.RowsRead.{AreKept, ArePlaced, IsReadAs};
ghost use Rattle.mg_disk.specs.Stops.{DiskCallsBy, Leaves, LeftOr};
ghost use Rattle.mg_disk.specs.Reads.{Becomes};
ghost use Rattle.mg_journal.specs.Contents.{SameContents};
ghost use Rattle.mg_journal.specs.Looked.{Fits};
ghost use Rattle.mg_model.specs.Layout.{total_blocks};
ghost use Rattle.mg_model.specs.Limits.{account_limit, credit_limit, object_limit, thread_limit};
ghost use Rattle.mg_model.specs.Tests.{all_distinct};
ghost use Rattle.mg_model.specs.Volume.{bound_pages, volume};
ghost use Rattle.mg_objects.specs.Held.{AreApart, objects_in};
ghost use Rattle.mg_pages.specs.Held.{HasFrames};
ghost use Rattle.mg_pages.specs.Meaning.{store_of};
ghost use Rattle.mg_volume.specs.Opening.{IsOpened, JudgesNothing};
ghost use Rattle.mg_volume.specs.PagesOver.{AreListsOf, ArePagesOver};

use crate::threads::Threads;
use crate::volume::{PAGE_SETS, Volume};
use mg_bank::Bank;
use mg_check::{OpenFault, VolumeRows};
use mg_disk::Disk;
use mg_faults::Failed;
use mg_journal::{Store, View};
use mg_model::{AccRow, ObjRow, ThrRow};
use mg_pages::Pages;
use mg_space::Space;
use std::alloc::Global;

// What a volume has in memory of its tables.
#[derive(Drop)]
struct Lists {
    objects: Space,
    bank: Bank,
    threads: Threads,
}

// These accounts, with the threads of these rows and the objects of a table, of which no two share a page. None if there is not
// enough memory.
fn lists_of(
    alloc: Global,
    table: Vec<Option<ObjRow>>,
    rows: Vec<(u64, ThrRow)>,
    accounts: Vec<AccRow>,
) -> Option<Lists>
    requires at_most_4096_rows { length table.items ≤ object_limit }
    requires has_capacity { object_limit ≤ vec_capacity table }
    requires apart { AreApart (objects_in table.items) }
    requires placed { ArePlaced thread_limit rows.items }
    requires at_most_1024_accounts { length accounts.items ≤ account_limit }
    requires has_account_capacity { account_limit ≤ vec_capacity accounts }
    requires credits { credits_of accounts.items ≤ credit_limit }
    ensures { IfSome result (λ lists. AreListsOf table.items rows.items accounts.items lists.objects lists.bank lists.threads) }
{
    let threads = match Threads::of(alloc, &rows) {
        Ok(threads) => threads,
        Err(_) => return None,
    };
    let mut bank = match Bank::of(alloc, accounts) {
        Ok(bank) => bank,
        Err(_) => return None,
    };
    match Space::of(alloc, table) {
        Ok(Some(objects)) => {
            objects.bill(&mut bank);
            Some(Lists {
                objects,
                bank,
                threads,
            })
        }
        Ok(None) => unreachable!(),
        Err(_) => None,
    }
}

// Opens the journal that is seen so, and then the pages of its volume, whose frame table has these entries.
fn open_pages<D: Disk>(
    alloc: Global,
    entries: Vec<u64>,
    view: View,
    disk: &mut D,
) -> Result<Pages, OpenFault>
    requires frames { HasFrames view.total (length entries.items) }
    requires distinct { all_distinct (bound_pages entries.items) ≡ true }
    requires within_disk { view.total ≤ D.block_count disk.old }
    requires fits { ForSome (D.seen disk.old) (λ image. Fits view image) }
    ensures opened { IfOk result (λ p. ArePagesOver D.Disk (store_of p) entries.items view.total p disk.new) }
    ensures contents { Becomes (SameContents view.total) (D.seen disk.old) (D.seen disk.new) }
    ensures any_moment { ForSome (D.seen disk.old) (λ image. Leaves D.Disk disk.old disk.new (LeftOr D.Disk disk.old (SameContents view.total image))) }
    ensures judges_nothing { JudgesNothing result }
    ensures calls { DiskCallsBy D.Disk disk.old disk.new (result ≡ Err OpenFault.Disk) }
{
    let store = match Store::recover(disk, view) {
        Ok(store) => store,
        Err(Failed) => return Err(OpenFault::Disk),
    };
    match Pages::open(alloc, store, entries) {
        Ok(pages) => Ok(pages),
        Err(_) => Err(OpenFault::Memory),
    }
}

/// Opens the volume whose rows these are: they were read from the disk through this view of its journal, and keep the rules of a
/// volume. Memory for them is taken before anything is written.
pub(crate) fn open_rows<D: Disk>(
    alloc: Global,
    view: View,
    rows: VolumeRows,
    disk: &mut D,
) -> Result<Volume, OpenFault>
    requires kept { AreKept rows }
    requires told { ForSome (D.seen disk.old) (IsReadAs rows) }
    requires fits { ForSome (D.seen disk.old) (λ image. Fits view image) }
    requires total { view.total ≡ total_blocks rows.params.frames }
    requires within_disk { view.total ≤ D.block_count disk.old }
    ensures opened { IfOk result (λ v. IsOpened D.Disk (D.seen disk.old) v disk.new) }
    ensures any_moment { ForSome (D.seen disk.old) (λ image. Leaves D.Disk disk.old disk.new (LeftOr D.Disk disk.old (λ c. volume c ≡ volume image))) }
    ensures judges_nothing { JudgesNothing result }
    ensures calls { DiskCallsBy D.Disk disk.old disk.new (result ≡ Err OpenFault.Disk) }
{
    // This says that the credits are in their range.
    rows.params.keep_rules();
    let lists = match lists_of(alloc, rows.objects, rows.threads, rows.accounts) {
        Some(lists) => lists,
        None => return Err(OpenFault::Memory),
    };
    match open_pages(alloc, rows.table, view, disk) {
        Ok(pages) => Ok(Volume {
            params: rows.params,
            globals: rows.globals,
            objects: lists.objects,
            bank: lists.bank,
            threads: lists.threads,
            pages,
            near: [0; PAGE_SETS],
        }),
        Err(fault) => Err(fault),
    }
}
