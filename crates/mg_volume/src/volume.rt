// A volume that is open.
ghost use Rattle.std.specs.Prelude.{List, ◌≡◌, ◌≤◌, ◌<◌, ◌+◌, ◌-◌, ◌*◌, ◌==◌, ◌||◌, ℕ, true, false, nat_le, IfOk, IfSome, MatchOption, None, Some, filter, find, length, option_map, slice_get, sum_by};
ghost use Rattle.std.specs.List.{list_all};
ghost use Rattle.std.specs.Option.{ForSome, option_copied};
ghost use Rattle.mg_bank.specs.Bank.{pages_at};
ghost use Rattle.mg_disk.specs.Stops.{DiskCallsBy, Leaves, LeftOr};
ghost use Rattle.mg_model.specs.Abbreviations.{free_number};
ghost use Rattle.mg_model.specs.Access.{covers};
ghost use Rattle.mg_model.specs.Bank.{account_of};
ghost use Rattle.mg_model.specs.Limits.{page_size};
ghost use Rattle.mg_model.specs.Objects.{lowest_free, page_behind, page_of};
ghost use Rattle.mg_model.specs.Ranges.{IsPlace};
ghost use Rattle.mg_model.specs.State.{Thread};
ghost use Rattle.mg_model.specs.Turn.{picked};
ghost use Rattle.mg_model.specs.Volume.{Damaged, NotVolume, OldVolume, volume};
ghost use Rattle.mg_volume.specs.Meaning.{IsBaseAt, accounts_in, bare_rows, counters_in, is_live, now_of, objects_in, settings_in, staged_of, threads_in, words_in};
ghost use Rattle.mg_volume.specs.Opening.{IsOpened, Refuses, WritesOnlyVolumes};
ghost use Rattle.mg_volume.specs.Staging.{lives};

use crate::opening::open_rows;
use crate::threads::Threads;
use mg_bank::Bank;
use mg_check::{OpenFault, read_volume};
use mg_disk::Disk;
use mg_model::limits::PAGE_SIZE;
use mg_model::{AccRow, Frame, Globals, ObjRow, Params, ThrRow};
use mg_objects::Objects;
use mg_pages::Pages;
use mg_space::Space;
use std::alloc::Global;
use std::marker::Model;

/// How many sets of pages there are, as a cache has them: page p is in set p modulo 256.
pub(crate) const PAGE_SETS: usize = 256;

/// A volume that is open: its rows in memory, and its words in pages.
#[derive(Drop)]
pub struct Volume {
    pub(crate) params: Params,
    pub(crate) globals: Globals,
    pub(crate) objects: Space,
    pub(crate) bank: Bank,
    pub(crate) threads: Threads,
    pub(crate) pages: Pages,
    // For each set of pages the rank of the object that was found last by an address there.
    pub(crate) near: [usize; PAGE_SETS],
}

impl Model for Volume {
    ghost use Rattle.mg_volume.specs.Held.{VolumeHeld};

    ghost Value = { VolumeHeld };

    ghost use Rattle.mg_volume.specs.Meaning.{IsVolume};

    ghost view = { λ v. record {
      settings = v.params;
      counters = v.globals;
      objects = v.objects;
      accounts = v.bank.accounts;
      threads = v.threads;
      pages = v.pages;
    } };

    ghost invariant = { λ v. IsVolume (record { settings = v.params; counters = v.globals; objects = v.objects; accounts = v.bank.accounts; threads = v.threads; pages = v.pages }) v.bank.pages };
}

#[tactic(auto, unfolding(crate::specs::Meaning::settings_in, crate::specs::Meaning::counters_in, crate::specs::Meaning::objects_in, crate::specs::Meaning::accounts_in, crate::specs::Meaning::threads_in, crate::specs::Meaning::now_of, crate::specs::Meaning::staged_of, crate::specs::Meaning::is_live, crate::specs::Meaning::total_of, crate::specs::Meaning::words_in))]
impl Volume {
    /// Opens the volume of a disk, whatever a stop left of a commit. Its rows are read once, before the first write, and are
    /// those that it holds. All memory that it will need is taken here.
    ///
    /// [`OpenFault::Not`], [`OpenFault::Old`] and [`OpenFault::Damaged`] come exactly if the image that reads give is no
    /// volume, an older one, or a damaged one, and then nothing is written, on every disk; [`OpenFault::Disk`] only if a
    /// call of the disk failed. If that image is no sound volume nothing is written, whatever the answer.
    ///
    /// [`OpenFault::Memory`] comes if out of memory. The rows take theirs before the first write. The pages take theirs after what a
    /// stop left of a commit was made good; the volume is then the same as before.
    pub fn open<D: Disk>(alloc: Global, disk: &mut D) -> Result<Volume, OpenFault>
        ensures opened { IfOk result (λ v. IsOpened D.Disk (D.seen disk.old) v disk.new) }
        ensures any_moment { ForSome (D.seen disk.old) (λ image. Leaves D.Disk disk.old disk.new (LeftOr D.Disk disk.old (λ c. volume c ≡ volume image))) }
        ensures not { result ≡ Err OpenFault.Not → Refuses D.Disk NotVolume disk.old disk.new }
        ensures old { result ≡ Err OpenFault.Old → Refuses D.Disk OldVolume disk.old disk.new }
        ensures damaged { result ≡ Err OpenFault.Damaged → Refuses D.Disk Damaged disk.old disk.new }
        ensures untouched { WritesOnlyVolumes D.Disk disk.old disk.new }
        ensures calls { DiskCallsBy D.Disk disk.old disk.new (result ≡ Err OpenFault.Disk) }
    {
        let (view, rows) = match read_volume(alloc, disk) {
            Ok(read) => read,
            Err(fault) => return Err(fault),
        };
        open_rows(alloc, view, rows, disk)
    }

    /// What it was made with.
    pub fn params(&self) -> Params
        ensures { result ≡ settings_in self.now }
    {
        self.params
    }

    /// The period and the other counters.
    pub fn globals(&self) -> Globals
        ensures { result ≡ counters_in self.now }
    {
        self.globals
    }

    /// The object that has an address. The object that [`Volume::base_at`] found last in the set of
    /// the address's page is looked at first.
    pub fn covering(&self, address: u64) -> Option<ObjRow>
        ensures found { result ≡ find (λ row. covers row address) (objects_in self.now) }
        ensures own { IfSome result (λ row. find (λ other. other.base == row.base) (objects_in self.now) ≡ Some row) }
    {
        self.bases_differ();
        let mut near = self.near[page_set(address)];
        match self.objects.covering_near(address, &mut near) {
            Some(row) => Some(*row),
            None => None,
        }
    }

    /// The base of the object that has an address. The object that was found last in the set of the address's page is looked
    /// at first.
    pub fn base_at(&mut self, address: u64) -> Option<u64>
        ensures base { MatchOption result (find (λ row. covers row address) (objects_in self.old) ≡ None) (λ base. IsBaseAt self.old address base) }
        ensures same { self.new ≡ self.old }
    {
        match self
            .objects
            .covering_near(address, &mut self.near[page_set(address)])
        {
            Some(row) => Some(row.base()),
            None => None,
        }
    }

    /// The object with this base address.
    pub fn object(&self, base: u64) -> Option<ObjRow>
        ensures { result ≡ find (λ row. row.base == base) (objects_in self.now) }
    {
        match self.object_ref(base) {
            Some(row) => Some(*row),
            None => None,
        }
    }

    /// As [`Volume::object`], but borrows the row.
    pub fn object_ref(&self, base: u64) -> Option<&ObjRow>
        ensures { option_copied result ≡ find (λ row. row.base == base) (objects_in self.now) }
    {
        self.objects.get(base)
    }

    /// The objects, in the order of their bases.
    pub fn objects(&self) -> &Objects
        ensures { bare_rows result.now ≡ objects_in self.now }
    {
        self.objects.objects()
    }

    /// How many objects there are, 4,096 at most.
    pub fn object_count(&self) -> u64
        ensures { result ≡ length (objects_in self.now) }
    {
        self.objects.len() as u64
    }

    /// How many pages all objects have, at most as many as there are frames.
    pub fn used(&self) -> u64
        ensures used { result ≡ sum_by (λ row. row.pages) (objects_in self.now) }
        ensures fit { result ≤ (settings_in self.now).frames }
    {
        self.objects.used()
    }

    /// For how many pages this account pays: 0 if its number is not from 1 to 1,024.
    pub fn paid_by(&self, account: u64) -> u64
        ensures { result ≡ sum_by (λ row. row.pages) (filter (λ row. row.account == account) (objects_in self.now)) }
    {
        self.bank.pages(account)
    }

    /// The lowest page from which on `pages` pages, 1 to 1024, meet no object.
    pub fn first(&self, pages: u64) -> u64
        requires at_least_1_page { 1 ≤ pages }
        requires at_most_1024_pages { pages ≤ 1024 }
        ensures lowest { (image : List (List ℕ)) → result ≡ lowest_free (now_of self.now image).objects pages }
        ensures place { IsPlace (page_size * result) pages }
        ensures apart { list_all (λ other. nat_le (result + pages) (page_of other) || nat_le (page_behind other) result) (objects_in self.now) ≡ true }
    {
        self.params.keep_rules();
        self.objects.first(pages)
    }

    /// The accounts, and for how many pages each pays.
    pub fn bank(&self) -> &Bank
        ensures accounts { result.now.accounts ≡ accounts_in self.now }
        ensures pages { (n : ℕ) → pages_at result.now.pages n ≡ sum_by (λ row. row.pages) (filter (λ row. row.account == n) (objects_in self.now)) }
    {
        &self.bank
    }

    /// The account with this number, 1 to 1,024.
    pub fn account(&self, number: u64) -> Option<AccRow>
        ensures found { result ≡ account_of (accounts_in self.now) number }
        ensures within_1_and_1024 { IfSome result (λ _. (1 ≤ number) × (number ≤ 1024)) }
    {
        self.bank.row(number)
    }

    /// The thread with this number, 1 to 256.
    pub fn thread(&self, number: u64) -> Option<ThrRow>
        ensures found { option_map (λ thread. thread.row) (find (λ thread. thread.number == number) (threads_in self.now)) ≡ result }
        ensures within_1_and_256 { IfSome result (λ _. (1 ≤ number) × (number ≤ 256)) }
    {
        match self.threads.get(number) {
            Some(row) => Some(*row),
            None => None,
        }
    }

    /// The row of the thread with this number, 1 to 256, in place.
    pub fn thread_ref(&self, number: u64) -> Option<&ThrRow>
        ensures found { option_map (λ thread. thread.row) (find (λ thread. thread.number == number) (threads_in self.now)) ≡ option_copied result }
        ensures within_1_and_256 { IfSome result (λ _. (1 ≤ number) × (number ≤ 256)) }
    {
        self.threads.get(number)
    }

    /// The lowest number that no thread has, 1 to 256; none if there are 256 threads.
    pub fn free_number(&self) -> Option<u64>
        ensures number { MatchOption result (256 ≤ length (threads_in self.now)) (λ n. (length (threads_in self.now) < 256) × (n ≡ free_number (threads_in self.now)) × (lives self.now n ≡ false)) }
        ensures range { IfSome result (λ n. (1 ≤ n) × (n ≤ 256)) }
    {
        self.threads.free()
    }

    /// The number of the thread that has the next turn: of those that are Ready the lowest above the cursor, or else the lowest.
    pub fn next_ready(&self) -> Option<u64>
        ensures { (image : List (List ℕ)) → result ≡ option_map (λ thread. thread.number) (picked (now_of self.now image)) }
    {
        match self.threads.ready_above(self.globals().cursor()) {
            Some(t) => Some(t),
            None => self.threads.ready_above(0),
        }
    }

    /// The present frame, the last one, of the thread with this number, 1 to 256: its slots, and where it returns to.
    pub fn frame(&self, number: u64) -> Option<Frame>
        ensures found { MatchOption result (find (λ thread. thread.number == number) (threads_in self.now) ≡ None)
            (λ frame. (thread : Thread) × (find (λ thread. thread.number == number) (threads_in self.now) ≡ Some thread) × (slice_get thread.row.frames (length thread.row.frames - 1) ≡ Some frame)) }
        ensures within_1_and_256 { IfSome result (λ _. (1 ≤ number) × (number ≤ 256)) }
    {
        match self.threads.get(number) {
            Some(row) => Some(row.last()),
            None => None,
        }
    }

    /// How many blocks are staged, 0 to 160.
    pub fn staged(&self) -> usize
        ensures { result ≡ staged_of self.now }
    {
        self.pages.staged()
    }

    /// Whether no commit has failed.
    pub fn live(&self) -> bool
        ensures { result ≡ is_live self.now }
    {
        self.pages.live()
    }

    /// How many words were read and written, modulo `2^64`.
    pub fn words(&self) -> u64
        ensures { result ≡ words_in self.now }
    {
        self.pages.words()
    }
}

// The set of an address's page.
fn page_set(address: u64) -> usize
    ensures below_256 { result < 256 }
{
    (address / PAGE_SIZE % PAGE_SETS as u64) as usize
}
