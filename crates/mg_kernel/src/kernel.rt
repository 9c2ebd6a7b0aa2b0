// The kernel.
ghost use Rattle.std.specs.Prelude.{◌≡◌, ◌≤◌, ◌+◌, IfErr, IfOk, IsOk, IsTrue, None, OnOk, is_ok, is_some, option_map, replicate, if◌then◌else◌};
ghost use Rattle.std.specs.Option.{ForSome};
ghost use Rattle.mg_disk.specs.Disk.{Image};
ghost use Rattle.mg_disk.specs.Stops.{DiskCalls, DiskCallsBy, Leaves, LeftOr};
ghost use Rattle.mg_kernel.specs.Meaning.{StandsOn, is_live, now_of, seats_in, staged_of, words_in};
ghost use Rattle.mg_kernel.specs.Opening.{Opens, Refuses, Saves, Starts};
ghost use Rattle.mg_kernel.specs.Serving.{ProbeCosts, Serves, Stays, StepAnswers, StepCosts};
ghost use Rattle.mg_model.specs.Access.{allowed, at, based_at};
ghost use Rattle.mg_model.specs.Limits.{seat_count};
ghost use Rattle.mg_model.specs.Threads.{is_thread};
ghost use Rattle.mg_model.specs.Volume.{Damaged, NotVolume, OldVolume, volume};
ghost use Rattle.mg_serve.specs.Machines.{Rests};
ghost use Rattle.mg_volume.specs.Opening.{WritesOnlyVolumes};

use crate::answering::answer;
use crate::ranges::keeps_ranges;
use mg_calls_dom::validate;
use mg_disk::Disk;
use mg_faults::Failed;
use mg_laws::steps_keep_states_well_formed;
use mg_model::{Line, Reply, Right, Steps};
use mg_vcache::VCache;
use mg_volume::{OpenFault, Volume};
use std::alloc::Global;
use std::sync::ledger::Ledger;

/// The machine on a volume, and what is kept of the rights that it found.
#[derive(Drop)]
pub struct Kernel {
    volume: Volume,
    cache: VCache,
}

#[tactic(auto, unfolding(crate::specs::Meaning::now_of, crate::specs::Meaning::seats_in, crate::specs::Meaning::keeps_key, crate::specs::Meaning::knows, crate::specs::Meaning::staged_in, crate::specs::Meaning::staged_of, crate::specs::Meaning::is_live, crate::specs::Meaning::total_of, crate::specs::Meaning::words_in, crate::specs::Meaning::IsSpelledBy))]
impl Kernel {
    /// Opens the volume of a disk, whatever a stop left of a commit. All memory that the machine will need is taken here.
    ///
    /// [`OpenFault::Not`], [`OpenFault::Old`] and [`OpenFault::Damaged`] come exactly if the image that reads give is no
    /// volume, an older one, or a damaged one, and then nothing is written, on every disk; [`OpenFault::Disk`] comes only if
    /// a call of the disk failed. If that image is no sound volume, nothing is written, whatever the answer.
    ///
    /// [`OpenFault::Memory`] comes if out of memory: as in [`Volume::open`], or for the validation cache, once the volume is open.
    pub fn open<D: Disk>(alloc: Global, disk: &mut D) -> Result<Kernel, OpenFault>
        ensures opens { IfOk result (λ k. ForSome (D.seen disk.old) (λ image. Opens (volume image) k (D.seen disk.new))) }
        ensures starts { IfOk result (λ k. Starts D.Disk k disk.new) }
        ensures any_moment { ForSome (D.seen disk.old) (λ image. Leaves D.Disk disk.old disk.new (LeftOr D.Disk disk.old (λ c. volume c ≡ volume image))) }
        ensures not { result ≡ Err OpenFault.Not → Refuses D.Disk NotVolume disk.old disk.new }
        ensures old { result ≡ Err OpenFault.Old → Refuses D.Disk OldVolume disk.old disk.new }
        ensures damaged { result ≡ Err OpenFault.Damaged → Refuses D.Disk Damaged disk.old disk.new }
        ensures untouched { WritesOnlyVolumes D.Disk disk.old disk.new }
        ensures calls { DiskCallsBy D.Disk disk.old disk.new (result ≡ Err OpenFault.Disk) }
    {
        match Volume::open(alloc, disk) {
            Ok(volume) => {
                volume.is_formed();
                with_cache(alloc, volume)
            }
            Err(fault) => Err(fault),
        }
    }

    /// One line: its reply, and the state after it. It writes nothing. [`Failed`] comes only if a call of the disk
    /// failed; the state and what is staged are then as before, and the kernel still serves.
    ///
    /// Whatever comes of it, `steps` rises by no more than the line's own words and, for each access of the line, 4,088, or 0
    /// if its key was kept and no other key took its seat in the line. If it is answered, its own words are counted, one
    /// each; and unless it disturbs, keys stay kept but for those whose seat another took, and the last key that took a seat
    /// is kept.
    pub fn step<D: Disk, L: Ledger>(
        &mut self,
        disk: &mut D,
        line: &Line,
        steps: &mut Steps<L>,
    ) -> Result<Reply, Failed>
        requires live { IsTrue (is_live self.old) }
        requires at_most_28_staged { staged_of self.old ≤ 28 }
        requires stands { StandsOn D.Disk self.old disk.old }
        ensures answers { StepAnswers D.Disk line.now result self.old self.new disk.old }
        ensures serves { Serves D.Disk self.old self.new disk.old disk.new steps.old steps.new }
        ensures staged { staged_of self.new ≤ staged_of self.old + 132 }
        ensures costs { StepCosts D.Disk line.now result self.old self.new disk.old steps.old steps.new }
        ensures calls { DiskCalls D.Disk disk.old disk.new result }
    {
        keeps_ranges(*line);
        steps_keep_states_well_formed();
        answer(&mut self.volume, &mut self.cache, disk, line, steps)
    }

    /// The base of the object that has an address, if a thread may reach it with the right; None if it may not, or no
    /// such thread lives. The state and what is staged stay. [`Failed`] comes only if a call of the disk failed.
    ///
    /// If the key is kept, no word is read and no call is made on the disk; else at most 4,088 words are read, and the key
    /// of a base that is given is kept then. Each other seat stays.
    pub fn probe<D: Disk, L: Ledger>(
        &mut self,
        disk: &mut D,
        thread: u64,
        address: u64,
        right: Right,
        steps: &mut Steps<L>,
    ) -> Result<Option<u64>, Failed>
        requires live { IsTrue (is_live self.old) }
        requires at_most_30_staged { staged_of self.old ≤ 30 }
        requires stands { StandsOn D.Disk self.old disk.old }
        ensures base { IfOk result (λ base. ForSome (D.seen disk.old) (λ image. base ≡ (if allowed (now_of self.old image) thread address right then option_map (λ object. object.row.base) (at (now_of self.old image).objects address) else None))) }
        ensures stays { Stays D.Disk self.old self.new disk.old }
        ensures serves { Serves D.Disk self.old self.new disk.old disk.new steps.old steps.new }
        ensures costs { ProbeCosts D.Disk (record { thread = thread; address = address; right = right }) result self.old self.new disk.old disk.new steps.old steps.new }
        ensures calls { DiskCalls D.Disk disk.old disk.new result }
    {
        validate(
            &mut self.volume,
            &mut self.cache,
            disk,
            thread,
            address,
            right,
            steps,
        )
    }

    /// Makes the state durable. What is kept of rights stays. With nothing staged no call of the disk is made. After
    /// [`Failed`], which comes only if a call of the disk failed, the kernel is not live, and a stop leaves the state of
    /// before or the new one.
    pub fn commit<D: Disk>(&mut self, disk: &mut D) -> Result<(), Failed>
        requires live { IsTrue (is_live self.old) }
        requires stands { StandsOn D.Disk self.old disk.old }
        ensures saves { Saves D.Disk result self.old self.new disk.old disk.new }
        ensures rests { OnOk result (Rests D.Disk (StandsOn D.Disk self.new disk.new) (staged_of self.new) disk.new) }
        ensures live { is_live self.new ≡ is_ok result }
        ensures words { words_in self.new ≡ words_in self.old }
        ensures seats { seats_in self.new ≡ seats_in self.old }
        ensures calls { DiskCalls D.Disk disk.old disk.new result }
        ensures nothing { staged_of self.old ≡ 0 → (disk.new ≡ disk.old) × IsOk result }
    {
        match self.volume.commit(disk) {
            Ok(()) => {
                self.volume.is_formed();
                Ok(())
            }
            Err(Failed) => Err(Failed),
        }
    }

    /// Whether this is the base of an object, in bytes. It reads no disk, and nothing changes.
    pub fn is_base(&self, base: u64) -> bool
        ensures { (image : Image) → result ≡ is_some (based_at (now_of self.now image).objects base) }
    {
        self.volume.object(base).is_some()
    }

    /// Whether a thread lives. It reads no disk, and nothing changes.
    pub fn lives(&self, thread: u64) -> bool
        ensures { (image : Image) → result ≡ is_thread (now_of self.now image) thread }
    {
        match self.volume.thread_ref(thread) {
            Some(_) => true,
            None => false,
        }
    }

    /// How many blocks are staged, 0 to 160.
    pub fn staged(&self) -> usize
        ensures { result ≡ staged_of self.now }
    {
        self.volume.staged()
    }

    /// Whether no commit has failed.
    pub fn live(&self) -> bool
        ensures { result ≡ is_live self.now }
    {
        self.volume.live()
    }

    /// How many words were read and written, modulo `2^64`.
    pub fn words(&self) -> u64
        ensures { result ≡ words_in self.now }
    {
        self.volume.words()
    }
}

// A kernel on this volume, of which nothing is kept yet.
fn with_cache(alloc: Global, volume: Volume) -> Result<Kernel, OpenFault>
    ensures kernel { IfOk result (λ k. k ≡ record { volume = volume; cache = replicate seat_count None }) }
    ensures memory { IfErr result (λ fault. fault ≡ OpenFault.Memory) }
{
    match VCache::new(alloc) {
        Ok(cache) => Ok(Kernel { volume, cache }),
        Err(_) => Err(OpenFault::Memory),
    }
}
