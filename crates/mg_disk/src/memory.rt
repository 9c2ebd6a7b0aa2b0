//! A disk in memory, for tests: calls fail when the test says, and it shows what a stop may leave.
ghost use Rattle.std.specs.Prelude.{◌≡◌, ◌+◌, ◌<◌, ◌≤◌, ◌++◌, ◌∷◌, [], ℕ, true, refl, Some, vec_len, vec_capacity, Contains, length, slice_set, IfOk, IsErr, OnErr};
ghost use Rattle.mg_faults.specs.Faults.{CountGoesOn, Rose, is_last};
ghost use Rattle.mg_disk.specs.Disk.{SameBut, At, AreBytes};
ghost use Rattle.mg_disk.specs.Blocks.{told_count, told_bytes, zeros_of, gates_block};
ghost use Rattle.mg_disk.specs.Reads.{StandsAt};
ghost use Rattle.mg_disk.specs.Held.{run, start, time_of};
ghost use Rattle.mg_disk.specs.HeldLemmas.{been_now, counted_now, seen_stays};

use crate::blocks::{copy_at, put_gates, zeros};
use crate::{BLOCK_SIZE, Block, Disk, Failed, GATE_OPEN};
use mg_faults::FaultCount;
use std::alloc::{AllocError, Global};

/// How many calls were made. Calls past the room are not among them.
#[derive(Clone, Copy, Default, PartialEq, Eq)]
pub struct Counts {
    pub reads: u64,
    pub writes: u64,
    pub syncs: u64,
}

/// What a stop is to leave of the blocks that were written since the last good sync.
#[derive(Clone, Copy, PartialEq, Eq)]
pub enum Left {
    /// What they held at that sync.
    Old,
    /// What was written last.
    New,
    /// [`GATE_OPEN`] throughout.
    Gates,
}

/// A step of what a stop may leave.
#[derive(Drop)]
enum Event {
    /// The block, and what was written there.
    Wrote(u64, Block),
    /// A good sync.
    Synced,
}

/// The result of a call.
enum Turn {
    Passes,
    /// Its number is one that fails.
    Fails,
    /// Its number is at or past the room.
    Past,
}

/// A disk in memory whose calls of read, write and sync are numbered from 0, and fail by their number.
///
/// A call fails exactly if its number is among `fails`, or is `room` or more. A write that fails by its number leaves
/// [`GATE_OPEN`] throughout its block, and counts as written since the last good sync. A call past the room changes nothing
/// but the count of faults.
#[derive(Drop)]
pub struct MemDisk {
    /// What it held at first.
    first: Vec<Block>,
    /// What reads give.
    content: Vec<Block>,
    /// What the last good sync left.
    synced: Vec<Block>,
    /// The blocks written since then.
    touched: Vec<u64>,
    /// The writes and the good syncs: what a stop at an earlier moment may have left.
    events: Vec<Event>,
    /// The calls so far, below the room.
    made: Counts,
    room: u64,
    fails: Vec<u64>,
    count: FaultCount,
    ghost within: { made.reads + made.writes + made.syncs ≤ room },
    ghost recorded: { vec_len events ≤ made.reads + made.writes + made.syncs },
    ghost fewer: { vec_len touched ≤ vec_len events },
    ghost ample: { room ≤ vec_capacity events },
    ghost ample_touched: { room ≤ vec_capacity touched },
    ghost bytes: { AreBytes content.items },
    ghost synced_bytes: { AreBytes synced.items },
    ghost placed: { (k : ℕ) → Contains touched.items k → k < vec_len content },
    ghost pending: { SameBut (Contains touched.items) synced.items content.items },
    ghost held: { run (start first.items) events.items ≡ record { base = synced.items; now = content.items; touched = touched.items } },
}

impl MemDisk {
    ghost use Rattle.mg_disk.specs.Memory.{counts_of, calls_made, room_of, fails_of, content_of, one_write, one_sync, IsFresh, IsLeft};
    ghost use Rattle.mg_disk.specs.MemoryTurn.{IsTurn};

    /// A disk of `blocks` blocks of zeros. All its memory is taken here, with room for a record of `room` calls.
    pub fn new(
        alloc: Global,
        blocks: u64,
        room: u64,
        fails: Vec<u64>,
    ) -> Result<MemDisk, AllocError>
        ensures zeros { IfOk result (λ disk. StandsAt ⟦<MemDisk as Disk>⟧ disk (zeros_of blocks)) }
        ensures blocks { IfOk result (λ disk. ⟦<MemDisk as Disk>⟧.block_count disk ≡ blocks) }
        ensures fresh { IfOk result (λ disk. IsFresh disk room fails.items) }
        ensures no_faults { IfOk result (λ disk. ⟦<MemDisk as Disk>⟧.faults disk ≡ 0) }
    {
        MemDisk::holding(alloc, zeros(alloc, blocks)?, room, fails)
    }

    /// A new disk that holds these blocks.
    fn holding(
        alloc: Global,
        content: Vec<Block>,
        room: u64,
        fails: Vec<u64>,
    ) -> Result<MemDisk, AllocError>
        requires bytes { AreBytes content.items }
        ensures holds { IfOk result (λ disk. StandsAt ⟦<MemDisk as Disk>⟧ disk content.items) }
        ensures content { IfOk result (λ disk. content_of disk ≡ content.items) }
        ensures blocks { IfOk result (λ disk. ⟦<MemDisk as Disk>⟧.block_count disk ≡ vec_len content) }
        ensures fresh { IfOk result (λ disk. IsFresh disk room fails.items) }
        ensures no_faults { IfOk result (λ disk. ⟦<MemDisk as Disk>⟧.faults disk ≡ 0) }
    {
        Ok(MemDisk {
            first: Vec::from_slice(alloc, &content)?,
            synced: Vec::from_slice(alloc, &content)?,
            touched: Vec::with_capacity(alloc, room as usize)?,
            events: Vec::with_capacity(alloc, room as usize)?,
            content,
            made: Counts::default(),
            room,
            fails,
            count: FaultCount::new(),
        })
    }

    /// A new disk with an image that a stop now may leave of this one, with the same room and no call that fails by its
    /// number.
    pub fn stopped(&self, alloc: Global, left: Left) -> Result<MemDisk, AllocError>
        ensures may_be_left { IfOk result (λ disk. (⟦<MemDisk as Disk>⟧.time self.now).left_since (⟦<MemDisk as Disk>⟧.time self.now).moment (content_of disk)) }
        ensures left { IfOk result (λ disk. IsLeft left self.now (content_of disk)) }
        ensures stands { IfOk result (λ disk. StandsAt ⟦<MemDisk as Disk>⟧ disk (content_of disk)) }
        ensures blocks { IfOk result (λ disk. ⟦<MemDisk as Disk>⟧.block_count disk ≡ ⟦<MemDisk as Disk>⟧.block_count self.now) }
        ensures fresh { IfOk result (λ disk. IsFresh disk (room_of self.now) []) }
        ensures no_faults { IfOk result (λ disk. ⟦<MemDisk as Disk>⟧.faults disk ≡ 0) }
    {
        MemDisk::holding(alloc, self.left(alloc, left)?, self.room, Vec::new(alloc))
    }

    /// What a stop now leaves.
    fn left(&self, alloc: Global, left: Left) -> Result<Vec<Block>, AllocError>
        ensures left { IfOk result (λ content. IsLeft left self.now content.items) }
        ensures blocks { IfOk result (λ content. vec_len content ≡ vec_len self.now.content) }
        ensures bytes { IfOk result (λ content. AreBytes content.items) }
    {
        match left {
            Left::Old => Vec::from_slice(alloc, &self.synced),
            Left::New => Vec::from_slice(alloc, &self.content),
            Left::Gates => {
                let mut content = Vec::from_slice(alloc, &self.synced)?;
                put_gates(&mut content, &self.touched);
                Ok(content)
            }
        }
    }

    /// How many calls were made so far.
    pub fn counts(&self) -> Counts
        ensures { result ≡ counts_of self.now }
    {
        self.made
    }

    fn turn(&self) -> Turn
        ensures { IsTurn result (room_of self.now) (fails_of self.now) (calls_made self.now) }
    {
        let number = self.made.reads + self.made.writes + self.made.syncs;
        if number >= self.room {
            Turn::Past
        } else if self.fails.contains(&number) {
            Turn::Fails
        } else {
            Turn::Passes
        }
    }

    /// Counts a fault.
    fn fail(&mut self) -> Result<(), Failed>
        ensures fails { IsErr result }
        ensures counts { self.new ≡ record self.old { count = self.new.count } }
        ensures goes_on { CountGoesOn self.old.count self.new.count (is_last self.old.count) (is_last self.new.count) }
        ensures rose { Rose self.old.count self.new.count (is_last self.new.count) }
    {
        self.count.raise();
        Err(Failed)
    }

    /// Records a write, and makes it.
    fn put(&mut self, i: u64, block: &Block)
        requires numbered { calls_made self.old < room_of self.old }
        requires in_range { i < vec_len self.old.content }
        ensures content { self.new.content.items ≡ slice_set self.old.content.items i block.now }
        ensures events { self.new.events.items ≡ self.old.events.items ++ Event.Wrote i block.now ∷ [] }
        ensures first { self.new.first.items ≡ self.old.first.items }
        ensures blocks { vec_len self.new.content ≡ vec_len self.old.content }
        ensures counts { counts_of self.new ≡ one_write (counts_of self.old) }
        ensures settings { (room_of self.new ≡ room_of self.old) × (fails_of self.new ≡ fails_of self.old) × (self.new.count ≡ self.old.count) }
    {
        self.made.writes += 1;
        self.touched.push_reserved(i);
        self.events.push_reserved(Event::Wrote(i, *block));
        self.content[i as usize] = *block;
    }

    /// Records a good sync, and makes it.
    fn record_sync(&mut self)
        requires numbered { calls_made self.old < room_of self.old }
        ensures content { self.new.content.items ≡ self.old.content.items }
        ensures synced { self.new.synced.items ≡ self.old.content.items }
        ensures touched { self.new.touched.items ≡ [] }
        ensures events { self.new.events.items ≡ self.old.events.items ++ Event.Synced ∷ [] }
        ensures first { self.new.first.items ≡ self.old.first.items }
        ensures blocks { vec_len self.new.content ≡ vec_len self.old.content }
        ensures counts { counts_of self.new ≡ one_sync (counts_of self.old) }
        ensures settings { (room_of self.new ≡ room_of self.old) × (fails_of self.new ≡ fails_of self.old) × (self.new.count ≡ self.old.count) }
    {
        self.made.syncs += 1;
        copy_at(&self.touched, &self.content, &mut self.synced);
        self.touched.clear();
        self.events.push_reserved(Event::Synced);
    }
}

impl Disk for MemDisk {
    ghost use Rattle.mg_disk.specs.Calls.{IsRead, IsReadRun, IsWrite, IsWriteRun, IsSync};
    ghost use Rattle.mg_disk.specs.Memory.{counts_of, calls_made, room_of, content_of, FailsFirst, IsCutAt, Numbered, NumberedRun, more_reads, more_writes, one_read, one_write, one_sync};

    ghost block_count = { λ d. vec_len d.content };

    ghost seen = { λ d. Some d.content.items };

    ghost tells_stops = { λ _. true };

    ghost time = { λ d. time_of d.first.items d.events.items };

    ghost faults = { λ d. d.count };

    ghost is_spent = { λ d. is_last d.count };

    ghost now_has_been = { λ d. been_now d.events.items };

    ghost counts_now = { λ d. counted_now d.first.items d.events.items };

    ghost seen_may_stay = { λ d _. seen_stays d.first.items d.events.items d.synced.items d.content.items d.touched.items d.held d.pending };

    ghost only_told = { λ _ _ _ _. refl };

    ghost seen_count = { λ d. told_count d.content };

    ghost seen_bytes = { λ d. told_bytes d.content.items d.bytes };

    fn blocks(&self) -> u64 {
        self.content.len() as u64
    }

    fn read(&mut self, i: u64, out: &mut Block) -> Result<(), Failed>
        requires in_range { i < ⟦<MemDisk as Disk>⟧.block_count self.old }
        ensures meets { IsRead ⟦<MemDisk as Disk>⟧ self.old self.new i out.new result }
        ensures numbered { Numbered self.old self.new (one_read (counts_of self.old)) result }
    {
        match self.turn() {
            Turn::Past => self.fail(),
            Turn::Fails => {
                self.made.reads += 1;
                self.fail()
            }
            Turn::Passes => {
                self.made.reads += 1;
                *out = self.content[i as usize];
                Ok(())
            }
        }
    }

    fn write(&mut self, i: u64, from: &Block) -> Result<(), Failed>
        requires in_range { i < ⟦<MemDisk as Disk>⟧.block_count self.old }
        ensures meets { IsWrite ⟦<MemDisk as Disk>⟧ self.old self.new i from.now result }
        ensures numbered { Numbered self.old self.new (one_write (counts_of self.old)) result }
        ensures gates { OnErr result (calls_made self.old < room_of self.old → content_of self.new ≡ slice_set (content_of self.old) i gates_block) }
    {
        match self.turn() {
            Turn::Past => self.fail(),
            Turn::Fails => {
                self.put(i, &[GATE_OPEN; BLOCK_SIZE]);
                self.fail()
            }
            Turn::Passes => {
                self.put(i, from);
                Ok(())
            }
        }
    }

    /// Each block is a call, with a number of its own.
    fn read_blocks(&mut self, first: u64, out: &mut [Block]) -> Result<(), Failed>
        requires in_range { first + length out.old ≤ ⟦<MemDisk as Disk>⟧.block_count self.old }
        ensures meets { IsReadRun ⟦<MemDisk as Disk>⟧ self.old self.new first (length out.old) out.new result }
        ensures numbered { NumberedRun (length out.old) self.old self.new (more_reads (counts_of self.old)) result }
    {
        self.keeps_count();
        for k in 0..out.len() {
            match self.read(first + k as u64, &mut out[k]) {
                Ok(()) => {}
                Err(Failed) => return Err(Failed),
            }
        }
        Ok(())
    }

    /// Each block is a call, with a number of its own. A run that fails keeps the blocks before the block whose call failed,
    /// and writes none after it.
    fn write_blocks(&mut self, first: u64, from: &[Block]) -> Result<(), Failed>
        requires in_range { first + length from.now ≤ ⟦<MemDisk as Disk>⟧.block_count self.old }
        ensures meets { IsWriteRun ⟦<MemDisk as Disk>⟧ self.old self.new first from.now result }
        ensures numbered { NumberedRun (length from.now) self.old self.new (more_writes (counts_of self.old)) result }
        ensures cut { OnErr result ((k : ℕ) × FailsFirst self.old self.new (more_writes (counts_of self.old)) (length from.now) k × IsCutAt self.old self.new first from.now k) }
    {
        self.keeps_count();
        for (k, block) in from.iter().enumerate() {
            match self.write(first + k as u64, block) {
                Ok(()) => {}
                Err(Failed) => return Err(Failed),
            }
        }
        Ok(())
    }

    fn sync(&mut self) -> Result<(), Failed>
        ensures meets { IsSync ⟦<MemDisk as Disk>⟧ self.old self.new result }
        ensures numbered { Numbered self.old self.new (one_sync (counts_of self.old)) result }
    {
        match self.turn() {
            Turn::Past => self.fail(),
            Turn::Fails => {
                self.made.syncs += 1;
                self.fail()
            }
            Turn::Passes => {
                self.record_sync();
                Ok(())
            }
        }
    }
}
