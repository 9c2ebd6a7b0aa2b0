// Writing homes: the newest bodies are read from the journal into memory, and go home from there.
ghost use Rattle.std.specs.Prelude.{◌≡◌, ◌≤◌, ◌<◌, ◌+◌, ℕ, All, OnOk, length, min, option_map, true, vec_capacity};
ghost use Rattle.std.specs.Option.{ForSome};
ghost use Rattle.mg_disk.specs.Disk.{SameBut};
ghost use Rattle.mg_disk.specs.Runs.{Tracks};
ghost use Rattle.mg_disk.specs.Stops.{DiskCalls, Leaves, NothingPending};
ghost use Rattle.mg_disk.specs.Reads.{Becomes, OnlyReads};
ghost use Rattle.mg_model.specs.Layout.{body_limit, globals_block};
ghost use Rattle.mg_model.specs.Replay.{written};
ghost use Rattle.mg_journal.specs.Applied.{AreInRow, HasBodies, HasRun, filled, nth_body};
ghost use Rattle.mg_journal.specs.Contents.{names};
ghost use Rattle.mg_journal.specs.Places.{IsPlace};

use crate::places::{SEGMENTS, gate_of};
use crate::writes::MOST_WRITES;
use mg_disk::{BLOCK_SIZE, Block, Disk};
use mg_faults::Failed;
use mg_model::layout::{GLOBALS_BLOCK, SEGMENT_SIZE};
use std::alloc::{AllocError, Global};
use std::marker::Model;

/// Memory for the writing of homes. It is taken once, and touched as far as homes that are written need it.
#[derive(Drop)]
pub(crate) struct HomeBuffers {
    // What blocks of the journal hold, each at its own place.
    journal: Vec<Block>,
    // Bodies whose homes follow one another.
    run: Vec<Block>,
}

impl Model for HomeBuffers {
    ghost use Rattle.std.specs.Prelude.{◌≤◌, vec_capacity};
    ghost use Rattle.mg_model.specs.Layout.{body_limit, globals_block};

    ghost Value = { Unit {0} };

    ghost view = { λ _. tt };

    ghost invariant = { λ b. (globals_block ≤ vec_capacity b.journal) × (body_limit ≤ vec_capacity b.run) };
}

impl HomeBuffers {
    /// Takes all memory that the writing of homes will need.
    pub(crate) fn new(alloc: Global) -> Result<HomeBuffers, AllocError> {
        Ok(HomeBuffers {
            journal: Vec::with_capacity(alloc, GLOBALS_BLOCK as usize)?,
            run: Vec::with_capacity(alloc, MOST_WRITES)?,
        })
    }

    /// Writes the bodies at these places to their homes, in order, and syncs them. If there are none no call is made.
    pub(crate) fn write<D: Disk>(
        &mut self,
        disk: &mut D,
        places: &[(u64, u64)],
    ) -> Result<(), Failed>
        requires within_disk { globals_block ≤ D.block_count disk.old }
        requires all_on_disk { All (IsPlace (D.block_count disk.old)) places.now }
        ensures any_moment { NothingPending D.Disk disk.old → ForSome (D.seen disk.old) (λ image. Leaves D.Disk disk.old disk.new (SameBut (λ k. names (filled image places.now) k ≡ true) image)) }
        ensures written { OnOk result (D.seen disk.new ≡ option_map (λ image. written image (filled image places.now)) (D.seen disk.old)) }
        ensures torn { Becomes (λ image. SameBut (λ k. names (filled image places.now) k ≡ true) image) (D.seen disk.old) (D.seen disk.new) }
        ensures settled { OnOk result (NothingPending D.Disk disk.old → NothingPending D.Disk disk.new) }
        ensures calls { DiskCalls D.Disk disk.old disk.new result }
    {
        let (_, end) = span_of(places, 0, GLOBALS_BLOCK);
        grow(&mut self.journal, end as usize);
        grow(&mut self.run, places.len().min(MOST_WRITES));
        read_bodies(disk, places, &mut self.journal)?;
        apply(disk, places, &self.journal, &mut self.run)
    }
}

// Makes it `count` blocks long, if it is shorter. It takes no memory.
fn grow(blocks: &mut Vec<Block>, count: usize)
    requires room { count ≤ vec_capacity blocks.old }
    ensures long { count ≤ length blocks.new.items }
    ensures room { vec_capacity blocks.old ≤ vec_capacity blocks.new }
{
    if blocks.len() < count {
        // There is room.
        let _ = blocks.resize(count, [0; BLOCK_SIZE]);
    }
}

// The blocks from the first body to the last that these places have from one block on and before another; no blocks if they have
// none there.
fn span_of(places: &[(u64, u64)], from: u64, to: u64) -> (u64, u64)
    ensures all { (k : ℕ) → k < length places.now → from ≤ nth_body places.now k → nth_body places.now k < to → (result.0 ≤ nth_body places.now k) × (nth_body places.now k < result.1) }
    ensures ordered { result.0 ≤ result.1 }
    ensures within { result.1 ≤ to }
{
    let mut low = to;
    let mut high = 0;
    for k in 0..places.len() {
        let body = places[k].1;
        if from <= body && body < to {
            low = low.min(body);
            high = high.max(body + 1);
        }
    }
    (low.min(high), high)
}

// Reads the bodies that lie from one block on and before another, in one call.
fn read_part<D: Disk>(
    disk: &mut D,
    places: &[(u64, u64)],
    from: u64,
    to: u64,
    journal: &mut [Block],
) -> Result<(), Failed>
    requires bodies { (k : ℕ) → k < length places.now → nth_body places.now k < length journal.old }
    requires in_journal { to ≤ globals_block }
    requires within_disk { globals_block ≤ D.block_count disk.old }
    ensures read { OnOk result (ForSome (D.seen disk.old) (λ image. HasBodies from places.now journal.old image → HasBodies to places.now journal.new image)) }
    ensures whole { length journal.new ≡ length journal.old }
    ensures reads { OnlyReads D.Disk disk.old disk.new result }
{
    let (low, high) = span_of(places, from, to.min(journal.len() as u64));
    disk.read_blocks(low, &mut journal[low as usize..high as usize])
}

// Reads the bodies at these places, those of a segment in one call.
fn read_bodies<D: Disk>(
    disk: &mut D,
    places: &[(u64, u64)],
    journal: &mut [Block],
) -> Result<(), Failed>
    requires bodies { (k : ℕ) → k < length places.now → nth_body places.now k < length journal.old }
    requires within_disk { globals_block ≤ D.block_count disk.old }
    ensures read { OnOk result (ForSome (D.seen disk.old) (HasBodies globals_block places.now journal.new)) }
    ensures whole { length journal.new ≡ length journal.old }
    ensures reads { OnlyReads D.Disk disk.old disk.new result }
{
    let mut from = 0;
    for segment in 0..SEGMENTS {
        let to = gate_of(segment) + SEGMENT_SIZE;
        read_part(disk, places, from, to, journal)?;
        from = to;
    }
    Ok(())
}

// How many homes follow one another from place `first` on, `most` at most.
fn count_row(places: &[(u64, u64)], first: usize, most: usize) -> usize
    requires there { first < length places.now }
    requires some { 0 < most }
    requires few { most ≤ body_limit }
    requires behind { All (λ place. globals_block ≤ place.0) places.now }
    ensures some { 0 < result }
    ensures at_most { result ≤ most }
    ensures there { first + result ≤ length places.now }
    ensures row { AreInRow places.now first result }
{
    let home = places[first].0;
    let most = most.min(places.len() - first);
    for j in 0..most {
        if places[first + j].0 - j as u64 != home {
            return j;
        }
    }
    most
}

// Copies the bodies of `count` places, from place `first` on, next to each other. A single one stays where it is.
fn gather(places: &[(u64, u64)], first: usize, count: usize, journal: &[Block], run: &mut [Block])
    requires there { first + count ≤ length places.now }
    requires room { count ≤ length run.old }
    requires bodies { (k : ℕ) → k < length places.now → nth_body places.now k < length journal.now }
    ensures gathered { 1 < count → HasRun places.now first count journal.now run.new }
    ensures room { length run.new ≡ length run.old }
{
    if count > 1 {
        for j in 0..count {
            run[j] = journal[places[first + j].1 as usize];
        }
    }
}

// The bodies of `count` places, from place `first` on, next to each other: in the run, or where a single one was read.
fn row_among<'a>(
    places: &[(u64, u64)],
    first: usize,
    count: usize,
    journal: &'a [Block],
    run: &'a [Block],
) -> &'a [Block]
    requires some { 0 < count }
    requires there { first + count ≤ length places.now }
    requires room { count ≤ length run.now }
    requires bodies { (k : ℕ) → k < length places.now → nth_body places.now k < length journal.now }
    requires gathered { 1 < count → HasRun places.now first count journal.now run.now }
    ensures row { HasRun places.now first count journal.now result.now }
    ensures long { length result.now ≡ count }
{
    if count > 1 {
        &run[..count]
    } else {
        let body = places[first].1 as usize;
        &journal[body..body + 1]
    }
}

// Writes the bodies at these places to their homes and syncs them. If there are none no call is made.
#[tactic(auto, using(crate::proofs::ApplyRuns::homes_synced, crate::proofs::ApplyRuns::kept_synced, crate::proofs::ApplyRuns::settled_synced))]
fn apply<D: Disk>(
    disk: &mut D,
    places: &[(u64, u64)],
    journal: &[Block],
    run: &mut [Block],
) -> Result<(), Failed>
    requires all_on_disk { All (IsPlace (D.block_count disk.old)) places.now }
    requires bodies { (k : ℕ) → k < length places.now → nth_body places.now k < length journal.now }
    requires read { ForSome (D.seen disk.old) (HasBodies globals_block places.now journal.now) }
    requires room { min (length places.now) body_limit ≤ length run.old }
    ensures any_moment { NothingPending D.Disk disk.old → ForSome (D.seen disk.old) (λ image. Leaves D.Disk disk.old disk.new (SameBut (λ k. names (filled image places.now) k ≡ true) image)) }
    ensures written { OnOk result (D.seen disk.new ≡ option_map (λ image. written image (filled image places.now)) (D.seen disk.old)) }
    ensures torn { Becomes (λ image. SameBut (λ k. names (filled image places.now) k ≡ true) image) (D.seen disk.old) (D.seen disk.new) }
    ensures settled { OnOk result (NothingPending D.Disk disk.old → NothingPending D.Disk disk.new) }
    ensures calls { DiskCalls D.Disk disk.old disk.new result }
{
    if places.len() == 0 {
        return Ok(());
    }
    put_homes(disk, places, journal, run)?;
    disk.sync()
}

// Writes the bodies at these places to their homes, in order, those that follow one another in one call. Nothing is synced.
fn put_homes<D: Disk>(
    disk: &mut D,
    places: &[(u64, u64)],
    journal: &[Block],
    run: &mut [Block],
) -> Result<(), Failed>
    requires all_on_disk { All (IsPlace (D.block_count disk.old)) places.now }
    requires bodies { (k : ℕ) → k < length places.now → nth_body places.now k < length journal.now }
    requires read { ForSome (D.seen disk.old) (HasBodies globals_block places.now journal.now) }
    requires room { min (length places.now) body_limit ≤ length run.old }
    ensures tracks { NothingPending D.Disk disk.old → ForSome (D.seen disk.old) (λ image. Tracks D.Disk disk.old disk.new (SameBut (λ k. names (filled image places.now) k ≡ true) image) (SameBut (λ k. names (filled image places.now) k ≡ true) image)) }
    ensures written { OnOk result (D.seen disk.new ≡ option_map (λ image. written image (filled image places.now)) (D.seen disk.old)) }
    ensures torn { Becomes (λ image. SameBut (λ k. names (filled image places.now) k ≡ true) image) (D.seen disk.old) (D.seen disk.new) }
    ensures calls { DiskCalls D.Disk disk.old disk.new result }
{
    let mut first = 0;
    while first < places.len() {
        let count = count_row(places, first, run.len().min(MOST_WRITES));
        gather(places, first, count, journal, run);
        let row = row_among(places, first, count, journal, run);
        disk.write_blocks(places[first].0, row)?;
        first += count;
    }
    Ok(())
}
