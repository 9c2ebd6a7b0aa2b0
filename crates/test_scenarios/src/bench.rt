// Opens the images that a stop left.
use crate::expected::KnownState;
use mg_disk::{BLOCK_SIZE, Counts, Disk, GATE_OPEN, MemDisk, ScratchDisk};
use mg_layout::{FIRST_SEGMENT, SEGMENT_COUNT, SEGMENT_SIZE};
use mg_session::Status;
use std::alloc::{AllocError, Global};
use test_helpers::{Streams, command};

/// Of the images with an open segment, those with these numbers, from 0, are also stopped while they open.
const CHOSEN: [u64; 3] = [4, 20, 60];

/// A disk on which images are opened, and what was seen so far.
#[derive(Drop)]
pub struct Bench {
    scratch: ScratchDisk,
    /// The disk's counts and the number of answers at the last stop. None at the beginning of a run.
    last: Option<(Counts, usize)>,
    /// The number of writes at the last sync.
    synced_writes: u64,
    /// The number of images that were opened.
    stops: u64,
    /// The number of these that had an open segment.
    open: u64,
}

impl Bench {
    /// A bench for images with as many blocks as this disk has.
    pub fn new(alloc: Global, disk: &MemDisk) -> Result<Bench, AllocError> {
        match ScratchDisk::new(alloc, disk.blocks()) {
            Ok(scratch) => Ok(Bench {
                scratch,
                last: None,
                synced_writes: 0,
                stops: 0,
                open: 0,
            }),
            Err(e) => Err(e),
        }
    }

    /// The number of images that were opened.
    pub fn stops(&self) -> u64 {
        self.stops
    }

    /// Begins another run: later stops are not compared with those before.
    pub fn begin_run(&mut self) {
        self.last = None;
    }

    /// The number of ways in which a stop now may leave this disk. It is 0 if nothing changed since the last stop, 1 if nothing was
    /// written since the last sync, and else 3.
    pub fn ways(&mut self, disk: &MemDisk, answered: usize) -> usize {
        let counts = disk.counts();
        let ways = match self.last {
            None => 3,
            Some((last, before)) => {
                if counts.syncs != last.syncs {
                    self.synced_writes = counts.writes;
                }
                if counts.writes == last.writes
                    && counts.syncs == last.syncs
                    && answered == before
                {
                    0
                } else if counts.writes == self.synced_writes {
                    1
                } else {
                    3
                }
            }
        };
        if self.last.is_none() {
            self.synced_writes = u64::MAX;
        }
        self.last = Some((counts, answered));
        ways
    }

    /// Whether a volume is in the state after the answered lines, or in the one after the next batch. None if out of memory.
    pub fn matches(
        &mut self,
        alloc: Global,
        image: &mut MemDisk,
        states: &[KnownState],
        answered: usize,
    ) -> Option<bool> {
        self.stops = self.stops.saturating_add(1);
        let mut tried: usize = 0;
        for state in states {
            if state.calls >= answered && tried < 2 {
                copy(image, &mut self.scratch);
                if is_state(alloc, &mut self.scratch, state)? {
                    return Some(true);
                }
                tried = tried.saturating_add(1);
            }
        }
        Some(false)
    }

    /// Whether this image is also stopped while it opens.
    pub fn is_chosen(&mut self, image: &mut MemDisk) -> bool {
        if !has_open_segment(image) {
            return false;
        }
        let number = self.open;
        self.open = number.saturating_add(1);
        CHOSEN.contains(&number)
    }
}

/// Whether the volume on a disk is in this state. None if out of memory.
fn is_state(alloc: Global, disk: &mut ScratchDisk, state: &KnownState) -> Option<bool> {
    match command(alloc, "vol run", disk, &Streams::of(&state.input)) {
        Ok(outcome) => Some(
            outcome.status == Status::Done
                && outcome.printed.as_slice() == state.answers.as_slice(),
        ),
        Err(_) => None,
    }
}

/// Copies all blocks of one disk to the other.
pub fn copy(from: &mut MemDisk, to: &mut ScratchDisk) {
    let mut block = [0; BLOCK_SIZE];
    for i in 0..from.blocks() {
        if i < from.blocks() && i < to.blocks() && from.read(i, &mut block).is_ok() {
            let _ = to.write(i, &block);
        }
    }
}

/// Whether a segment of the journal is open.
fn has_open_segment(image: &mut MemDisk) -> bool {
    let mut block = [0; BLOCK_SIZE];
    for i in 0..SEGMENT_COUNT {
        let gate = FIRST_SEGMENT + SEGMENT_SIZE * i;
        if gate < image.blocks() && image.read(gate, &mut block).is_ok() && block[0] == GATE_OPEN {
            return true;
        }
    }
    false
}
