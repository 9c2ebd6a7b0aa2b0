// A large disk of which few blocks are written, and what a stop leaves of it.
ghost use Rattle.std.specs.Prelude.{false, None};
ghost use Rattle.std.proofs.Common.{rules};
ghost use Rattle.mg_disk.specs.Disk.{At};

use mg_disk::{BLOCK_SIZE, Block, Disk, Left};
use mg_faults::Failed;
use std::alloc::{AllocError, Global};

/// The number of blocks of the disk.
const BLOCKS: u64 = 70_000;

/// The place of a block that was not written.
const NOWHERE: usize = usize::MAX;

/// A write of a block, or a sync.
#[derive(Clone, Copy)]
enum Step {
    Wrote(usize, usize),
    Synced,
}

/// A disk of 70,000 blocks in memory that holds those that were written. It does not say what reads give, and none of its calls fails.
/// A write is lost if memory runs out.
#[derive(Drop)]
pub struct Tape {
    /// The place of each block in `written`.
    places: Vec<usize>,
    /// A block of 0xA5 bytes, and then the blocks that were written, in their order.
    written: Vec<Block>,
    /// The places of the blocks at the mark.
    marked: Vec<usize>,
    /// The writes and the syncs from the mark to the first stop after it.
    steps: Vec<Step>,
    is_stopped: bool,
}

/// The place of the block of 0xA5 bytes.
const GATE: usize = 0;

impl Tape {
    /// A disk of zeros.
    pub fn new(alloc: Global) -> Result<Tape, AllocError> {
        match vec![in alloc; [0xA5; BLOCK_SIZE]; 1] {
            Ok(written) => Tape::with_blocks(alloc, written),
            Err(e) => Err(e),
        }
    }

    fn with_blocks(alloc: Global, written: Vec<Block>) -> Result<Tape, AllocError> {
        match vec![in alloc; NOWHERE; BLOCKS as usize] {
            Ok(places) => Ok(Tape {
                places,
                written,
                marked: Vec::new(alloc),
                steps: Vec::new(alloc),
                is_stopped: false,
            }),
            Err(e) => Err(e),
        }
    }

    /// Sets the mark: the steps after it are recorded. False if out of memory.
    pub fn mark(&mut self) -> bool {
        self.steps.clear();
        self.is_stopped = false;
        match self.places.clone() {
            Ok(places) => {
                self.marked = places;
                true
            }
            Err(_) => false,
        }
    }

    /// The numbers of writes and of syncs from the mark to the first stop after it.
    pub fn counts(&self) -> (usize, usize) {
        let all = self.steps.len();
        let syncs = self
            .steps
            .iter()
            .filter(|step| matches!(step, Step::Synced))
            .count();
        (all.saturating_sub(syncs), syncs)
    }

    /// Makes the disk what a stop after `steps` steps since the mark leaves. Later calls are no steps.
    pub fn stop(&mut self, steps: usize, left: Left) {
        self.is_stopped = true;
        self.rewind();
        let last_sync = self.last_sync(steps);
        for i in 0..steps {
            if let Some(Step::Wrote(block, place)) = self.steps.get(i).copied() {
                match left {
                    Left::Gates if i >= last_sync => self.set_place(block, GATE),
                    Left::Old if i >= last_sync => (),
                    _ => self.set_place(block, place),
                }
            }
        }
    }

    /// Restores the places of the mark.
    fn rewind(&mut self) {
        for (place, marked) in self.places.iter_mut().zip(&self.marked) {
            *place = *marked;
        }
    }

    /// The number of the last sync among the first `steps` steps. 0 if there is none.
    fn last_sync(&self, steps: usize) -> usize {
        let mut last_sync = 0;
        for (i, step) in self.steps.iter().enumerate().take(steps) {
            if matches!(step, Step::Synced) {
                last_sync = i;
            }
        }
        last_sync
    }

    fn set_place(&mut self, block: usize, place: usize) {
        if let Some(old) = self.places.get_mut(block) {
            *old = place;
        }
    }

    fn record_step(&mut self, step: Step) {
        if !self.is_stopped {
            let _ = self.steps.push(step);
        }
    }
}

impl Disk for Tape {
    ghost block_count = { λ _. 70000 };

    ghost seen = { λ _. None };

    ghost tells_stops = { λ _. false };

    ghost time = { λ _. record { moment = At 0; has_been = λ _. Unit {0}; left_since = λ _ _. ⊥ } };

    ghost faults = { λ _. 0 };

    ghost is_spent = { λ _. false };

    ghost now_has_been = { λ _. tt };

    ghost counts_now = { λ _ _ _ _ left. left };

    ghost seen_may_stay = { λ _ told. Prim.search rules };

    ghost only_told = { λ _ _ _ left. absurd left };

    ghost seen_count = { λ _ image is. Prim.search rules };

    ghost seen_bytes = { λ _ image is. Prim.search rules };

    fn blocks(&self) -> u64 {
        BLOCKS
    }

    fn read(&mut self, i: u64, out: &mut Block) -> Result<(), Failed> {
        let place = self.places.get(i as usize).copied().unwrap_or(NOWHERE);
        *out = self.written.get(place).copied().unwrap_or([0; BLOCK_SIZE]);
        Ok(())
    }

    fn write(&mut self, i: u64, from: &Block) -> Result<(), Failed> {
        let place = self.written.len();
        if self.written.push(*from).is_ok() {
            self.record_step(Step::Wrote(i as usize, place));
            self.set_place(i as usize, place);
        }
        Ok(())
    }

    fn sync(&mut self) -> Result<(), Failed> {
        self.record_step(Step::Synced);
        Ok(())
    }
}
