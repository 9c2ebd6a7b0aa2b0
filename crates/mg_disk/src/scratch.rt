//! A disk for one session alone.
ghost use Rattle.std.specs.Prelude.{◌≡◌, ◌<◌, false, vec_len, Some, IfOk, IsOk};
ghost use Rattle.std.proofs.Common.{rules};
ghost use Rattle.mg_disk.specs.Disk.{At, AreBytes};
ghost use Rattle.mg_disk.specs.Blocks.{zeros_of, told_count, told_bytes};

use crate::blocks::zeros;
use crate::{Block, Disk, Failed};
use std::alloc::{AllocError, Global};

/// Blocks in memory, for what need not outlive the session. None of its calls fails.
///
/// It tells what reads give, and nothing of stops, since a stop leaves nothing of it.
#[derive(Drop)]
pub struct ScratchDisk {
    content: Vec<Block>,
    ghost bytes: { AreBytes content.items },
}

impl ScratchDisk {
    /// A disk of `blocks` blocks of zeros.
    pub fn new(alloc: Global, blocks: u64) -> Result<ScratchDisk, AllocError>
        ensures zeros { IfOk result (λ disk. ⟦<ScratchDisk as Disk>⟧.seen disk ≡ Some (zeros_of blocks)) }
        ensures blocks { IfOk result (λ disk. ⟦<ScratchDisk as Disk>⟧.block_count disk ≡ blocks) }
    {
        Ok(ScratchDisk {
            content: zeros(alloc, blocks)?,
        })
    }
}

impl Disk for ScratchDisk {
    ghost use Rattle.mg_disk.specs.Calls.{IsRead, IsWrite, IsSync};

    ghost block_count = { λ d. vec_len d.content };

    ghost seen = { λ d. Some d.content.items };

    ghost tells_stops = { λ _. false };

    ghost time = { λ _. record { moment = At 0; has_been = λ _. Unit {0}; left_since = λ _ _. ⊥ } };

    ghost faults = { λ _. 0 };

    ghost is_spent = { λ _. false };

    ghost now_has_been = { λ _. tt };

    ghost counts_now = { λ _ _ _ _ left. left };

    ghost seen_may_stay = { λ _ told. Prim.search rules };

    ghost only_told = { λ _ _ _ left. absurd left };

    ghost seen_count = { λ d. told_count d.content };

    ghost seen_bytes = { λ d. told_bytes d.content.items d.bytes };

    fn blocks(&self) -> u64 {
        self.content.len() as u64
    }

    fn read(&mut self, i: u64, out: &mut Block) -> Result<(), Failed>
        requires in_range { i < ⟦<ScratchDisk as Disk>⟧.block_count self.old }
        ensures meets { IsRead ⟦<ScratchDisk as Disk>⟧ self.old self.new i out.new result }
        ensures never_fails { IsOk result }
    {
        *out = self.content[i as usize];
        Ok(())
    }

    fn write(&mut self, i: u64, from: &Block) -> Result<(), Failed>
        requires in_range { i < ⟦<ScratchDisk as Disk>⟧.block_count self.old }
        ensures meets { IsWrite ⟦<ScratchDisk as Disk>⟧ self.old self.new i from.now result }
        ensures never_fails { IsOk result }
    {
        self.content[i as usize] = *from;
        Ok(())
    }

    fn sync(&mut self) -> Result<(), Failed>
        ensures meets { IsSync ⟦<ScratchDisk as Disk>⟧ self.old self.new result }
        ensures never_fails { IsOk result }
    {
        Ok(())
    }
}
