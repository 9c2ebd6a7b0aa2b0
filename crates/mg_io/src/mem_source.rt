// A source whose bytes are in memory.
ghost use Rattle.std.specs.Prelude.{◌≡◌, ◌<◌, ◌↔◌, ◌++◌, [], Some, false, length, min, take, drop, IfOk, OnErr, IsErr, Contains};
ghost use Rattle.std.specs.Io.{ReadsAtMost};
ghost use Rattle.std.specs.Io.KnownBytes.{ReadConsumes};
ghost use Rattle.mg_faults.specs.Faults.{HasCause, is_last};
ghost use Rattle.mg_io.specs.Memory.{SourceState, next_number};

use super::plan::Plan;
use super::traits::Source;
use mg_faults::{Failed, FaultCount};
use std::marker::Model;

/// A source that gives bytes of memory, a few at a time, and fails at the takes whose numbers it was given.
///
/// The takes are numbered from 0, also those that fail. After the last value of a `u64` the number stays the same.
#[derive(Drop)]
pub struct MemSource {
    bytes: Vec<u8>,
    at: usize,
    piece: usize,
    plan: Plan,
    faults: FaultCount,
}

impl Model for MemSource {
    ghost use Rattle.std.specs.Prelude.{◌<◌, ◌≤◌, drop, vec_len};
    ghost use Rattle.mg_io.specs.Memory.{SourceState};

    ghost Value = { SourceState };

    ghost view = { λ s. record {
      bytes = drop s.at s.bytes.items;
      piece = s.piece;
      fails = s.plan.fails.items;
      calls = s.plan.calls;
      faults = s.faults;
    } };

    ghost invariant = { λ s. (s.at ≤ vec_len s.bytes) × (0 < s.piece) };
}

impl MemSource {
    /// A source that has these bytes left, gives at most `piece` of them a take, and fails exactly at the takes whose
    /// numbers are in `fails`. No take was made, and none has failed.
    pub fn new(bytes: Vec<u8>, piece: usize, fails: Vec<u64>) -> MemSource
        requires { 0 < piece }
        ensures state { result ≡ record {
          bytes = bytes.items;
          piece = piece;
          fails = fails.items;
          calls = 0;
          faults = 0;
        } }
        ensures left { ⟦<MemSource as Source>⟧.left result ≡ Some bytes.items }
        ensures count { ⟦<MemSource as Source>⟧.faults result ≡ 0 }
        ensures fresh { ⟦<MemSource as Source>⟧.is_spent result ≡ false }
    {
        MemSource {
            bytes,
            at: 0,
            piece,
            plan: Plan::new(fails),
            faults: FaultCount::new(),
        }
    }

    // The bytes left.
    fn rest(&self) -> &[u8]
        ensures { result.now ≡ self.now.bytes }
    {
        &self.bytes[self.at..]
    }
}

impl Source for MemSource {
    ghost left = { λ s. Some s.bytes };

    ghost faults = { λ s. s.faults };

    ghost is_spent = { λ s. is_last s.faults };

    /// Moves as many bytes as there are, up to a piece and the room of `into`, whose other bytes stay.
    ///
    /// # Errors
    ///
    /// `Failed` exactly if this take's number is among those that were given. `into` is then unchanged.
    fn take(&mut self, into: &mut [u8]) -> Result<usize, Failed>
        requires { 0 < length into.old }

        // The clauses of every source.
        ensures bound { ReadsAtMost result into.new }
        ensures bytes { ReadConsumes (Some self.old.bytes) (Some self.new.bytes) result into.new }
        ensures end { IfOk result (λ n. (n ≡ 0) ↔ (self.old.bytes ≡ [])) }
        ensures cause { HasCause self.old.faults self.new.faults
            (is_last self.old.faults) (is_last self.new.faults) result }

        // Exactly which takes fail, what the others give, and what each leaves.
        ensures fails { IsErr result ↔ Contains self.old.fails self.old.calls }
        ensures given { IfOk result
            (λ n. n ≡ min self.old.piece (min (length self.old.bytes) (length into.old))) }
        ensures moved { IfOk result (λ n. into.new ≡ take n self.old.bytes ++ drop n into.old) }
        ensures still { OnErr result (into.new ≡ into.old) }
        ensures ok { IfOk result (λ n. self.new ≡ record self.old {
          bytes = drop n self.old.bytes;
          calls = next_number self.old.calls;
        }) }
        ensures err { OnErr result (self.new ≡ record self.old {
          calls = next_number self.old.calls;
          faults = next_number self.old.faults;
        }) }
    {
        if self.plan.fails_now() {
            self.faults.raise();
            return Err(Failed);
        }
        let rest = self.rest();
        let count = self.piece.min(rest.len().min(into.len()));
        into[..count].copy_from_slice(&rest[..count]);
        self.at += count;
        Ok(count)
    }
}
