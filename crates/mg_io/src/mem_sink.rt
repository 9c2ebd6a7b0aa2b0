// A sink whose bytes go to memory.
ghost use Rattle.std.specs.Prelude.{◌≡◌, ◌+◌, ◌-◌, ◌<◌, ◌≤◌, ◌↔◌, ◌⊎◌, ◌++◌, [], Some, false, length, min, take, IfOk, OnErr, IsErr, Contains};
ghost use Rattle.std.specs.Io.{WritesAtMost};
ghost use Rattle.std.specs.Io.KnownBytes.{WriteAppends};
ghost use Rattle.mg_faults.specs.Faults.{HasCause, is_last};
ghost use Rattle.mg_io.specs.Memory.{SinkState, next_number};

use super::plan::Plan;
use super::traits::Sink;
use mg_faults::{Failed, FaultCount};
use std::alloc::{AllocError, Global};
use std::marker::Model;

/// A sink that keeps in memory what it takes, up to a room that it holds from the start. It fails at the puts whose numbers
/// it was given.
///
/// The puts are numbered from 0, also those that fail. After the last value of a `u64` the number stays the same.
#[derive(Drop)]
pub struct MemSink {
    bytes: Vec<u8>,
    room: usize,
    plan: Plan,
    faults: FaultCount,
}

impl Model for MemSink {
    ghost use Rattle.std.specs.Prelude.{◌≤◌, vec_len, vec_capacity};
    ghost use Rattle.mg_io.specs.Memory.{SinkState};

    ghost Value = { SinkState };

    ghost view = { λ s. record {
      bytes = s.bytes.items;
      room = s.room;
      fails = s.plan.fails.items;
      calls = s.plan.calls;
      faults = s.faults;
    } };

    ghost invariant = { λ s. (vec_len s.bytes ≤ s.room) × (s.room ≤ vec_capacity s.bytes) };
}

impl MemSink {
    /// An empty sink that takes `room` bytes in all, and fails at the puts whose numbers are in `fails`. It takes all
    /// its memory here. No put was made, and none has failed.
    ///
    /// # Errors
    ///
    /// `AllocError` if `room` bytes of memory can't be had.
    pub fn new(alloc: Global, room: usize, fails: Vec<u64>) -> Result<MemSink, AllocError>
        ensures state { IfOk result (λ sink. sink ≡ record {
          bytes = [];
          room = room;
          fails = fails.items;
          calls = 0;
          faults = 0;
        }) }
        ensures taken { IfOk result (λ sink. ⟦<MemSink as Sink>⟧.taken sink ≡ Some []) }
        ensures count { IfOk result (λ sink. ⟦<MemSink as Sink>⟧.faults sink ≡ 0) }
        ensures fresh { IfOk result (λ sink. ⟦<MemSink as Sink>⟧.is_spent sink ≡ false) }
    {
        Ok(MemSink {
            bytes: Vec::with_capacity(alloc, room)?,
            room,
            plan: Plan::new(fails),
            faults: FaultCount::new(),
        })
    }

    /// The bytes taken so far, at most `room`.
    pub fn bytes(&self) -> &[u8]
        ensures { result.now ≡ self.now.bytes }
    {
        self.bytes.as_slice()
    }

    // Appends bytes, which have room.
    fn append(&mut self, from: &[u8])
        requires { length self.old.bytes + length from.now ≤ self.old.room }
        ensures { self.new ≡ record self.old { bytes = self.old.bytes ++ from.now } }
    {
        match self.bytes.extend_from_slice(from) {
            Ok(()) => (),
            Err(_) => unreachable!(),
        }
    }
}

impl Sink for MemSink {
    ghost taken = { λ s. Some s.bytes };

    ghost faults = { λ s. s.faults };

    ghost is_spent = { λ s. is_last s.faults };

    /// Takes as many bytes as there is room for.
    ///
    /// # Errors
    ///
    /// `Failed` exactly if this put's number is among those that were given, or if `from` is not empty and `room` bytes were
    /// taken before.
    fn put(&mut self, from: &[u8]) -> Result<usize, Failed>
        // The clauses of every sink.
        ensures bound { WritesAtMost result from.now }
        ensures takes_some { IfOk result (λ n. 0 < length from.now → 0 < n) }
        ensures bytes { WriteAppends (Some self.old.bytes) (Some self.new.bytes) result from.now }
        ensures cause { HasCause self.old.faults self.new.faults
            (is_last self.old.faults) (is_last self.new.faults) result }

        // Exactly which puts fail, what the others take, and what each leaves.
        ensures fails { IsErr result ↔ (Contains self.old.fails self.old.calls
            ⊎ ((0 < length from.now) × (self.old.room ≤ length self.old.bytes))) }
        ensures given { IfOk result
            (λ n. n ≡ min (length from.now) (self.old.room - length self.old.bytes)) }
        ensures ok { IfOk result (λ n. self.new ≡ record self.old {
          bytes = self.old.bytes ++ take n from.now;
          calls = next_number self.old.calls;
        }) }
        ensures err { OnErr result (self.new ≡ record self.old {
          calls = next_number self.old.calls;
          faults = next_number self.old.faults;
        }) }
    {
        let count = from.len().min(self.room - self.bytes.len());
        if self.plan.fails_now() || (count == 0 && !from.is_empty()) {
            self.faults.raise();
            return Err(Failed);
        }
        self.append(&from[..count]);
        Ok(count)
    }
}
