// The kinds of devices.
ghost use Rattle.std.specs.Prelude.{◌≡◌, [], IfOk};

use crate::device::{Device, TapeFull};
use crate::tape::BoundedTape;
use std::alloc::{AllocError, Global};

/// A device of kind 1: a load is answered with the value that was stored last at that place, 0 if none was.
#[derive(Drop)]
pub struct Latch {
    tape: BoundedTape,
}

impl Latch {
    /// A latch with an empty tape, which has room for `room` stores. All memory that it will need is taken here.
    pub fn new(alloc: Global, room: usize) -> Result<Latch, AllocError>
        ensures { IfOk result (λ device. ⟦<Latch as Device>⟧.held device ≡ record { kind = 1; room = room; tape = [] }) }
    {
        let tape = BoundedTape::new(alloc, room)?;
        Ok(Latch { tape })
    }
}

impl Device for Latch {
    ghost held = { λ d. record { kind = 1; room = d.tape.0; tape = d.tape.1 } };

    fn kind(&self) -> u64 {
        1
    }

    fn length(&self) -> u64 {
        self.tape.len()
    }

    fn load(&self, off: u64) -> u64 {
        self.tape.last_at(off)
    }

    fn store(&mut self, off: u64, value: u64) -> Result<(), TapeFull> {
        self.tape.push(off, value)
    }
}

/// A device of kind 2: a load at whatever place is answered with how many stores it took, at whatever place.
#[derive(Drop)]
pub struct Console {
    tape: BoundedTape,
}

impl Console {
    /// A console with an empty tape, which has room for `room` stores. All memory that it will need is taken here.
    pub fn new(alloc: Global, room: usize) -> Result<Console, AllocError>
        ensures { IfOk result (λ device. ⟦<Console as Device>⟧.held device ≡ record { kind = 2; room = room; tape = [] }) }
    {
        let tape = BoundedTape::new(alloc, room)?;
        Ok(Console { tape })
    }
}

impl Device for Console {
    ghost held = { λ d. record { kind = 2; room = d.tape.0; tape = d.tape.1 } };

    fn kind(&self) -> u64 {
        2
    }

    fn length(&self) -> u64 {
        self.tape.len()
    }

    fn load(&self, _off: u64) -> u64 {
        self.tape.len()
    }

    fn store(&mut self, off: u64, value: u64) -> Result<(), TapeFull> {
        self.tape.push(off, value)
    }
}

/// A device of kind 3: a load is answered with the sum of the values that were stored at that place, modulo `2^64`.
#[derive(Drop)]
pub struct Counter {
    tape: BoundedTape,
}

impl Counter {
    /// A counter with an empty tape, which has room for `room` stores. All memory that it will need is taken here.
    pub fn new(alloc: Global, room: usize) -> Result<Counter, AllocError>
        ensures { IfOk result (λ device. ⟦<Counter as Device>⟧.held device ≡ record { kind = 3; room = room; tape = [] }) }
    {
        let tape = BoundedTape::new(alloc, room)?;
        Ok(Counter { tape })
    }
}

impl Device for Counter {
    ghost held = { λ d. record { kind = 3; room = d.tape.0; tape = d.tape.1 } };

    fn kind(&self) -> u64 {
        3
    }

    fn length(&self) -> u64 {
        self.tape.len()
    }

    fn load(&self, off: u64) -> u64 {
        self.tape.sum_at(off)
    }

    fn store(&mut self, off: u64, value: u64) -> Result<(), TapeFull> {
        self.tape.push(off, value)
    }
}
