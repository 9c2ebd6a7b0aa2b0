// What a device is, and a boxed one.
ghost use Rattle.std.specs.Prelude.{◌≡◌, ◌<◌, MatchResult, length};
ghost use Rattle.mg_window.specs.Devices.{Held, reading, stored};

use thiserror::Error;

/// The tape has no room for another store.
#[derive(Debug, Drop, Error, PartialEq)]
#[error("the tape is full at {room} stores")]
pub struct TapeFull {
    /// How many stores it has room for, and holds.
    pub room: u64,
}

/// What loads and stores reach in place of an object's words. A device has a kind, and a tape of the stores that reached it,
/// with room for a number of them. What it answers follows from its kind and its tape alone (`reading`): a type of a kind of
/// its own, above 3, answers each load with 0.
pub trait Device: Drop {
    // The kind, the room and the tape, which is all that contracts say of a device.
    ghost held: { Self → Held };

    /// The number of its kind: 1 a latch, 2 a console, 3 a counter, or another.
    fn kind(&self) -> u64
        ensures { result ≡ (held self.now).kind };

    /// How many stores its tape holds.
    fn length(&self) -> u64
        ensures { result ≡ length (held self.now).tape };

    /// What a load is answered with at a place, in bytes from the base. The device stays as it is.
    fn load(&self, off: u64) -> u64
        ensures { result ≡ reading (held self.now).kind (held self.now).tape off };

    /// Stores a value at a place, in bytes from the base: the tape gets that entry at its end. [`TapeFull`] comes exactly
    /// if the tape holds as many as it has room for, and changes nothing. It takes no memory.
    fn store(&mut self, off: u64, value: u64) -> Result<(), TapeFull>
        ensures { MatchResult result
            (λ _. (length (held self.old).tape < (held self.old).room) × (held self.new ≡ stored (held self.old) off value))
            (λ full. (length (held self.old).tape ≡ (held self.old).room) × (full.room ≡ (held self.old).room)
            × (held self.new ≡ held self.old)) };
}

impl Device for Box<dyn Device> {
    ghost held = { λ b. (Device-box b).held b.value };

    fn kind(&self) -> u64 {
        (**self).kind()
    }

    fn length(&self) -> u64 {
        (**self).length()
    }

    fn load(&self, off: u64) -> u64 {
        (**self).load(off)
    }

    fn store(&mut self, off: u64, value: u64) -> Result<(), TapeFull> {
        (**self).store(off, value)
    }
}
