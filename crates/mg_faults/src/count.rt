// The count of faults as an object that fails for real keeps it.
ghost use Rattle.std.specs.Prelude.{◌≡◌, ◌+◌, ◌^◌, ◌<◌, ℕ, min, IsTrue};
ghost use Rattle.mg_faults.specs.Faults.{Rose, CountGoesOn, is_last};

use std::marker::Model;

/// A count of faults in 64 bits. It never falls, and stays at its last value once it has reached it.
#[derive(Drop)]
pub struct FaultCount {
    count: u64,
}

impl Model for FaultCount {
    ghost use Rattle.std.specs.Prelude.{ℕ};

    ghost Value = { ℕ };

    ghost view = { λ c. c.count };
}

impl FaultCount {
    /// The count of a new object: 0.
    pub fn new() -> Self
        ensures { result ≡ 0 }
    {
        FaultCount { count: 0 }
    }

    /// The number of faults so far.
    pub fn get(&self) -> u64
        ensures value { result ≡ self.now }
        ensures bound { self.now < 2 ^ 64 }
    {
        self.count
    }

    /// One fault more.
    pub fn raise(&mut self)
        ensures counted { self.new ≡ min (self.old + 1) u64.MAX }
        ensures rose { Rose self.old self.new (is_last self.new) }
        ensures goes_on { CountGoesOn self.old self.new (is_last self.old) (is_last self.new) }
    {
        self.count = self.count.saturating_add(1);
    }
}
