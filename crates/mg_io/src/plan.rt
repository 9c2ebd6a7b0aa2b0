// Which calls of an object in memory are to fail.
ghost use Rattle.std.specs.Prelude.{◌≡◌, ◌↔◌, IsTrue, Contains};
ghost use Rattle.mg_io.specs.Memory.{next_number};

/// The numbers of the calls that are to fail, and how many calls were made.
#[derive(Drop)]
pub(crate) struct Plan {
    pub(crate) fails: Vec<u64>,
    pub(crate) calls: u64,
}

impl Plan {
    /// A plan before the first call.
    pub(crate) fn new(fails: Vec<u64>) -> Plan
        ensures fails { result.fails ≡ fails }
        ensures calls { result.calls ≡ 0 }
    {
        Plan { fails, calls: 0 }
    }

    /// Counts one call more, and returns whether it is to fail.
    pub(crate) fn fails_now(&mut self) -> bool
        ensures due { IsTrue result ↔ Contains self.old.fails.items self.old.calls }
        ensures calls { self.new.calls ≡ next_number self.old.calls }
        ensures same { self.new.fails ≡ self.old.fails }
    {
        let is_due = self.fails.contains(&self.calls);
        self.calls = self.calls.saturating_add(1);
        is_due
    }
}
