// What a source and a sink mean.
ghost use Rattle.std.specs.Prelude.{◌≡◌, ◌↔◌, ℕ, ◌<◌, List, [], length, Option, Bool, IfOk, IfSome};
ghost use Rattle.std.specs.Io.{ReadsAtMost, WritesAtMost};
ghost use Rattle.std.specs.Io.KnownBytes.{ReadConsumes, WriteAppends};
ghost use Rattle.mg_faults.specs.Faults.{HasCause};

use mg_faults::Failed;

/// Bytes that come from outside.
pub trait Source {
    /// The bytes left, if the object tells them.
    ghost left: { Self → Option (List ℕ) };

    /// How many takes have failed. It never falls.
    ghost faults: { Self → ℕ };

    /// Whether that count is at its last value. Once it is, it stays there.
    ghost is_spent: { Self → Bool };

    /// Moves the first bytes that are left to the front of `into`, and returns how many: at least one, unless none is left.
    /// 0 is the end of input.
    ///
    /// # Errors
    ///
    /// `Failed` if the outside fails. The take then moved no byte, and the count of faults rose or is at its last value;
    /// `into` may hold anything.
    fn take(&mut self, into: &mut [u8]) -> Result<usize, Failed>
        requires { 0 < length into.old }
        ensures bound { ReadsAtMost result into.new }
        ensures bytes { ReadConsumes (left self.old) (left self.new) result into.new }
        ensures end { IfOk result (λ n. IfSome (left self.old) (λ bytes. (n ≡ 0) ↔ (bytes ≡ []))) }
        ensures cause { HasCause (faults self.old) (faults self.new)
            (is_spent self.old) (is_spent self.new) result };
}

/// Bytes that go outside.
pub trait Sink {
    /// The bytes taken so far, if the object tells them.
    ghost taken: { Self → Option (List ℕ) };

    /// How many puts have failed. It never falls.
    ghost faults: { Self → ℕ };

    /// Whether that count is at its last value. Once it is, it stays there.
    ghost is_spent: { Self → Bool };

    /// Takes some first bytes of `from`, and returns how many: at least one, unless `from` is empty.
    ///
    /// # Errors
    ///
    /// `Failed` if the outside fails. The put then took no byte, and the count of faults rose or is at its last value.
    fn put(&mut self, from: &[u8]) -> Result<usize, Failed>
        ensures bound { WritesAtMost result from.now }
        ensures takes_some { IfOk result (λ n. 0 < length from.now → 0 < n) }
        ensures bytes { WriteAppends (taken self.old) (taken self.new) result from.now }
        ensures cause { HasCause (faults self.old) (faults self.new)
            (is_spent self.old) (is_spent self.new) result };
}
