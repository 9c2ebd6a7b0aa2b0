// Passwords are drawn one after another.
ghost use Rattle.std.specs.Prelude.{◌≡◌, ◌≤◌, ◌<◌, ◌+◌, ◌^◌};
ghost use Rattle.mg_model.specs.Draw.{password_drawn};

use mg_model::draw;
use std::marker::Model;

/// The passwords of a seed, from those on that were drawn.
#[derive(Drop)]
pub struct Draws {
    seed: [u8; 32],
    count: u64,
}

impl Model for Draws {
    ghost use Rattle.std.specs.Prelude.{◌^◌, ◌≤◌, List, ℕ};

    ghost Value = { List ℕ × ℕ };

    ghost view = { λ draws. (draws.seed, draws.count) };

    ghost invariant = { λ draws. draws.count ≤ 2 ^ 32 };
}

impl Draws {
    /// The passwords of a seed after the first `count`, at most `2^32`.
    pub fn new(seed: [u8; 32], count: u64) -> Draws
        requires { count ≤ 2 ^ 32 }
        ensures { result ≡ (seed, count) }
    {
        Draws { seed, count }
    }

    /// The next password. Fewer than `2^32` are drawn.
    pub fn next(&mut self) -> u64
        requires { self.old.1 < 2 ^ 32 }
        ensures drawn { result ≡ password_drawn self.old.0 self.old.1 }
        ensures count { self.new ≡ (self.old.0, self.old.1 + 1) }
    {
        let password = draw(&self.seed, self.count);
        self.count += 1;
        password
    }

    /// How many passwords are drawn.
    pub fn count(&self) -> u64
        ensures count { result ≡ self.now.1 }
        ensures at_most_2_32 { result ≤ 2 ^ 32 }
    {
        self.count
    }
}
