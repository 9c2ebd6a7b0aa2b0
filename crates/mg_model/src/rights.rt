// The six rights.
ghost use Rattle.std.specs.Prelude.{◌≡◌, ◌≤◌, ◌<◌, ◌↔◌, IsSome, IfSome, IsTrue, ℕ};
ghost use Rattle.mg_model.specs.Rights.{has_right, IsRights};

use crate::limits::ALL_RIGHTS;
use std::marker::Model;

/// A right that a password may give.
#[derive(Clone, Copy, PartialEq, Eq)]
pub enum Right {
    /// Read.
    R,
    /// Write.
    W,
    /// Execute.
    X,
    /// Delete.
    D,
    /// Enter by a protection domain extension.
    P,
    /// Manage passwords, entries, the extension and the account.
    O,
}

/// A set of at least one right, as six bits: R 1, W 2, X 4, D 8, P 16, O 32.
#[derive(Clone, Copy, PartialEq, Eq)]
pub struct Rights {
    bits: u8,
}

impl Model for Rights {
    ghost use Rattle.std.specs.Prelude.{ℕ};
    ghost use Rattle.mg_model.specs.Rights.{IsRights};

    ghost Value = { ℕ };

    ghost view = { λ r. r.bits };

    ghost invariant = { λ r. IsRights r.bits };

    ghost inverse = { λ n. record { bits = n } };
}

impl Rights {
    /// All six.
    pub fn all() -> Self
        ensures { result ≡ 63 }
    {
        Rights { bits: ALL_RIGHTS }
    }

    /// The set with these bits, if they are from 1 to 63.
    pub fn new(bits: u8) -> Option<Rights>
        ensures given { IfSome result (λ rights. rights ≡ bits) }
        ensures is_some { IsSome result ↔ IsRights bits }
    {
        if bits >= 1 && bits <= ALL_RIGHTS {
            Some(Rights { bits })
        } else {
            None
        }
    }

    /// The six bits.
    pub fn bits(self) -> u8
        ensures value { result ≡ self }
        ensures bound { IsRights self }
    {
        self.bits
    }

    /// Whether the set has this right.
    pub fn has(self, right: Right) -> bool
        ensures { result ≡ has_right self right }
    {
        match right {
            Right::R => self.bits % 2 == 1,
            Right::W => self.bits / 2 % 2 == 1,
            Right::X => self.bits / 4 % 2 == 1,
            Right::D => self.bits / 8 % 2 == 1,
            Right::P => self.bits / 16 % 2 == 1,
            Right::O => self.bits / 32 % 2 == 1,
        }
    }
}
