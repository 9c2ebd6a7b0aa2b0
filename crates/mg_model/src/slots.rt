// A slot of a frame, and a password row of an object.
ghost use Rattle.std.specs.Prelude.{◌≡◌, ◌≤◌};
ghost use Rattle.mg_model.specs.Access.{gives};
ghost use Rattle.mg_model.specs.Limits.{never};
ghost use Rattle.mg_model.specs.PasswordRows.{IsPassword};

use crate::limits;
use crate::rights::{Right, Rights};
use std::marker::Model;

/// A slot of a protection domain: a capability list and the password that opens it. A thread's frame has up to 8.
#[derive(Clone, Copy, PartialEq, Eq)]
pub struct Slot {
    /// The base address of the object whose page 0 is the capability list.
    pub base: u64,
    /// The password that must give R for the slot to count.
    pub password: u64,
}

/// A password row of an object, of which it has up to 32. Its until is from 1 to `2^24`.
#[derive(Clone, Copy, PartialEq, Eq)]
pub struct Pw {
    /// The password that the row is for.
    pub password: u64,
    /// What the password gives while the row is current.
    pub rights: Rights,
    /// The first period at which the row is current no more, from 1 to `2^24`. A row with `2^24` never ends.
    pub until: u64,
}

impl Model for Pw {
    ghost use Rattle.mg_model.specs.PasswordRows.{IsPassword, PasswordRow};

    ghost Value = { PasswordRow };

    ghost view = { λ row. record { password = row.password; rights = row.rights; until = row.until } };

    ghost invariant = { λ row. IsPassword (record { password = row.password; rights = row.rights; until = row.until }) };

    ghost inverse = { λ row. record { password = row.password; rights = row.rights; until = row.until } };
}

impl Pw {
    /// The until of a row that never ends: it is above every period.
    pub const NEVER: u64 = limits::NEVER;

    /// A row for this password, with these rights and this until, from 1 to `2^24`.
    pub fn new(password: u64, rights: Rights, until: u64) -> Pw
        requires begins { 1 ≤ until }
        requires ends { until ≤ never }
        ensures { result ≡ record { password = password; rights = rights; until = until } }
    {
        Pw {
            password,
            rights,
            until,
        }
    }

    /// The password that it is for.
    pub fn password(&self) -> u64
        ensures { result ≡ self.now.password }
    {
        self.password
    }

    /// What the password gives while the row is current.
    pub fn rights(&self) -> Rights
        ensures { result ≡ self.now.rights }
    {
        self.rights
    }

    /// The first period at which the row is no longer current, from 1 to `2^24`. A row with `2^24` never ends.
    pub fn until(&self) -> u64
        ensures { result ≡ self.now.until }
    {
        self.until
    }

    /// Whether the row is for this password, has this right, and is current at this period.
    pub fn gives(&self, password: u64, right: Right, period: u64) -> bool
        ensures { result ≡ gives period self.now password right }
    {
        self.password == password && self.rights.has(right) && period < self.until
    }
}
