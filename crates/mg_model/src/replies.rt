// What the machine answers.
ghost use Rattle.std.specs.Prelude.{◌≡◌, ◌<◌};
ghost use Rattle.mg_model.specs.Abbreviations.{refusal_number};

use crate::threads::After;

/// Why a call is refused. A refused call changes nothing.
#[derive(Clone, Copy, Debug, Drop, PartialEq, Eq)]
pub enum Refusal {
    Syntax,
    NoThread,
    Align,
    Denied,
    Size,
    Account,
    Debt,
    Limit,
    Full,
    NoPassword,
    Range,
    SlotFull,
    NoSlot,
    NoEntry,
    Depth,
    NoFrame,
    NotYours,
    NotReady,
    Idle,
    Credit,
    Calendar,
    Past,
}

impl Refusal {
    /// Its number as a script sees it, from 1 on.
    pub fn number(self) -> u64
        ensures value { result ≡ refusal_number self }
        ensures below_23 { result < 23 }
    {
        match self {
            Refusal::Syntax => 1,
            Refusal::NoThread => 2,
            Refusal::Align => 3,
            Refusal::Denied => 4,
            Refusal::Size => 5,
            Refusal::Account => 6,
            Refusal::Debt => 7,
            Refusal::Limit => 8,
            Refusal::Full => 9,
            Refusal::NoPassword => 10,
            Refusal::Range => 11,
            Refusal::SlotFull => 12,
            Refusal::NoSlot => 13,
            Refusal::NoEntry => 14,
            Refusal::Depth => 15,
            Refusal::NoFrame => 16,
            Refusal::NotYours => 17,
            Refusal::NotReady => 18,
            Refusal::Idle => 19,
            Refusal::Credit => 20,
            Refusal::Calendar => 21,
            Refusal::Past => 22,
        }
    }
}

/// The answer to a line.
#[derive(Clone, Copy, PartialEq, Eq)]
#[rattlefmt::skip]
pub enum Reply {
    No(Refusal),
    /// Ok, with no value.
    Done,
    /// A word or an address.
    Value(u64),
    /// Of `apdadd` the place of the new slot, from 0 on; of `pdx` and `ret` how many frames the thread then has; of `thread` the
    /// number of the new thread.
    Count(u64),
    /// A new object: its base address and its password.
    Made(u64, u64),
    /// A new account: its number and its password.
    Opened(u64, u64),
    /// An object: its base address, its pages, the account that pays for it, how many password rows and entries it has,
    /// and 1 with an extension, else 0.
    About { base: u64, pages: u64, account: u64, passwords: u64, entries: u64, ext: u64 },
    /// How many slots the present frame has, and their bases in order; 0 past the count, which is at most 8.
    Slots { count: u64, bases: [u64; 8] },
    /// What the thread is after its turn.
    Turned(After),
    /// Which thread had the turn, and what it is after it.
    Ran(u64, After),
    /// An account: its balance, what it owes, and the pages that it pays for.
    Funds(u64, u64, u64),
    /// A collection of rent: the new period, the rate, and the sum of all that was paid.
    Collected(u64, u64, u64),
}
