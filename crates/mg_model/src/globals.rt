// What the machine counts.
ghost use Rattle.std.specs.Prelude.{◌≡◌, ◌≤◌, ◌-◌, ◌^◌};
ghost use Rattle.mg_model.specs.Ranges.{IsCounters};

use std::marker::Model;

/// What the machine counts besides its objects, accounts and threads.
#[derive(Clone, Copy, PartialEq, Eq)]
pub struct Globals {
    /// How many passwords were drawn, from 2 to `2^32`.
    pub draws: u64,
    /// The period: how often rent was collected, at most `2^24 - 1`.
    pub period: u64,
    /// The number of the thread that `next` ran last, at most 256; 0 before the first.
    pub cursor: u64,
    /// The last birth number that a thread was given, from 1 to `2^32 - 1`.
    pub births: u64,
}

impl Model for Globals {
    ghost use Rattle.mg_model.specs.State.{Counters};
    ghost use Rattle.mg_model.specs.Ranges.{IsCounters};

    ghost Value = { Counters };

    ghost view = { λ globals. record { draws = globals.draws; period = globals.period; cursor = globals.cursor; births = globals.births } };

    ghost invariant = { λ globals. IsCounters (record { draws = globals.draws; period = globals.period; cursor = globals.cursor; births = globals.births }) };

    ghost inverse = { λ counters. record { draws = counters.draws; period = counters.period; cursor = counters.cursor; births = counters.births } };
}

impl Globals {
    /// These numbers: draws from 2 to `2^32`, a period to `2^24 - 1`, a cursor to 256, and births from 1 to `2^32 - 1`.
    pub fn new(draws: u64, period: u64, cursor: u64, births: u64) -> Globals
        requires { IsCounters (record { draws = draws; period = period; cursor = cursor; births = births }) }
        ensures { result ≡ record { draws = draws; period = period; cursor = cursor; births = births } }
    {
        Globals {
            draws,
            period,
            cursor,
            births,
        }
    }

    /// How many passwords were drawn.
    pub fn draws(&self) -> u64
        ensures value { result ≡ self.now.draws }
        ensures kept { IsCounters self.now }
    {
        self.draws
    }

    /// The period: how often rent was collected.
    pub fn period(&self) -> u64
        ensures { result ≡ self.now.period }
    {
        self.period
    }

    /// The number of the thread that `next` ran last; 0 before the first.
    pub fn cursor(&self) -> u64
        ensures { result ≡ self.now.cursor }
    {
        self.cursor
    }

    /// The last birth number that a thread was given.
    pub fn births(&self) -> u64
        ensures { result ≡ self.now.births }
    {
        self.births
    }

    /// Another number of passwords drawn, from 2 to `2^32`.
    pub fn set_draws(&mut self, draws: u64)
        requires at_least_2_draws { 2 ≤ draws }
        requires draws_at_most_2_32 { draws ≤ 2 ^ 32 }
        ensures { self.new ≡ record self.old { draws = draws } }
    {
        self.draws = draws;
    }

    /// Another period, at most `2^24 - 1`.
    pub fn set_period(&mut self, period: u64)
        requires { period ≤ 2 ^ 24 - 1 }
        ensures { self.new ≡ record self.old { period = period } }
    {
        self.period = period;
    }

    /// Another cursor, at most 256.
    pub fn set_cursor(&mut self, cursor: u64)
        requires { cursor ≤ 256 }
        ensures { self.new ≡ record self.old { cursor = cursor } }
    {
        self.cursor = cursor;
    }

    /// Another last birth number, from 1 to `2^32 - 1`.
    pub fn set_births(&mut self, births: u64)
        requires births_at_least_1 { 1 ≤ births }
        requires births_below_2_32 { births ≤ 2 ^ 32 - 1 }
        ensures { self.new ≡ record self.old { births = births } }
    {
        self.births = births;
    }
}
