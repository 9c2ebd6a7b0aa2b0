// What a volume is made with.
ghost use Rattle.std.specs.Prelude.{◌≡◌, ◌≤◌, IsTrue, if◌then◌else◌};
ghost use Rattle.mg_model.specs.Settings.{within_limits};
ghost use Rattle.mg_model.specs.WellFormed.{IsSettings};

use crate::limits::{CREDIT_LIMIT, LEAST_FRAMES, MOST_FRAMES};
use crate::tariffs::Tariff;
use std::marker::Model;

/// What a volume is made with and keeps: frames (16 to 65,536), a seed, credits (at most `2^62`), and a tariff.
#[derive(Clone, Copy, PartialEq, Eq)]
pub struct Params {
    /// How many frames the volume has: the most pages that its objects may have together, from 16 to 65,536.
    pub frames: u64,
    /// The seed of its passwords.
    pub seed: [u8; 32],
    /// The credits that all balances sum to, at most `2^62`.
    pub credits: u64,
    /// What rent costs.
    pub tariff: Tariff,
}

impl Model for Params {
    ghost use Rattle.std.specs.Prelude.{IsTrue, ◌≡◌, length};
    ghost use Rattle.mg_model.specs.Settings.{Settings, within_limits};

    ghost Value = { Settings };

    ghost view = { λ p. record { frames = p.frames; seed = p.seed; credits = p.credits; tariff = p.tariff } };

    ghost invariant = { λ p. IsTrue (within_limits p.frames p.credits) };

    ghost inverse = { λ s. record { frames = s.frames; seed = s.seed; credits = s.credits; tariff = s.tariff } };
}

impl Params {
    /// The settings of a volume; None exactly if frames or credits are outside their limits.
    pub fn new(frames: u64, seed: [u8; 32], credits: u64, tariff: Tariff) -> Option<Params>
        ensures { result ≡ (if within_limits frames credits then Some (record { frames = frames; seed = seed; credits = credits; tariff = tariff }) else None) }
    {
        if frames >= LEAST_FRAMES && frames <= MOST_FRAMES && credits <= CREDIT_LIMIT {
            Some(Params {
                frames,
                seed,
                credits,
                tariff,
            })
        } else {
            None
        }
    }

    /// States that the settings keep their rules, for proofs. It does nothing when it runs.
    pub fn keep_rules(&self)
        ensures rules { IsSettings self.now }
        ensures at_least_16_frames { 16 ≤ self.now.frames }
        ensures at_most_65536_frames { self.now.frames ≤ 65536 }
        ensures at_most_2_62_credits { self.now.credits ≤ 4611686018427387904 }
    {
        let _seed = self.seed();
        let _steps = self.tariff.steps();
    }

    /// How many frames the volume has: the most pages that its objects may have together.
    pub fn frames(&self) -> u64
        ensures value { result ≡ self.now.frames }
        ensures at_least_16 { 16 ≤ result }
        ensures at_most_65536 { result ≤ 65536 }
    {
        self.frames
    }

    /// The seed of its passwords.
    pub fn seed(&self) -> [u8; 32]
        ensures { result ≡ self.now.seed }
    {
        self.seed
    }

    /// The credits that all balances sum to.
    pub fn credits(&self) -> u64
        ensures value { result ≡ self.now.credits }
        ensures at_most_2_62 { result ≤ 4611686018427387904 }
    {
        self.credits
    }

    /// What rent costs.
    pub fn tariff(&self) -> Tariff
        ensures { result ≡ self.now.tariff }
    {
        self.tariff
    }
}
