// The tariff of the rent.
ghost use Rattle.std.specs.Prelude.{◌≡◌, ◌≤◌, IsTrue, if◌then◌else◌};
ghost use Rattle.mg_model.specs.Tariff.{is_tariff, usual_tariff};

use crate::limits::STEP_LIMIT;
use std::marker::Model;

/// Four steps, each the number of pages in use from which it holds and its rate: credits for each page of an account
/// and period. The first step holds from 0, each next one from a greater number; numbers and rates are at most `2^20`.
#[derive(Clone, Copy, PartialEq, Eq)]
pub struct Tariff {
    steps: [(u64, u64); 4],
}

impl Model for Tariff {
    ghost use Rattle.std.specs.Prelude.{ℕ, List, IsTrue};
    ghost use Rattle.mg_model.specs.Tariff.{is_tariff};

    ghost Value = { List (ℕ × ℕ) };

    ghost view = { λ t. t.steps };

    ghost invariant = { λ t. IsTrue (is_tariff t.steps) };

    ghost inverse = { λ xs. record { steps = xs } };
}

impl Tariff {
    /// The tariff with these steps; None exactly if they break its rule.
    #[tactic(auto, using(crate::specs::StepwiseLemmas::tariff_places))]
    pub fn new(steps: [(u64, u64); 4]) -> Option<Tariff>
        ensures { result ≡ (if is_tariff steps then Some steps else None) }
    {
        let rising = steps[0].0 == 0
            && steps[0].0 < steps[1].0
            && steps[1].0 < steps[2].0
            && steps[2].0 < steps[3].0
            && steps[3].0 <= STEP_LIMIT;
        let rates = steps[0].1 <= STEP_LIMIT
            && steps[1].1 <= STEP_LIMIT
            && steps[2].1 <= STEP_LIMIT
            && steps[3].1 <= STEP_LIMIT;
        if rising && rates {
            Some(Tariff { steps })
        } else {
            None
        }
    }

    /// The tariff of a volume with this number of frames when none is given.
    pub fn usual(frames: u64) -> Tariff
        requires at_least_16_frames { 16 ≤ frames }
        requires at_most_65536_frames { frames ≤ 65536 }
        ensures { result ≡ usual_tariff frames }
    {
        Tariff {
            steps: [
                (0, 1),
                (frames / 4, 2),
                (frames / 2, 4),
                (3 * frames / 4, 8),
            ],
        }
    }

    /// The four steps.
    pub fn steps(self) -> [(u64, u64); 4]
        ensures value { result ≡ self }
        ensures rule { IsTrue (is_tariff self) }
    {
        self.steps
    }
}
