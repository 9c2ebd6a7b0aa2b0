// The machine that the lines are made for.
ghost use Rattle.std.specs.Prelude.{◌≡◌};
ghost use Rattle.mg_gen.specs.Generated.{generated_settings};

use mg_model::{Params, Tariff};

/// The frames of that machine.
const FRAMES: u64 = 4096;

/// Its credits.
const CREDITS: u64 = 1 << 40;

/// The settings of the fresh machine that a run is made for: 4,096 frames, a seed of 32 zeros, `2^40` credits and the usual
/// tariff.
pub fn settings() -> Params
    ensures { result ≡ generated_settings }
{
    match Params::new(FRAMES, [0; 32], CREDITS, Tariff::usual(FRAMES)) {
        Some(params) => params,
        None => unreachable!(),
    }
}
