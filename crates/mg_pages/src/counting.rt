// The counts of the words that are read and written.
ghost use Rattle.std.specs.Prelude.{◌≡◌, ◌+◌, ◌%◌, ◌^◌};

use mg_model::Steps;
use std::sync::ledger::Ledger;

/// One word more, read or written.
pub(crate) fn count_word<L: Ledger>(count: &mut u64, steps: &mut Steps<L>)
    ensures words { count.new ≡ (count.old + 1) % 2 ^ 64 }
    ensures ticks { steps.new ≡ steps.old + 1 }
{
    *count = count.wrapping_add(1);
    steps.tick();
}
