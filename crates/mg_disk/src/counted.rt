// How the disks here keep their count of faults.
ghost use Rattle.std.specs.Prelude.{◌≡◌, OnErr, OnOk};
ghost use Rattle.mg_faults.specs.Faults.{CountGoesOn, Rose, is_last};

use mg_faults::{Failed, FaultCount};

/// Returns the outcome unchanged, and raises the count if it is a fault.
pub(crate) fn counted(outcome: Result<(), Failed>, count: &mut FaultCount) -> Result<(), Failed>
    ensures same { result ≡ outcome }
    ensures quiet { OnOk result (count.new ≡ count.old) }
    ensures goes_on { CountGoesOn count.old count.new (is_last count.old) (is_last count.new) }
    ensures rose { OnErr result (Rose count.old count.new (is_last count.new)) }
{
    if outcome.is_err() {
        count.raise();
    }
    outcome
}
