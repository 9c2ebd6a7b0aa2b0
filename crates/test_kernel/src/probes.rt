// Probes of a fresh volume.
ghost use Rattle.std.specs.Prelude.{◌≡◌};
ghost use Rattle.mg_kernel.specs.Meaning.{StandsOn};

use crate::kernels::ROOT;
use mg_disk::Disk;
use mg_kernel::Kernel;
use mg_model::{Right, Steps};
use std::sync::ledger::Ledger;

/// A thread, an address and a right.
type Probe = (u64, u64, Right);

// Probes of a fresh volume, and the base that each returns. Only thread 1 lives. It has every right to the root.
const PROBES: [(Probe, Option<u64>); 14] = [
    ((1, ROOT, Right::R), Some(ROOT)),
    ((1, ROOT, Right::W), Some(ROOT)),
    ((1, ROOT + 1, Right::X), Some(ROOT)),
    ((1, ROOT + 8, Right::D), Some(ROOT)),
    ((1, ROOT + 2048, Right::P), Some(ROOT)),
    ((1, ROOT + 4095, Right::O), Some(ROOT)),
    ((1, ROOT + 4096, Right::R), None),
    ((1, ROOT - 1, Right::R), None),
    ((1, 0, Right::R), None),
    ((1, u64::MAX, Right::R), None),
    ((0, ROOT, Right::R), None),
    ((2, ROOT, Right::R), None),
    ((256, ROOT, Right::W), None),
    ((u64::MAX, ROOT, Right::R), None),
];

/// What a probe returns. None if it fails or if too much is staged.
fn probed<D: Disk, L: Ledger>(
    kernel: &mut Kernel,
    disk: &mut D,
    probe: Probe,
    steps: &mut Steps<L>,
) -> Option<Option<u64>>
    requires { StandsOn D.Disk kernel.old disk.old }
    ensures { StandsOn D.Disk kernel.new disk.new }
{
    let (thread, address, right) = probe;
    if !kernel.live() || kernel.staged() > 30 {
        return None;
    }
    kernel.probe(disk, thread, address, right, steps).ok()
}

/// The first probe that returns something else: its base if thread 1 still has the root, and otherwise nothing.
pub(crate) fn wrong_probe<D: Disk, L: Ledger>(
    kernel: &mut Kernel,
    disk: &mut D,
    are_allowed: bool,
    steps: &mut Steps<L>,
) -> Option<Probe>
    requires { StandsOn D.Disk kernel.old disk.old }
    ensures { StandsOn D.Disk kernel.new disk.new }
{
    for (probe, base) in PROBES {
        let wanted = if are_allowed { base } else { None };
        if probed(kernel, disk, probe, steps) != Some(wanted) {
            return Some(probe);
        }
    }
    None
}
