// Lines are stepped in batches: a batch is committed, and then its replies are sent.
ghost use Rattle.std.specs.Prelude.{ℕ, ◌≡◌, ◌≤◌, [], ◌∷◌, IfErr, IsTrue, OnOk};
ghost use Rattle.mg_disk.specs.Stops.{NothingPending};
ghost use Rattle.mg_serve.specs.Machines.{Closes, FailsToClose, Halts, IsInside, Runs};
ghost use Rattle.mg_serve.specs.Serving.{Broken, IsServing, Keeps, Session};
ghost use Rattle.mg_serve.specs.Waiting.{no_replies};

use crate::buffers::Buffers;
use crate::ended::Ended;
use crate::machine::Machine;
use mg_disk::Disk;
use mg_faults::Failed;
use mg_io::{Sink, put_all};
use mg_model::{Line, Steps};
use std::sync::ledger::Ledger;

/// A batch closes above this number of staged blocks, so that one line more has room.
pub const STAGED_LIMIT: usize = 28;

/// The batch closes: its changes are committed, and then its replies are sent in one call of `put_all`.
pub(crate) fn close<M: Machine, D: Disk, K: Sink>(
    machine: &mut M,
    disk: &mut D,
    sink: &mut K,
    owed: &mut Buffers,
) -> Result<(), Ended>
    requires live { IsTrue (M.is_live machine.old) }
    requires stands { M.StandsOn D D.Disk machine.old disk.old }
    ensures closes { OnOk result ((n : ℕ) → Closes (Session M.Machine D.Disk)
        (record { machine = machine.old; disk = disk.old; owed = owed.old; taken = K.taken sink.old; steps = n })
        (record { machine = machine.new; disk = disk.new; owed = owed.new; taken = K.taken sink.new; steps = n })) }
    ensures halts { IfErr result (λ e. (n batch : ℕ) → owed.old.count ≤ batch → FailsToClose (Session M.Machine D.Disk) (Broken M.Machine D.Disk batch) e
        (record { machine = machine.old; disk = disk.old; owed = owed.old; taken = K.taken sink.old; steps = n })
        (record { machine = machine.new; disk = disk.new; owed = owed.new; taken = K.taken sink.new; steps = n })) }
    ensures keeps { (n : ℕ) → Keeps M.Machine D.Disk K.Sink machine.old disk.old sink.old n result machine.new disk.new sink.new n }
    ensures settled { OnOk result (NothingPending D.Disk disk.new) }
    ensures staged { OnOk result (M.staged_of machine.new ≡ 0) }
    ensures empty { OnOk result (owed.new ≡ no_replies) }
    ensures only { IfErr result IsInside }
{
    machine.keep_rules(disk);
    match machine.commit(disk) {
        Ok(()) => {}
        Err(Failed) => return Err(Ended::Disk),
    }
    let put = put_all(sink, owed.text());
    match put {
        Ok(()) => {
            owed.clear();
            Ok(())
        }
        Err(_) => Err(Ended::Sink),
    }
}

/// One line is stepped, and its reply waits. The batch closes if it is full, or if more than 28 blocks are staged.
pub(crate) fn take_line<M: Machine, D: Disk, K: Sink, L: Ledger>(
    machine: &mut M,
    disk: &mut D,
    sink: &mut K,
    owed: &mut Buffers,
    line: &Line,
    batch: u64,
    steps: &mut Steps<L>,
) -> Result<(), Ended>
    requires serving { IsServing M.Machine D.Disk batch machine.old disk.old owed.old }
    ensures steps { OnOk result (Runs (Session M.Machine D.Disk)
        (record { machine = machine.old; disk = disk.old; owed = owed.old; taken = K.taken sink.old; steps = steps.old }) (line.now ∷ [])
        (record { machine = machine.new; disk = disk.new; owed = owed.new; taken = K.taken sink.new; steps = steps.new })) }
    ensures halts { IfErr result (λ e. Halts (Session M.Machine D.Disk) (Broken M.Machine D.Disk batch) e
        (record { machine = machine.old; disk = disk.old; owed = owed.old; taken = K.taken sink.old; steps = steps.old }) (line.now ∷ [])
        (record { machine = machine.new; disk = disk.new; owed = owed.new; taken = K.taken sink.new; steps = steps.new })) }
    ensures keeps { Keeps M.Machine D.Disk K.Sink machine.old disk.old sink.old steps.old result machine.new disk.new sink.new steps.new }
    ensures serving { OnOk result (IsServing M.Machine D.Disk batch machine.new disk.new owed.new) }
    ensures only { IfErr result IsInside }
{
    let reply = match machine.step(disk, line, steps) {
        Ok(reply) => reply,
        Err(_) => return Err(Ended::Disk),
    };
    owed.add(&reply);
    if owed.count() < batch && machine.staged() <= STAGED_LIMIT {
        return Ok(());
    }
    close(machine, disk, sink, owed)
}
