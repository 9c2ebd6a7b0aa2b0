// The loop over the pieces of the input, for any machine.
ghost use Rattle.std.specs.Prelude.{◌≡◌, ◌+◌, Err, IfErr, OnOk};
ghost use Rattle.mg_disk.specs.Stops.{NothingPending};
ghost use Rattle.mg_faults.specs.Faults.{CountGoesOn, Rose};
ghost use Rattle.mg_serve.specs.Serving.{Broken, Keeps, MayServe, Session};
ghost use Rattle.mg_serve.specs.Readings.{Finishes, Stops};

use crate::buffers::Buffers;
use crate::ended::Ended;
use crate::incoming::{finish, take_bytes};
use crate::machine::Machine;
use crate::partial::PartialLine;
use mg_disk::Disk;
use mg_io::{PIECE, Sink, Source};
use mg_model::Steps;
use std::sync::ledger::Ledger;

/// Reads lines to the end of the source, and has a machine step them and send their replies, up to a limit on the bytes. What
/// waits in `owed` at first is dropped.
///
/// # Errors
///
/// [`Ended::Disk`], [`Ended::Source`] and [`Ended::Sink`] come only if a call of that object failed, and
/// [`Ended::TooLong`] if more than `limit` bytes were taken. After a fault of the source and too long an input the open
/// batch is left as it is. The machine is then live and stands on the disk, except after [`Ended::Disk`].
pub(crate) fn serve_lines<M: Machine, D: Disk, S: Source, K: Sink, L: Ledger>(
    machine: &mut M,
    disk: &mut D,
    source: &mut S,
    sink: &mut K,
    owed: &mut Buffers,
    batch: u64,
    limit: u64,
    steps: &mut Steps<L>,
) -> Result<(), Ended>
    requires ready { MayServe M.Machine D.Disk batch machine.old disk.old }
    ensures finishes { OnOk result (Finishes (Session M.Machine D.Disk) (record { machine = machine.old; disk = disk.old; taken = K.taken sink.old; steps = steps.old }) (S.left source.old) limit
        (record { machine = machine.new; disk = disk.new; owed = owed.new; taken = K.taken sink.new; steps = steps.new }) (S.left source.new)) }
    ensures stops { IfErr result (λ e. Stops (Broken M.Machine D.Disk batch) e (record { machine = machine.old; disk = disk.old; taken = K.taken sink.old; steps = steps.old }) (S.left source.old)
        limit batch (limit + 4096)
        (record { machine = machine.new; disk = disk.new; owed = owed.new; taken = K.taken sink.new; steps = steps.new }) (S.left source.new)) }
    ensures keeps { Keeps M.Machine D.Disk K.Sink machine.old disk.old sink.old steps.old result machine.new disk.new sink.new steps.new }
    ensures settled { OnOk result (NothingPending D.Disk disk.new) }
    ensures staged { OnOk result (M.staged_of machine.new ≡ 0) }
    ensures source_count { CountGoesOn (S.faults source.old) (S.faults source.new) (S.is_spent source.old) (S.is_spent source.new) }
    ensures source { result ≡ Err Ended.Source → Rose (S.faults source.old) (S.faults source.new) (S.is_spent source.new) }
{
    machine.keep_rules(disk);
    owed.clear();
    let mut piece = [0; PIECE];
    let mut part = PartialLine::new();
    let mut total: u64 = 0;
    'pieces: loop {
        let count = match source.take(&mut piece) {
            Ok(count) => count,
            Err(_) => {
                machine.keep_rules(disk);
                return Err(Ended::Source);
            }
        };
        if count == 0 {
            return finish(machine, disk, sink, owed, &mut part, batch, steps);
        }
        let room = limit - total;
        let within = (count as u64).min(room) as usize;
        match take_bytes(
            machine,
            disk,
            sink,
            owed,
            &mut part,
            &piece[..within],
            batch,
            steps,
        ) {
            Ok(()) => {}
            Err(ended) => return Err(ended),
        }
        if count as u64 > room {
            machine.keep_rules(disk);
            return Err(Ended::TooLong);
        }
        total += count as u64;
    }
}
