// A whole session: the source is read to its end, and its lines are stepped and answered in batches.
ghost use Rattle.std.specs.Prelude.{◌≡◌, Err, IsOk, IsTrue, OnOk};
ghost use Rattle.std.specs.Option.{ForSome};
ghost use Rattle.mg_disk.specs.Stops.{CountGoes, CountRose};
ghost use Rattle.mg_faults.specs.Faults.{CountGoesOn, Rose};
ghost use Rattle.mg_serve.specs.Serving.{IsWithin, Keeps, MayServe, Serves};
ghost use Rattle.mg_serve.specs.Parts.{KeepsExactly};
ghost use Rattle.mg_serve.specs.Sessions.{use_of, input_limit, status_of};

use crate::buffers::Buffers;
use crate::ended::Ended;
use crate::machine::Machine;
use crate::reading::serve_lines;
use crate::status::Status;
use mg_disk::Disk;
use mg_io::{Sink, Source};
use mg_model::Steps;
use std::alloc::Global;
use std::sync::ledger::Ledger;

/// The bytes that a session may take.
const INPUT: u64 = 1 << 32;

/// Reads lines to the end of the source, has a machine step them and sends its replies in batches of at most 64, up to a
/// limit on the bytes. What waits in `owed` at first is dropped.
///
/// A batch closes with `batch` replies, if more than 28 blocks are staged, or at the end of the input: it is committed,
/// and then its replies are sent in one call of `put_all`.
///
/// # Errors
///
/// [`Ended::Disk`], [`Ended::Source`] and [`Ended::Sink`] come only if a call of that object failed, and
/// [`Ended::TooLong`] if more than `limit` bytes were taken. After a failed step, a fault of the source and too long an
/// input the open batch is neither committed nor answered; after a failed commit its lines may have been kept or not; after
/// a fault of the sink they were kept. The machine is then live, except after a failed commit, and stands on the disk, except
/// after [`Ended::Disk`].
pub fn serve<M: Machine, D: Disk, S: Source, K: Sink, L: Ledger>(
    machine: &mut M,
    disk: &mut D,
    source: &mut S,
    sink: &mut K,
    owed: &mut Buffers,
    batch: u64,
    limit: u64,
    steps: &mut Steps<L>,
) -> Result<(), Ended>
    requires ready { MayServe M.Machine D.Disk batch machine.old disk.old }

    // What the sink took, what a stop leaves, and how the session ends.
    ensures serves { Serves M.Machine batch limit (status_of result) machine.old machine.new (use_of D.Disk disk.old disk.new)
        (use_of S.Source source.old source.new) (use_of K.Sink sink.old sink.new) steps.old steps.new }

    // If no call failed and the input is not too long, all is done.
    ensures complete { (CountRose D.Disk disk.old disk.new → ⊥)
        → (Rose (S.faults source.old) (S.faults source.new) (S.is_spent source.new) → ⊥)
        → (Rose (K.faults sink.old) (K.faults sink.new) (K.is_spent sink.new) → ⊥)
        → IsWithin limit (S.left source.old) (IsOk result) }

    // Unless the disk failed the machine is live and stands on the disk, and after a good end it may serve again. The two counts
    // of words rise by as much, and no count of faults falls.
    ensures keeps { Keeps M.Machine D.Disk K.Sink machine.old disk.old sink.old steps.old result machine.new disk.new sink.new steps.new }
    ensures staged { OnOk result (M.staged_of machine.new ≡ 0) }
    ensures source_count { CountGoesOn (S.faults source.old) (S.faults source.new) (S.is_spent source.old) (S.is_spent source.new) }

    // If the disk failed and the machine is live, no commit failed, and the answered lines are held and no others.
    ensures held_disk { result ≡ Err Ended.Disk → IsTrue (M.is_live machine.new) → ForSome (D.seen disk.old) (λ image.
        KeepsExactly ((D.time disk.new).left_since (D.time disk.new).moment) (M.kept machine.old image) (S.left source.old) (K.taken sink.old) (K.taken sink.new)) }
{
    serve_lines(machine, disk, source, sink, owed, batch, limit, steps)
}

/// Serves the source's lines to its end, in batches of `batch` replies, and returns how that ended. The memory for the replies
/// is taken first; [`Status::Memory`], if it can't be had, leaves all as it was.
pub fn run<M: Machine, D: Disk, S: Source, K: Sink, L: Ledger>(
    alloc: Global,
    machine: &mut M,
    batch: u64,
    disk: &mut D,
    source: &mut S,
    sink: &mut K,
    steps: &mut Steps<L>,
) -> Status
    requires ready { MayServe M.Machine D.Disk batch machine.old disk.old }
    ensures serves { Serves M.Machine batch input_limit result machine.old machine.new (use_of D.Disk disk.old disk.new)
        (use_of S.Source source.old source.new) (use_of K.Sink sink.old sink.new) steps.old steps.new }
    ensures memory { result ≡ Status.Memory → machine.new ≡ machine.old }
    ensures disk_count { CountGoes D.Disk disk.old disk.new }
    ensures disk_blocks { D.block_count disk.new ≡ D.block_count disk.old }
    ensures sink_count { CountGoesOn (K.faults sink.old) (K.faults sink.new) (K.is_spent sink.old) (K.is_spent sink.new) }
{
    machine.keep_rules(disk);
    let mut owed = match Buffers::new(alloc) {
        Ok(owed) => owed,
        Err(_) => return Status::Memory,
    };
    match serve(machine, disk, source, sink, &mut owed, batch, INPUT, steps) {
        Ok(()) => Status::Done,
        Err(Ended::Disk) => Status::Disk,
        Err(Ended::Source) => Status::Source,
        Err(Ended::Sink) => Status::Sink,
        Err(Ended::TooLong) => Status::TooLong,
    }
}
