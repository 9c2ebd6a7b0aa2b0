// The command `run`: a session on the volume of a disk.
ghost use Rattle.std.specs.Prelude.{◌≡◌, ◌≤◌};
ghost use Rattle.mg_faults.specs.Faults.{CountGoesOn};
ghost use Rattle.mg_serve.specs.Sessions.{use_of};
ghost use Rattle.mg_commands.specs.Headline.{RunKeeps, session_of};

use mg_commands::put_fault;
use mg_disk::Disk;
use mg_io::{Sink, Source};
use mg_kernel::Kernel;
use mg_laws::costs_add_up;
use mg_model::Steps;
use mg_serve::Status;
use std::alloc::Global;
use std::sync::ledger::Ledger;

/// Opens the volume of the disk and runs the source's lines on it, in batches of `batch` replies. If the disk holds no
/// volume a line says so.
pub fn run<D: Disk, S: Source, K: Sink, L: Ledger>(
    alloc: Global,
    batch: u64,
    disk: &mut D,
    source: &mut S,
    sink: &mut K,
    steps: &mut Steps<L>,
) -> Status
    requires batch_at_least_1 { 1 ≤ batch }
    requires small { batch ≤ 64 }
    ensures keeps { RunKeeps (session_of batch result (use_of D.Disk disk.old disk.new)
        (use_of S.Source source.old source.new) (use_of K.Sink sink.old sink.new) steps.old steps.new) }
    ensures disk_blocks { D.block_count disk.new ≡ D.block_count disk.old }
    ensures sink_count { CountGoesOn (K.faults sink.old) (K.faults sink.new) (K.is_spent sink.old) (K.is_spent sink.new) }
{
    costs_add_up();
    match Kernel::open(alloc, disk) {
        Ok(mut kernel) => mg_serve::run(alloc, &mut kernel, batch, disk, source, sink, steps),
        Err(fault) => put_fault(fault, sink),
    }
}
