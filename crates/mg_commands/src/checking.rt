// The command `check`: whether the disk holds a volume, and what of it.
ghost use Rattle.std.specs.Prelude.{◌≡◌, ◌⊎◌, Err, IfOk};
ghost use Rattle.std.specs.Io.KnownBytes.{Appends};
ghost use Rattle.std.specs.Option.{ForSome};
ghost use Rattle.mg_disk.specs.Stops.{DiskCallsBy, WritesNothing};
ghost use Rattle.mg_faults.specs.Faults.{Rose};
ghost use Rattle.mg_io.specs.Known.{AppendsPrefix};
ghost use Rattle.mg_model.specs.Volume.{Damaged, NotVolume, OldVolume, volume};
ghost use Rattle.mg_serve.specs.Sessions.{use_of};
ghost use Rattle.mg_commands.specs.Headline.{CheckKeeps};
ghost use Rattle.mg_commands.specs.Unopened.{TellsState, summary_line};

use crate::fault_line::put_fault;
use arrayvec::ArrayVec;
use mg_check::{OpenFault, Summary, read_volume, summary_of};
use mg_disk::Disk;
use mg_io::{Sink, put_all};
use mg_serve::Status;
use mg_text::print_numbers;
use std::alloc::Global;

/// Reports whether the disk holds a volume, and prints the line of it. It writes nothing.
pub fn check<D: Disk, K: Sink>(alloc: Global, disk: &mut D, sink: &mut K) -> Status
    ensures { CheckKeeps result (use_of D.Disk disk.old disk.new) (use_of K.Sink sink.old sink.new) }
{
    match examined(alloc, disk) {
        Ok(summary) => put_summary(&summary, sink),
        Err(fault) => put_fault(fault, sink),
    }
}

/// What is reported of the volume that the disk holds. What is counted is that of a state, also if reads are not told.
fn examined<D: Disk>(alloc: Global, disk: &mut D) -> Result<Summary, OpenFault>
    ensures tells { IfOk result (λ summary. TellsState summary (D.seen disk.old)) }
    ensures not { result ≡ Err OpenFault.Not → ForSome (D.seen disk.old) (λ image. volume image ≡ NotVolume) }
    ensures old { result ≡ Err OpenFault.Old → ForSome (D.seen disk.old) (λ image. volume image ≡ OldVolume) }
    ensures damaged { result ≡ Err OpenFault.Damaged → ForSome (D.seen disk.old) (λ image. volume image ≡ Damaged) }
    ensures writes { WritesNothing D.Disk disk.old disk.new }
    ensures calls { DiskCallsBy D.Disk disk.old disk.new (result ≡ Err OpenFault.Disk) }
{
    match read_volume(alloc, disk) {
        Ok((_, rows)) => Ok(summary_of(&rows)),
        Err(fault) => Err(fault),
    }
}

/// Prints the line of a volume.
pub fn put_summary<K: Sink>(summary: &Summary, sink: &mut K) -> Status
    ensures ends { (result ≡ Status.Done) ⊎ (result ≡ Status.Sink) }
    ensures put { result ≡ Status.Done → Appends (K.taken sink.old) (K.taken sink.new) (summary_line summary.now) }
    ensures prefix { AppendsPrefix (K.taken sink.old) (K.taken sink.new) (summary_line summary.now) }
    ensures sink { result ≡ Status.Sink → Rose (K.faults sink.old) (K.faults sink.new) (K.is_spent sink.new) }
{
    let mut line = ArrayVec::new();
    print_numbers(
        summary.frames,
        summary.objects,
        summary.pages,
        summary.accounts,
        summary.threads,
        summary.period,
        summary.credits,
        &mut line,
    );
    match put_all(sink, line.as_slice()) {
        Ok(()) => Status::Done,
        Err(_) => Status::Sink,
    }
}
