// What is printed of a volume that was not migrated.
ghost use Rattle.std.specs.Prelude.{◌≡◌, ◌⊎◌};
ghost use Rattle.std.specs.Io.KnownBytes.{Appends};
ghost use Rattle.mg_faults.specs.Faults.{Rose};
ghost use Rattle.mg_io.specs.Known.{AppendsPrefix};
ghost use Rattle.mg_migrate_session.specs.Headline.{HasPut};
ghost use Rattle.mg_migrate_session.specs.FaultText.{EndsUnmigratedBy, TellsNothingOld, fault_line};
ghost use Rattle.mg_commands.specs.Headline.{small_line};

use mg_commands::put_small;
use mg_io::{Sink, put_all};
use mg_migrate::MigrateFault;
use mg_serve::Status;

/// Prints the line of a fault of the migration; for a fault of a disk, and without enough memory, nothing is printed.
pub(crate) fn put_fault<K: Sink>(fault: MigrateFault, sink: &mut K) -> Status
    ensures ends { EndsUnmigratedBy fault result }
    ensures put { HasPut result → Appends (K.taken sink.old) (K.taken sink.new) (fault_line fault) }
    ensures prefix { AppendsPrefix (K.taken sink.old) (K.taken sink.new) (fault_line fault) }
    ensures quiet { TellsNothingOld fault → sink.new ≡ sink.old }
    ensures sink { result ≡ Status.Sink → Rose (K.faults sink.old) (K.faults sink.new) (K.is_spent sink.new) }
{
    match fault {
        MigrateFault::Not => put_line(b"open not\n", sink),
        MigrateFault::Old => put_line(b"open old\n", sink),
        MigrateFault::New => put_line(b"open new\n", sink),
        MigrateFault::Damaged => put_line(b"open damaged\n", sink),
        MigrateFault::TooSmall { need, have } => put_sizes(need, have, sink),
        MigrateFault::Memory => Status::Memory,
        MigrateFault::OldDisk => Status::Disk,
        MigrateFault::NewDisk => Status::Disk,
    }
}

/// Prints the line of a disk without a volume of version 1.
fn put_line<K: Sink>(line: &[u8], sink: &mut K) -> Status
    ensures ends { (result ≡ Status.NoVolume) ⊎ (result ≡ Status.Sink) }
    ensures put { HasPut result → Appends (K.taken sink.old) (K.taken sink.new) line.now }
    ensures prefix { AppendsPrefix (K.taken sink.old) (K.taken sink.new) line.now }
    ensures sink { result ≡ Status.Sink → Rose (K.faults sink.old) (K.faults sink.new) (K.is_spent sink.new) }
{
    match put_all(sink, line) {
        Ok(()) => Status::NoVolume,
        Err(_) => Status::Sink,
    }
}

/// Prints the line of a new disk that is too small.
fn put_sizes<K: Sink>(need: u64, have: u64, sink: &mut K) -> Status
    ensures ends { (result ≡ Status.TooSmall) ⊎ (result ≡ Status.Sink) }
    ensures put { HasPut result → Appends (K.taken sink.old) (K.taken sink.new) (small_line need have) }
    ensures prefix { AppendsPrefix (K.taken sink.old) (K.taken sink.new) (small_line need have) }
    ensures sink { result ≡ Status.Sink → Rose (K.faults sink.old) (K.faults sink.new) (K.is_spent sink.new) }
{
    match put_small(need, have, sink) {
        Ok(()) => Status::TooSmall,
        Err(_) => Status::Sink,
    }
}
