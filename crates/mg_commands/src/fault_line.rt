// What is printed of a disk that was not opened.
ghost use Rattle.std.specs.Prelude.{◌≡◌, ◌⊎◌};
ghost use Rattle.std.specs.Io.KnownBytes.{Appends};
ghost use Rattle.mg_faults.specs.Faults.{CountGoesOn, Rose};
ghost use Rattle.mg_io.specs.Known.{AppendsPrefix};
ghost use Rattle.mg_commands.specs.Unopened.{EndsUnopenedBy, TellsNothing, fault_line};

use mg_check::OpenFault;
use mg_io::{Sink, put_all};
use mg_serve::Status;

/// Prints the line of a fault of the opening; for a fault of the disk, and without enough memory, nothing is printed.
pub fn put_fault<K: Sink>(fault: OpenFault, sink: &mut K) -> Status
    ensures ends { EndsUnopenedBy fault result }
    ensures put { result ≡ Status.NoVolume → Appends (K.taken sink.old) (K.taken sink.new) (fault_line fault) }
    ensures prefix { AppendsPrefix (K.taken sink.old) (K.taken sink.new) (fault_line fault) }
    ensures quiet { TellsNothing fault → sink.new ≡ sink.old }
    ensures sink { result ≡ Status.Sink → Rose (K.faults sink.old) (K.faults sink.new) (K.is_spent sink.new) }
    ensures sink_count { CountGoesOn (K.faults sink.old) (K.faults sink.new) (K.is_spent sink.old) (K.is_spent sink.new) }
{
    match fault {
        OpenFault::Not => put_line(b"open not\n", sink),
        OpenFault::Old => put_line(b"open old\n", sink),
        OpenFault::Damaged => put_line(b"open damaged\n", sink),
        OpenFault::Disk => Status::Disk,
        OpenFault::Memory => Status::Memory,
    }
}

fn put_line<K: Sink>(line: &[u8], sink: &mut K) -> Status
    ensures ends { (result ≡ Status.NoVolume) ⊎ (result ≡ Status.Sink) }
    ensures put { result ≡ Status.NoVolume → Appends (K.taken sink.old) (K.taken sink.new) line.now }
    ensures prefix { AppendsPrefix (K.taken sink.old) (K.taken sink.new) line.now }
    ensures sink { result ≡ Status.Sink → Rose (K.faults sink.old) (K.faults sink.new) (K.is_spent sink.new) }
    ensures sink_count { CountGoesOn (K.faults sink.old) (K.faults sink.new) (K.is_spent sink.old) (K.is_spent sink.new) }
{
    match put_all(sink, line) {
        Ok(()) => Status::NoVolume,
        Err(_) => Status::Sink,
    }
}
