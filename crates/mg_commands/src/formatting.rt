// The command `format`: a volume is made, and a line says what came of it.
ghost use Rattle.std.specs.Prelude.{OnErr, OnOk};
ghost use Rattle.std.specs.Io.KnownBytes.{Appends};
ghost use Rattle.mg_faults.specs.Faults.{Rose};
ghost use Rattle.mg_io.specs.Known.{AppendsPrefix};
ghost use Rattle.mg_serve.specs.Sessions.{use_of};
ghost use Rattle.mg_commands.specs.Headline.{FormatKeeps, made_line, small_line};

use arrayvec::ArrayVec;
use mg_disk::Disk;
use mg_faults::Failed;
use mg_io::{Sink, put_all};
use mg_layout::{FormatFault, format};
use mg_model::limits::ROOT_BASE;
use mg_model::{Params, draw};
use mg_serve::Status;
use mg_text::{print_small, print_words};

/// Makes a volume and prints its line. If the disk has too few blocks it is not called, and the line
/// says how many are needed and how many there are. If a call of the disk failed nothing is printed.
pub fn make_volume<D: Disk, K: Sink>(params: &Params, disk: &mut D, sink: &mut K) -> Status
    ensures { FormatKeeps params.now result (use_of D.Disk disk.old disk.new) (use_of K.Sink sink.old sink.new) }
{
    match format(disk, params) {
        Ok(()) => match put_made(params, sink) {
            Ok(()) => Status::Done,
            Err(_) => Status::Sink,
        },
        Err(FormatFault::TooSmall { need, have }) => match put_small(need, have, sink) {
            Ok(()) => Status::TooSmall,
            Err(_) => Status::Sink,
        },
        Err(FormatFault::Disk) => Status::Disk,
    }
}

/// Prints the line of a volume that was made.
fn put_made<K: Sink>(params: &Params, sink: &mut K) -> Result<(), Failed>
    ensures line { OnOk result (Appends (K.taken sink.old) (K.taken sink.new) (made_line params.now)) }
    ensures prefix { AppendsPrefix (K.taken sink.old) (K.taken sink.new) (made_line params.now) }
    ensures sink { OnErr result (Rose (K.faults sink.old) (K.faults sink.new) (K.is_spent sink.new)) }
{
    let seed = params.seed();
    let mut line = ArrayVec::new();
    print_words(ROOT_BASE, draw(&seed, 0), draw(&seed, 1), &mut line);
    put_all(sink, line.as_slice())
}

/// Prints the line that says how many blocks are needed, and how many there are.
pub fn put_small<K: Sink>(need: u64, have: u64, sink: &mut K) -> Result<(), Failed>
    ensures line { OnOk result (Appends (K.taken sink.old) (K.taken sink.new) (small_line need have)) }
    ensures prefix { AppendsPrefix (K.taken sink.old) (K.taken sink.new) (small_line need have) }
    ensures sink { OnErr result (Rose (K.faults sink.old) (K.faults sink.new) (K.is_spent sink.new)) }
{
    let mut line = ArrayVec::new();
    print_small(need, have, &mut line);
    put_all(sink, line.as_slice())
}
