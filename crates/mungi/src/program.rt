// The program, over any disks, source and sink.
ghost use Rattle.mg_console.specs.Programs.{EndsAs, ThenReads};
ghost use Rattle.mg_serve.specs.Sessions.{code_of, use_of};
ghost use Rattle.mungi.specs.Program.{Did, Ran};

use mg_console::{InFile, Stream, report_end};
use mg_disk::Disk;
use mg_io::{Sink, Source};
use mg_model::Steps;
use mg_session::{Status, is_migrate, top, top_migrate};
use std::alloc::Global;
use std::io::Eprint;
use std::sync::ledger::Ledger;

/// Carries out the command that the words spell, says on standard error why it failed, and returns the exit status. `disk` is in the
/// file of the first word, and `old` in the file of the third. `steps` counts as in [`top`].
///
/// Standard error is written after the command. Until then only the command calls the disks, the source and the sink. After it only
/// `disk` is called, and only read.
pub(crate) fn carry_out<
    R: AllocGlobal + Eprint,
    D: Disk + InFile,
    E: Disk + InFile,
    S: Source + Stream,
    K: Sink + Stream,
    L: Ledger,
>(
    rt: &R,
    words: &[String],
    disk: &mut D,
    old: &mut E,
    source: &mut S,
    sink: &mut K,
    steps: &mut Steps<L>,
) -> u8
    ensures { EndsAs code_of (λ status. ThenReads D.Disk (λ left. Did words.now status
        (use_of D.Disk disk.old left) (use_of E.Disk old.old old.new)
        (use_of S.Source source.old source.new) (use_of K.Sink sink.old sink.new) steps.old steps.new) disk.new) result }
{
    let status = command(rt.alloc(), words, disk, old, source, sink, steps);
    report_end(
        rt,
        words,
        is_migrate(words),
        status,
        disk,
        old,
        source.error(),
        sink.error(),
    );
    status.code()
}

/// Makes the top call that the words spell.
fn command<D: Disk, E: Disk, S: Source, K: Sink, L: Ledger>(
    alloc: Global,
    words: &[String],
    disk: &mut D,
    old: &mut E,
    source: &mut S,
    sink: &mut K,
    steps: &mut Steps<L>,
) -> Status
    ensures { Did words.now result (use_of D.Disk disk.old disk.new) (use_of E.Disk old.old old.new)
        (use_of S.Source source.old source.new) (use_of K.Sink sink.old sink.new) steps.old steps.new }
{
    if is_migrate(words) {
        top_migrate(alloc, words, disk, old, sink)
    } else {
        ran(alloc, words, disk, source, sink, steps)
    }
}

/// The top call of every command but `migrate`.
fn ran<D: Disk, S: Source, K: Sink, L: Ledger>(
    alloc: Global,
    words: &[String],
    disk: &mut D,
    source: &mut S,
    sink: &mut K,
    steps: &mut Steps<L>,
) -> Status
    ensures { Ran words.now result (use_of D.Disk disk.old disk.new)
        (use_of S.Source source.old source.new) (use_of K.Sink sink.old sink.new) steps.old steps.new }
{
    top(alloc, words, disk, source, sink, steps)
}
