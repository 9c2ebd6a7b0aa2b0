// The program, over any two disks, source and sink.
ghost use Rattle.std.specs.Prelude.{◌≡◌, codes};
ghost use Rattle.mg_console.specs.Programs.{AfterReads, EndsAs, ThenReads};
ghost use Rattle.mg_disk.specs.Stops.{WritesNothing};
ghost use Rattle.mg_model.specs.Words.{same_bytes};
ghost use Rattle.mg_serve.specs.Sessions.{code_of, use_of};
ghost use Rattle.mg_io.specs.Arguments.{arguments};
ghost use Rattle.mg_commands.specs.Headline.{session_of};
ghost use Rattle.mg_window.specs.Attached.{seen};
ghost use Rattle.mg_dev_program.specs.Program.{Did, OverMirror, RanDevices, is_mirror};

use crate::NAME;
use crate::bases::report_bases;
use crate::usage::report_usage;
use mg_console::{InFile, Stream, report_fault, report_status, report_volume, word};
use mg_disk::Disk;
use mg_io::{Sink, Source};
use mg_mirror::Side;
use mg_mirror_session::top_mirror;
use mg_model::Steps;
use mg_session::Status;
use mg_window::{Device, Windows};
use mg_window_session::{read_words, top_dev_of};
use std::alloc::Global;
use std::io::Eprint;
use std::sync::ledger::Ledger;

/// The exit status, and the two disks at the end.
#[derive(Drop)]
pub struct Ended<D: Disk, E: Disk> {
    pub code: u8,
    pub left: D,
    pub right: E,
}

/// Carries out the command that the words spell, says on standard error why it failed, and returns the exit status. `left` is in the
/// file of the first word, and `right` in the file of the third. `windows` has the devices, and `steps` counts as in [`top_mirror`] and
/// [`top_dev_of`].
///
/// Outside of the command a disk is only read: the volume of `dev` before it, and after it the disk whose file is reported.
pub fn carry_out<
    R: AllocGlobal + Eprint,
    T: Device,
    D: Disk + InFile,
    E: Disk + InFile,
    S: Source + Stream,
    K: Sink + Stream,
    L: Ledger,
>(
    rt: &R,
    words: &[String],
    left: D,
    right: E,
    source: &mut S,
    sink: &mut K,
    windows: &mut Windows<T>,
    steps: &mut Steps<L>,
) -> Ended<D, E>
    ensures { EndsAs code_of (λ status. ThenReads D.Disk (λ left'. ThenReads E.Disk (λ right'. Did words.now status
        (use_of D.Disk left left') (use_of E.Disk right right') (use_of S.Source source.old source.new)
        (use_of K.Sink sink.old sink.new)
        (seen T.held windows.old) (seen T.held windows.new) steps.old steps.new) result.right) result.left) result.code }
{
    let ran = command(rt, words, left, right, source, sink, windows, steps);
    let (status, _, mut left, mut right) = ran;
    report_files(rt, words, status, &mut left, &mut right);
    if status == Status::Usage {
        report_usage(rt, words);
    }
    report_status(rt, NAME, status, source.error(), sink.error());
    Ended {
        code: status.code(),
        left,
        right,
    }
}

/// Whether the second word is `mirror`.
pub fn is_mirror(words: &[String]) -> bool
    ensures { result ≡ is_mirror (arguments words.now) }
{
    match words {
        [_, word, ..] => is_that(word.as_bytes()),
        _ => false,
    }
}

/// Makes the top call that the words spell. Without a mirror no side is left alone.
fn command<R: AllocGlobal + Eprint, T: Device, D: Disk, E: Disk, S: Source, K: Sink, L: Ledger>(
    rt: &R,
    words: &[String],
    left: D,
    right: E,
    source: &mut S,
    sink: &mut K,
    windows: &mut Windows<T>,
    steps: &mut Steps<L>,
) -> (Status, Option<Side>, D, E)
    ensures { Did words.now result.0 (use_of D.Disk left result.2) (use_of E.Disk right result.3)
        (use_of S.Source source.old source.new) (use_of K.Sink sink.old sink.new)
        (seen T.held windows.old) (seen T.held windows.new) steps.old steps.new }
{
    if is_mirror(words) {
        over_mirror(rt.alloc(), words, left, right, source, sink, steps)
    } else {
        let mut left = left;
        let status = on_devices(rt, words, &mut left, source, sink, windows, steps);
        (status, None, left, right)
    }
}

/// The top call over a mirror.
fn over_mirror<D: Disk, E: Disk, S: Source, K: Sink, L: Ledger>(
    alloc: Global,
    words: &[String],
    left: D,
    right: E,
    source: &mut S,
    sink: &mut K,
    steps: &mut Steps<L>,
) -> (Status, Option<Side>, D, E)
    ensures { OverMirror words.now result.0 result.1 (use_of D.Disk left result.2) (use_of E.Disk right result.3)
        (use_of S.Source source.old source.new) (use_of K.Sink sink.old sink.new) steps.old steps.new }
{
    top_mirror(alloc, words, left, right, source, sink, steps)
}

/// The top call with devices. What is wrong with their bases is reported first.
fn on_devices<R: AllocGlobal + Eprint, T: Device, D: Disk, S: Source, K: Sink, L: Ledger>(
    rt: &R,
    words: &[String],
    disk: &mut D,
    source: &mut S,
    sink: &mut K,
    windows: &mut Windows<T>,
    steps: &mut Steps<L>,
) -> Status
    ensures { AfterReads D.Disk disk.old (λ found. RanDevices words.now (seen T.held windows.old) (seen T.held windows.new)
        (session_of 1 result (use_of D.Disk found disk.new)
        (use_of S.Source source.old source.new) (use_of K.Sink sink.old sink.new) steps.old steps.new)) }
{
    let asked = read_words(words).unwrap_or_default();
    report_bases(rt, word(words, 0), asked.as_slice(), disk);
    with_devices(rt.alloc(), words, disk, source, sink, windows, steps)
}

fn with_devices<T: Device, D: Disk, S: Source, K: Sink, L: Ledger>(
    alloc: Global,
    words: &[String],
    disk: &mut D,
    source: &mut S,
    sink: &mut K,
    windows: &mut Windows<T>,
    steps: &mut Steps<L>,
) -> Status
    ensures { RanDevices words.now (seen T.held windows.old) (seen T.held windows.new)
        (session_of 1 result (use_of D.Disk disk.old disk.new)
        (use_of S.Source source.old source.new) (use_of K.Sink sink.old sink.new) steps.old steps.new) }
{
    top_dev_of(alloc, words, disk, source, sink, windows, steps)
}

/// Says why a disk failed, and what only the file of the volume shows; of a mirror it is the file of SIDE. The failure of a side of a
/// mirror is reported while the lines run.
fn report_files<R: AllocGlobal + Eprint, D: Disk + InFile, E: Disk + InFile>(
    rt: &R,
    words: &[String],
    status: Status,
    left: &mut D,
    right: &mut E,
)
    ensures left { WritesNothing D.Disk left.old left.new }
    ensures right { WritesNothing E.Disk right.old right.new }
{
    let is_refused = status == Status::NoVolume;
    let mirrors = is_mirror(words);
    if mirrors && word(words, 3) == "right" {
        let found = right.found();
        report_volume(rt, NAME, word(words, 2), right, found, is_refused);
    } else {
        if !mirrors && status == Status::Disk {
            report_fault(rt, NAME, word(words, 0), left.fault());
        }
        let found = left.found();
        report_volume(rt, NAME, word(words, 0), left, found, is_refused);
    }
}

fn is_that(word: &[u8]) -> bool
    ensures { result ≡ same_bytes word.now (codes "mirror") }
{
    word == b"mirror".as_slice()
}
