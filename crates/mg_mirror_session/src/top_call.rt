// All that is done over a mirror.
ghost use Rattle.std.specs.Prelude.{◌≡◌, IfSome, None};
ghost use Rattle.mg_mirror_session.specs.Commands.{mirror_of};
ghost use Rattle.mg_mirror_session.specs.Headline.{MirrorKeeps, NoMirrorKeeps, session_over};
ghost use Rattle.mg_mirror_session.specs.Ran.{RanOpened, as_two, out_left, out_right};
ghost use Rattle.mg_serve.specs.Sessions.{use_of};
ghost use Rattle.mg_io.specs.Arguments.{arguments};

use crate::judging::read_first;
use crate::putting::put_side;
use crate::words::read_words;
use mg_disk::{BLOCK_SIZE, COPY_BLOCKS, Disk, Failed};
use mg_io::{Sink, Source};
use mg_mirror::{Mirror, MirrorFailed, Opened, Side};
use mg_model::Steps;
use mg_session::{Status, put_fault, put_usage, run};
use std::alloc::Global;
use std::marker::Brand;
use std::sync::ledger::Ledger;

/// All that the program does over a mirror. The words, which are those behind its name, are `LEFT mirror RIGHT SIDE`.
///
/// First the gate and the superblock of SIDE's disk are judged, before anything is written. Where they tell that it holds no
/// volume, `open not`, `open old` or `open damaged` is put with [`Status::NoVolume`]: nothing is written on either disk, and nothing is
/// taken from the source. Two disks of which one has fewer than two blocks get `open not` as well. What only the blocks behind these
/// two tell, is told after the copy.
///
/// Else it makes one disk of the first blocks of two, as many as the smaller has, with what the disk on SIDE holds, which is copied
/// to the other one; each block of SIDE's disk is read once. Block 0 of the other one, its gate, is closed first and written last, with
/// a sync after each step: a stop within the copy leaves there no volume, what its blocks after the gate spelled before, or what SIDE's
/// spell; and where the other disk fails within the copy, it is left so. Then it runs the source's lines on the volume of that disk, a reply a
/// batch, as `VOLUME run` does. A side whose write or sync fails is dropped, and the other one stands alone from then on. Once all
/// lines are answered the line `alone left` or `alone right` is put, exactly where a side stands alone.
///
/// Other words get the line `usage` and [`Status::Usage`]; the disks and the source are then left alone. `steps`
/// does not rise.
///
/// [`Status::Disk`] comes with nothing put, no write made on SIDE's disk and no side told where that disk failed while the mirror
/// was opened. Else it comes only where both disks failed. The other statuses are those of `VOLUME run`, of the mirror; and
/// [`Status::Sink`] comes too where the last line could not be put.
///
/// Which side is in use is not kept on the disks: a later call is told a side that was.
///
/// It returns the status, the one side that is still in use, and the disks as they are then, the left one first. No side is returned
/// while both are in use, and if no mirror was opened.
pub fn top_mirror<D: Disk, E: Disk, S: Source, K: Sink, L: Ledger>(
    alloc: Global,
    words: &[String],
    left: D,
    right: E,
    source: &mut S,
    sink: &mut K,
    steps: &mut Steps<L>,
) -> (Status, Option<Side>, D, E)
    ensures mirror { IfSome (mirror_of (arguments words.now)) (λ from. MirrorKeeps (session_over from result.0 result.1
        (use_of D.Disk left result.2) (use_of E.Disk right result.3) (use_of S.Source source.old source.new)
        (use_of K.Sink sink.old sink.new) steps.old steps.new)) }
    ensures usage { mirror_of (arguments words.now) ≡ None → NoMirrorKeeps K.Sink result.0 result.1
        left result.2 right result.3 source.old source.new sink.old sink.new steps.old steps.new }
{
    match read_words(words) {
        Some(from) => {
            run_on_mirror::<D, E, S, K, L, Brand>(alloc, from, left, right, source, sink, steps)
        }
        None => (put_usage(sink), None, left, right),
    }
}

/// Judges the first blocks of the disk on that side, opens a mirror from it, and runs the source's lines on the volume of it. `O` has
/// the counts of both disks.
fn run_on_mirror<D: Disk, E: Disk, S: Source, K: Sink, L: Ledger, O: Opened<D, E>>(
    alloc: Global,
    from: Side,
    left: D,
    right: E,
    source: &mut S,
    sink: &mut K,
    steps: &mut Steps<L>,
) -> (Status, Option<Side>, D, E)
    requires left_faults { D.faults left ≡ O.left_faults }
    requires right_faults { E.faults right ≡ O.right_faults }
    requires left_unknown { O.left_out ≡ None }
    requires right_unknown { O.right_out ≡ None }
    ensures { MirrorKeeps (session_over from result.0 result.1
        (use_of D.Disk left result.2) (use_of E.Disk right result.3) (use_of S.Source source.old source.new)
        (use_of K.Sink sink.old sink.new) steps.old steps.new) }
{
    let (mut left, mut right) = (left, right);
    let mut buffer = [[0; BLOCK_SIZE]; COPY_BLOCKS];
    let count = left.blocks().min(right.blocks()).min(COPY_BLOCKS as u64);
    let first = &mut buffer[..count as usize];
    match read_first(&mut left, &mut right, from, first) {
        Ok(None) => {}
        Ok(Some(fault)) => {
            let status = put_fault(fault, sink);
            return (status, None, left, right);
        }
        Err(Failed) => {
            return (Status::Disk, None, left, right);
        }
    }
    let mirror = match Mirror::<D, E, O>::open_behind(left, right, from, first) {
        Ok(mirror) => mirror,
        Err(MirrorFailed { left, right }) => {
            return (Status::Disk, None, left, right);
        }
    };
    run_opened::<D, E, S, K, L, O, Brand>(alloc, mirror, source, sink, steps)
}

/// Runs the source's lines on the volume of a mirror that was just opened. `J` has what is known of its disks now.
fn run_opened<D: Disk, E: Disk, S: Source, K: Sink, L: Ledger, O: Opened<D, E>, J: Opened<D, E>>(
    alloc: Global,
    mirror: Mirror<D, E, O>,
    source: &mut S,
    sink: &mut K,
    steps: &mut Steps<L>,
) -> (Status, Option<Side>, D, E)
    requires left_faults { J.left_faults ≡ O.left_faults }
    requires right_faults { J.right_faults ≡ O.right_faults }
    requires left_out { J.left_out ≡ out_left mirror.alone mirror.left }
    requires right_out { J.right_out ≡ out_right mirror.alone mirror.right }
    ensures { RanOpened D.Disk E.Disk S.Source K.Sink O.left_faults O.right_faults (as_two D.Disk E.Disk O.Opened mirror) result.0 result.1
        result.2 result.3 source.old source.new sink.old sink.new steps.old steps.new }
{
    let mut mirror = mirror.known::<J>();
    let ran = run(alloc, 1, &mut mirror, source, sink, steps);
    let alone = mirror.alone();
    let status = put_side(ran, alone, sink);
    let (left, right) = mirror.sides();
    (status, alone, left, right)
}
