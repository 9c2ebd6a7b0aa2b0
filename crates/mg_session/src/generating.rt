// The command `gen`: a generated run on a fresh volume that is kept nowhere, of which the replies are counted.
ghost use Rattle.std.specs.Prelude.{◌≡◌, ◌⊎◌, ◌≤◌, ◌+◌, IfOk, IfSome, IsTrue, OnOk};
ghost use Rattle.std.specs.Io.KnownBytes.{Appends};
ghost use Rattle.std.specs.Option.{ForSome};
ghost use Rattle.mg_disk.specs.Stops.{DiskCalls};
ghost use Rattle.mg_faults.specs.Faults.{Rose};
ghost use Rattle.mg_gen.specs.Asked.{line_asked};
ghost use Rattle.mg_gen.specs.Tallies.{tally_of, tally_text};
ghost use Rattle.mg_io.specs.Known.{AppendsPrefix};
ghost use Rattle.mg_kernel.specs.Meaning.{StandsOn, is_live, now_of, staged_of};
ghost use Rattle.mg_model.specs.Warmth.{cost};
ghost use Rattle.mg_serve.specs.Sessions.{use_of};
ghost use Rattle.mg_session.specs.Generating.{Counts, IsFresh};
ghost use Rattle.mg_commands.specs.Headline.{GenKeeps, replies_from, generated_lines};

use arrayvec::ArrayVec;
use mg_disk::{Disk, ScratchDisk};
use mg_faults::Failed;
use mg_gen::{Tally, counts_add_up, line, lines_are_calls, settings};
use mg_io::{Sink, put_all};
use mg_kernel::{Kernel, OpenFault};
use mg_laws::{costs_add_up, warm_keys_are_kept};
use mg_layout::{Geometry, format};
use mg_model::{Line, Params, Steps};
use mg_serve::{STAGED_LIMIT, Status};
use mg_text::read_line;
use std::alloc::Global;
use std::sync::ledger::Ledger;

/// Steps `count` lines of the run of a number on a fresh machine in memory, and prints how many of the replies were ok and
/// how many were refused with each word, all in one call of `put_all`. If there is not enough memory nothing is printed.
pub fn count_run<K: Sink, L: Ledger>(
    alloc: Global,
    number: u64,
    count: u64,
    sink: &mut K,
    steps: &mut Steps<L>,
) -> Status
    requires count_at_most_1000000 { count ≤ 1000000 }
    ensures { GenKeeps number count result (use_of K.Sink sink.old sink.new) steps.old steps.new }
{
    counts_add_up();
    let (mut disk, mut kernel) = match fresh_machine(alloc, &settings()) {
        Some(machine) => machine,
        None => return Status::Memory,
    };
    match tally_lines(&mut kernel, &mut disk, number, count, steps) {
        Ok(tally) => put_tally(&tally, sink),
        Err(_) => unreachable!(),
    }
}

/// A fresh machine with these settings, on a volume in memory; None if there is not enough memory.
fn fresh_machine(alloc: Global, params: &Params) -> Option<(ScratchDisk, Kernel)>
    ensures { IfSome result (λ machine. IsFresh ⟦<ScratchDisk as Disk>⟧ params.now machine.0 machine.1) }
{
    let blocks = Geometry::of(params.frames()).total;
    let mut disk = match ScratchDisk::new(alloc, blocks) {
        Ok(disk) => disk,
        Err(_) => return None,
    };
    match format(&mut disk, params) {
        Ok(()) => {}
        Err(_) => unreachable!(),
    }
    match Kernel::open(alloc, &mut disk) {
        Ok(kernel) => Some((disk, kernel)),
        Err(OpenFault::Memory) => None,
        Err(_) => unreachable!(),
    }
}

/// Steps `count` lines of the run of a number, and counts the replies. What the lines changed is committed if more than
/// 28 blocks are staged, and at the end.
fn tally_lines<D: Disk, L: Ledger>(
    kernel: &mut Kernel,
    disk: &mut D,
    number: u64,
    count: u64,
    steps: &mut Steps<L>,
) -> Result<Tally, Failed>
    requires live { IsTrue (is_live kernel.old) }
    requires stands { StandsOn D.Disk kernel.old disk.old }
    requires staged { staged_of kernel.old ≡ 0 }
    requires count_at_most_1000000 { count ≤ 1000000 }
    ensures counts { IfOk result (λ tally. ForSome (D.seen disk.old) (λ image. tally ≡ tally_of (replies_from (now_of kernel.old image) (generated_lines number count)))) }
    ensures cost { OnOk result (ForSome (D.seen disk.old) (λ image. steps.new ≤ steps.old + cost (now_of kernel.old image) (generated_lines number count))) }
    ensures calls { DiskCalls D.Disk disk.old disk.new result }
{
    warm_keys_are_kept();
    lines_are_calls();
    let mut tally = Tally::new();
    for k in 0..count {
        let line = generated_line(number, k);
        match count_line(kernel, disk, &line, &mut tally, steps) {
            Ok(()) => {}
            Err(failed) => return Err(failed),
        }
    }
    match kernel.commit(disk) {
        Ok(()) => Ok(tally),
        Err(failed) => Err(failed),
    }
}

/// Line k of the run of a number.
fn generated_line(number: u64, k: u64) -> Line
    ensures { result ≡ line_asked number k }
{
    lines_are_calls();
    let mut text = ArrayVec::new();
    line(number, k, &mut text);
    let _newline = text.pop();
    match read_line(text.as_slice()) {
        Some(line) => line,
        None => unreachable!(),
    }
}

/// One line is stepped, and its reply counted. If more than 28 blocks are staged after it they are committed.
fn count_line<D: Disk, L: Ledger>(
    kernel: &mut Kernel,
    disk: &mut D,
    line: &Line,
    tally: &mut Tally,
    steps: &mut Steps<L>,
) -> Result<(), Failed>
    requires live { IsTrue (is_live kernel.old) }
    requires stands { StandsOn D.Disk kernel.old disk.old }
    requires staged { staged_of kernel.old ≤ 28 }
    ensures counts { OnOk result (Counts D.Disk (record { kernel = kernel.old; disk = disk.old; counts = tally.old; steps = steps.old }) line.now
        (record { kernel = kernel.new; disk = disk.new; counts = tally.new; steps = steps.new })) }
    ensures live { OnOk result (IsTrue (is_live kernel.new)) }
    ensures stands { OnOk result (StandsOn D.Disk kernel.new disk.new) }
    ensures staged { OnOk result (staged_of kernel.new ≤ 28) }
    ensures calls { DiskCalls D.Disk disk.old disk.new result }
{
    warm_keys_are_kept();
    costs_add_up();
    let reply = match kernel.step(disk, line, steps) {
        Ok(reply) => reply,
        Err(failed) => return Err(failed),
    };
    tally.count(&reply);
    if kernel.staged() <= STAGED_LIMIT {
        return Ok(());
    }
    kernel.commit(disk)
}

/// Prints what was counted.
fn put_tally<K: Sink>(tally: &Tally, sink: &mut K) -> Status
    ensures ends { (result ≡ Status.Done) ⊎ (result ≡ Status.Sink) }
    ensures put { result ≡ Status.Done → Appends (K.taken sink.old) (K.taken sink.new) (tally_text tally.now) }
    ensures prefix { AppendsPrefix (K.taken sink.old) (K.taken sink.new) (tally_text tally.now) }
    ensures sink { result ≡ Status.Sink → Rose (K.faults sink.old) (K.faults sink.new) (K.is_spent sink.new) }
{
    let mut text = ArrayVec::new();
    tally.print(&mut text);
    match put_all(sink, text.as_slice()) {
        Ok(()) => Status::Done,
        Err(_) => Status::Sink,
    }
}
