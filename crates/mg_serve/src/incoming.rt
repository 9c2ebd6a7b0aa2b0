// Bytes come, and the lines that they end are stepped.
ghost use Rattle.std.specs.Prelude.{◌≡◌, ◌≤◌, [], ◌∷◌, ◌++◌, false, length, not, IfErr, IfNone, IfSome, OnOk};
ghost use Rattle.std.specs.List.{list_any, prefix_len};
ghost use Rattle.mg_disk.specs.Stops.{NothingPending};
ghost use Rattle.mg_model.specs.Lines.{lines};
ghost use Rattle.mg_model.specs.Words.{is_newline};
ghost use Rattle.mg_serve.specs.Incoming.{Breaks, Goes};
ghost use Rattle.mg_serve.specs.Machines.{Halts, IsInside, Runs};
ghost use Rattle.mg_serve.specs.Serving.{Broken, IsServing, Keeps, Session};
ghost use Rattle.mg_serve.specs.Waiting.{no_replies};

use crate::batches::{close, take_line};
use crate::buffers::Buffers;
use crate::ended::Ended;
use crate::machine::Machine;
use crate::partial::PartialLine;
use memchr::memchr;
use mg_disk::Disk;
use mg_io::Sink;
use mg_model::Steps;
use std::sync::ledger::Ledger;

/// The rest of a line came, and its newline.
fn take_ended<M: Machine, D: Disk, K: Sink, L: Ledger>(
    machine: &mut M,
    disk: &mut D,
    sink: &mut K,
    owed: &mut Buffers,
    part: &mut PartialLine,
    rest: &[u8],
    batch: u64,
    steps: &mut Steps<L>,
) -> Result<(), Ended>
    requires serving { IsServing M.Machine D.Disk batch machine.old disk.old owed.old }
    requires no_newline { list_any is_newline rest.now ≡ false }
    ensures goes { OnOk result (Goes (Session M.Machine D.Disk)
        (record { machine = machine.old; disk = disk.old; owed = owed.old; taken = K.taken sink.old; steps = steps.old }) part.old (rest.now ++ 10 ∷ [])
        (record { machine = machine.new; disk = disk.new; owed = owed.new; taken = K.taken sink.new; steps = steps.new }) part.new) }
    ensures breaks { IfErr result (λ e. Breaks (Session M.Machine D.Disk) (Broken M.Machine D.Disk batch) e
        (record { machine = machine.old; disk = disk.old; owed = owed.old; taken = K.taken sink.old; steps = steps.old }) part.old (rest.now ++ 10 ∷ [])
        (record { machine = machine.new; disk = disk.new; owed = owed.new; taken = K.taken sink.new; steps = steps.new })) }
    ensures whole { list_any is_newline part.new ≡ false }
    ensures keeps { Keeps M.Machine D.Disk K.Sink machine.old disk.old sink.old steps.old result machine.new disk.new sink.new steps.new }
    ensures serving { OnOk result (IsServing M.Machine D.Disk batch machine.new disk.new owed.new) }
    ensures only { IfErr result IsInside }
{
    match part.finish_with(rest) {
        None => Ok(()),
        Some(line) => take_line(machine, disk, sink, owed, &line, batch, steps),
    }
}

/// Some bytes came.
pub(crate) fn take_bytes<M: Machine, D: Disk, K: Sink, L: Ledger>(
    machine: &mut M,
    disk: &mut D,
    sink: &mut K,
    owed: &mut Buffers,
    part: &mut PartialLine,
    bytes: &[u8],
    batch: u64,
    steps: &mut Steps<L>,
) -> Result<(), Ended>
    requires serving { IsServing M.Machine D.Disk batch machine.old disk.old owed.old }
    requires whole { list_any is_newline part.old ≡ false }
    ensures goes { OnOk result (Goes (Session M.Machine D.Disk)
        (record { machine = machine.old; disk = disk.old; owed = owed.old; taken = K.taken sink.old; steps = steps.old }) part.old bytes.now
        (record { machine = machine.new; disk = disk.new; owed = owed.new; taken = K.taken sink.new; steps = steps.new }) part.new) }
    ensures breaks { IfErr result (λ e. Breaks (Session M.Machine D.Disk) (Broken M.Machine D.Disk batch) e
        (record { machine = machine.old; disk = disk.old; owed = owed.old; taken = K.taken sink.old; steps = steps.old }) part.old bytes.now
        (record { machine = machine.new; disk = disk.new; owed = owed.new; taken = K.taken sink.new; steps = steps.new })) }
    ensures whole { OnOk result (list_any is_newline part.new ≡ false) }
    ensures keeps { Keeps M.Machine D.Disk K.Sink machine.old disk.old sink.old steps.old result machine.new disk.new sink.new steps.new }
    ensures serving { OnOk result (IsServing M.Machine D.Disk batch machine.new disk.new owed.new) }
    ensures only { IfErr result IsInside }
{
    let mut rest = bytes;
    loop {
        match next_ended(rest) {
            None => {
                part.add_all(rest);
                return Ok(());
            }
            Some((line, more)) => {
                match take_ended(machine, disk, sink, owed, part, line, batch, steps) {
                    Ok(()) => rest = more,
                    Err(ended) => return Err(ended),
                }
            }
        }
    }
}

// The bytes before the first newline and those after it; None if there is none.
fn next_ended(bytes: &[u8]) -> Option<(&[u8], &[u8])>
    ensures none { IfNone result (list_any is_newline bytes.now ≡ false) }
    ensures line { IfSome result (λ p. list_any is_newline p.0.now ≡ false) }
    ensures split { IfSome result (λ p. bytes.now ≡ (p.0.now ++ 10 ∷ []) ++ p.1.now) }
{
    let count = before_newline(bytes);
    if count < bytes.len() {
        Some((&bytes[..count], &bytes[count + 1..]))
    } else {
        None
    }
}

// How many bytes are before the first newline.
fn before_newline(bytes: &[u8]) -> usize
    ensures count { result ≡ prefix_len (λ b. not (is_newline b)) bytes.now }
    ensures within { result ≤ length bytes.now }
{
    match memchr(b'\n', bytes) {
        Some(count) => count,
        None => bytes.len(),
    }
}

/// The input ended: the last line, which may lack its newline, is stepped, and the batch closes.
pub(crate) fn finish<M: Machine, D: Disk, K: Sink, L: Ledger>(
    machine: &mut M,
    disk: &mut D,
    sink: &mut K,
    owed: &mut Buffers,
    part: &mut PartialLine,
    batch: u64,
    steps: &mut Steps<L>,
) -> Result<(), Ended>
    requires serving { IsServing M.Machine D.Disk batch machine.old disk.old owed.old }
    ensures steps { OnOk result (Runs (Session M.Machine D.Disk)
        (record { machine = machine.old; disk = disk.old; owed = owed.old; taken = K.taken sink.old; steps = steps.old }) (lines part.old)
        (record { machine = machine.new; disk = disk.new; owed = owed.new; taken = K.taken sink.new; steps = steps.new })) }
    ensures halts { IfErr result (λ e. Halts (Session M.Machine D.Disk) (Broken M.Machine D.Disk batch) e
        (record { machine = machine.old; disk = disk.old; owed = owed.old; taken = K.taken sink.old; steps = steps.old }) (lines part.old)
        (record { machine = machine.new; disk = disk.new; owed = owed.new; taken = K.taken sink.new; steps = steps.new })) }
    ensures keeps { Keeps M.Machine D.Disk K.Sink machine.old disk.old sink.old steps.old result machine.new disk.new sink.new steps.new }
    ensures settled { OnOk result (NothingPending D.Disk disk.new) }
    ensures staged { OnOk result (M.staged_of machine.new ≡ 0) }
    ensures empty { OnOk result (owed.new ≡ no_replies) }
    ensures only { IfErr result IsInside }
{
    match part.finish() {
        None => close(machine, disk, sink, owed),
        Some(line) => {
            match take_line(machine, disk, sink, owed, &line, batch, steps) {
                Ok(()) => {}
                Err(ended) => return Err(ended),
            }
            close(machine, disk, sink, owed)
        }
    }
}
