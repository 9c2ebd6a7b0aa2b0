// Rows of calls on a kernel, with their answers.
ghost use Rattle.std.specs.Prelude.{◌≡◌, None, true};
ghost use Rattle.mg_kernel.specs.Meaning.{StandsOn};

use crate::probes::wrong_probe;
use mg_disk::Disk;
use mg_kernel::Kernel;
use mg_model::{Call, Line, Reply, Steps};
use std::sync::ledger::Ledger;

/// A call on a kernel, with its answer. `words` is the number of words counted after it, or None if that is not compared.
#[derive(Clone, Copy)]
pub(crate) enum Row {
    /// Loads of a thread that all return a value.
    Loads {
        thread: u64,
        address: u64,
        value: u64,
        times: u64,
        words: Option<u64>,
    },
    /// A store of thread 1.
    Store {
        address: u64,
        value: u64,
        words: Option<u64>,
    },
    /// Whether a thread lives.
    Lives(u64, bool),
    /// All probes, and whether thread 1 still has the root.
    Probes(bool),
    Commit,
}

/// The reply to a line. None if it fails or if too much is staged.
fn answered<D: Disk, L: Ledger>(
    kernel: &mut Kernel,
    disk: &mut D,
    line: &Line,
    steps: &mut Steps<L>,
) -> Option<Reply>
    requires { StandsOn D.Disk kernel.old disk.old }
    ensures { StandsOn D.Disk kernel.new disk.new }
{
    if !kernel.live() || kernel.staged() > 28 {
        return None;
    }
    kernel.step(disk, line, steps).ok()
}

/// Whether a line returns this value each of `times` times.
fn all_give<D: Disk, L: Ledger>(
    kernel: &mut Kernel,
    disk: &mut D,
    line: &Line,
    value: u64,
    times: u64,
    steps: &mut Steps<L>,
) -> bool
    requires { StandsOn D.Disk kernel.old disk.old }
    ensures { StandsOn D.Disk kernel.new disk.new }
{
    for _ in 0..times {
        if answered(kernel, disk, line, steps) != Some(Reply::Value(value)) {
            return false;
        }
    }
    true
}

fn is_stored<D: Disk, L: Ledger>(
    kernel: &mut Kernel,
    disk: &mut D,
    address: u64,
    value: u64,
    steps: &mut Steps<L>,
) -> bool
    requires { StandsOn D.Disk kernel.old disk.old }
    ensures { StandsOn D.Disk kernel.new disk.new }
{
    let call = Call::Store { a: address, value };
    answered(kernel, disk, &Line { thread: 1, call }, steps) == Some(Reply::Done)
}

pub(crate) fn is_committed<D: Disk>(kernel: &mut Kernel, disk: &mut D) -> bool
    requires { StandsOn D.Disk kernel.old disk.old }
    ensures { result ≡ true → StandsOn D.Disk kernel.new disk.new }
{
    kernel.live() && kernel.commit(disk).is_ok()
}

/// Whether this number of words is counted. True if it is not compared.
fn has_counted(kernel: &Kernel, words: Option<u64>) -> bool {
    match words {
        Some(words) => kernel.words() == words,
        None => true,
    }
}

/// Whether a row has its answer.
fn is_right<D: Disk, L: Ledger>(
    kernel: &mut Kernel,
    disk: &mut D,
    row: &Row,
    steps: &mut Steps<L>,
) -> bool
    requires { StandsOn D.Disk kernel.old disk.old }
    ensures { result ≡ true → StandsOn D.Disk kernel.new disk.new }
{
    match row {
        Row::Loads {
            thread,
            address,
            value,
            times,
            words,
        } => {
            let line = Line {
                thread: *thread,
                call: Call::Load { a: *address },
            };
            all_give(kernel, disk, &line, *value, *times, steps) && has_counted(kernel, *words)
        }
        Row::Store {
            address,
            value,
            words,
        } => { is_stored(kernel, disk, *address, *value, steps) && has_counted(kernel, *words) }
        Row::Lives(thread, lives) => kernel.lives(*thread) == *lives,
        Row::Probes(are_allowed) => wrong_probe(kernel, disk, *are_allowed, steps).is_none(),
        Row::Commit => is_committed(kernel, disk),
    }
}

/// The place of the first row with another answer. Later rows are left out.
pub(crate) fn wrong_row<D: Disk, L: Ledger>(
    kernel: &mut Kernel,
    disk: &mut D,
    rows: &[Row],
    steps: &mut Steps<L>,
) -> Option<usize>
    requires { StandsOn D.Disk kernel.old disk.old }
    ensures { result ≡ None → StandsOn D.Disk kernel.new disk.new }
{
    let mut place: usize = 0;
    for row in rows {
        if !is_right(kernel, disk, row, steps) {
            return Some(place);
        }
        place = place.saturating_add(1);
    }
    None
}
