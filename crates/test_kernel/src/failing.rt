// Lines that make an object and reach it. Each disk call that they make fails once, and the line is stepped again.
ghost use Rattle.std.specs.Prelude.{◌≡◌, ◌<◌};
ghost use Rattle.mg_kernel.specs.Meaning.{StandsOn};

use crate::kernels::{ROOT, is_made};
use crate::sharing::OTHER;
use crate::trials::is_committed;
use mg_disk::{Disk, MemDisk};
use mg_kernel::Kernel;
use mg_model::{Call, Line, Refusal, Reply, Steps};
use std::alloc::Global;
use std::marker::Brand;
use std::sync::ledger::{Blank, Ledger};

/// The second password of a fresh volume, which opens the treasury.
const TREASURY: u64 = 0x28bd_8653_e56a_5d40;

/// The third password, which the new object gets.
const GIVEN: u64 = 0x1aed_8da0_b819_d2bd;

/// A call of thread 1, and its reply.
type Row = (Call, Reply);

// Thread 1 makes an object of two pages. Its first load is denied, and reads the root's page. Then it stores the object into the root's
// list, loads a word and stores it. The object's page has no frame before the store. After it the frame is staged.
const MAKING: [Row; 8] = [
    (
        Call::Create {
            pages: 2,
            account: 1,
            password: TREASURY,
        },
        Reply::Made(OTHER, GIVEN),
    ),
    (Call::Load { a: OTHER }, Reply::No(Refusal::Denied)),
    (
        Call::Store {
            a: ROOT + 32,
            value: OTHER,
        },
        Reply::Done,
    ),
    (
        Call::Store {
            a: ROOT + 40,
            value: GIVEN,
        },
        Reply::Done,
    ),
    (Call::Store { a: ROOT, value: 2 }, Reply::Done),
    (Call::Load { a: OTHER + 8 }, Reply::Value(0)),
    (
        Call::Store {
            a: OTHER + 8,
            value: 5,
        },
        Reply::Done,
    ),
    (Call::Load { a: OTHER + 8 }, Reply::Value(5)),
];

// The volume is opened again. A search reads the root's page, and the load reads the object's page.
const REACHING: [Row; 2] = [
    (Call::Load { a: OTHER + 8 }, Reply::Value(5)),
    (
        Call::Store {
            a: OTHER + 16,
            value: 6,
        },
        Reply::Done,
    ),
];

/// The disk calls that some lines make, from `first` up to before `last`, and the number of lines that failed once.
#[derive(Clone, Copy)]
struct CallRange {
    first: u64,
    last: u64,
    failed: u64,
}

/// The number of disk calls that were made.
fn calls(disk: &MemDisk) -> u64 {
    let counts = disk.counts();
    counts
        .reads
        .saturating_add(counts.writes)
        .saturating_add(counts.syncs)
}

/// The reply to a line, and how often it failed before, once at most. None if it fails again, or if too much is staged.
#[tactic(auto, using(mg_kernel::specs::Meaning::same_number))]
fn answered_again<D: Disk, L: Ledger>(
    kernel: &mut Kernel,
    disk: &mut D,
    line: &Line,
    steps: &mut Steps<L>,
) -> Option<(Reply, u64)>
    requires { StandsOn D.Disk kernel.old disk.old }
    ensures { StandsOn D.Disk kernel.new disk.new }
{
    if !kernel.live() || kernel.staged() > 28 {
        return None;
    }
    match kernel.step(disk, line, steps) {
        Ok(reply) => Some((reply, 0)),
        Err(_) => match kernel.step(disk, line, steps) {
            Ok(reply) => Some((reply, 1)),
            Err(_) => None,
        },
    }
}

/// The number of lines that failed once. None if a line has another reply than its row.
fn failed_among<D: Disk, L: Ledger>(
    kernel: &mut Kernel,
    disk: &mut D,
    rows: &[Row],
    steps: &mut Steps<L>,
) -> Option<u64>
    requires { StandsOn D.Disk kernel.old disk.old }
    ensures { StandsOn D.Disk kernel.new disk.new }
{
    let mut failed: u64 = 0;
    for row in rows {
        let (call, wanted) = *row;
        match answered_again(kernel, disk, &Line { thread: 1, call }, steps) {
            Some((reply, times)) if reply == wanted => failed = failed.saturating_add(times),
            _ => return None,
        }
    }
    Some(failed)
}

/// Steps some lines on a kernel, and commits what they changed.
fn stepped<L: Ledger>(
    kernel: &mut Kernel,
    disk: &mut MemDisk,
    rows: &[Row],
    steps: &mut Steps<L>,
) -> Option<CallRange>
    requires { StandsOn ⟦<MemDisk as Disk>⟧ kernel.old disk.old }
{
    let first = calls(disk);
    let failed = failed_among(kernel, disk, rows, steps)?;
    let last = calls(disk);
    if is_committed(kernel, disk) {
        Some(CallRange {
            first,
            last,
            failed,
        })
    } else {
        None
    }
}

/// The same on a kernel that is opened here.
fn stepped_anew<L: Ledger>(
    alloc: Global,
    disk: &mut MemDisk,
    rows: &[Row],
    steps: &mut Steps<L>,
) -> Option<CallRange> {
    match Kernel::open(alloc, disk) {
        Ok(mut kernel) => stepped(&mut kernel, disk, rows, steps),
        Err(_) => None,
    }
}

/// Steps both lists of lines on a disk, which becomes a volume first.
fn both_on<L: Ledger>(
    alloc: Global,
    disk: &mut MemDisk,
    steps: &mut Steps<L>,
) -> Option<[CallRange; 2]> {
    if !is_made(disk, 64) {
        return None;
    }
    let making = stepped_anew(alloc, disk, &MAKING, steps)?;
    let reaching = stepped_anew(alloc, disk, &REACHING, steps)?;
    Some([making, reaching])
}

/// The same on a disk of which the calls with these numbers fail.
fn both_with<L: Ledger>(
    alloc: Global,
    fails: Vec<u64>,
    steps: &mut Steps<L>,
) -> Option<[CallRange; 2]> {
    match MemDisk::new(alloc, 2660, 20_000, fails) {
        Ok(mut disk) => both_on(alloc, &mut disk, steps),
        Err(_) => None,
    }
}

fn both_failing<L: Ledger>(
    alloc: Global,
    number: u64,
    steps: &mut Steps<L>,
) -> Option<[CallRange; 2]> {
    match [number].to_vec(alloc) {
        Ok(fails) => both_with(alloc, fails, steps),
        Err(_) => None,
    }
}

/// The number of disk calls that some lines make. Each of these calls fails in a run of its own, in which just one line must be stepped
/// again. None if not.
fn count_fails<L: Ledger>(alloc: Global, range: &CallRange, steps: &mut Steps<L>) -> Option<u64> {
    let mut count: u64 = 0;
    for number in range.first..range.last {
        let [making, reaching] = both_failing(alloc, number, steps)?;
        if making.failed.saturating_add(reaching.failed) != 1 {
            return None;
        }
        count = count.saturating_add(1);
    }
    Some(count)
}

/// The same for both lists of lines.
fn count_both<L: Ledger>(alloc: Global, blank: Blank) -> Option<[u64; 2]>
    requires name { blank.name ≡ L.name }
    requires parts { blank.parts ≡ L.parts }
    requires has_parts { 0 < blank.parts }
{
    let mut steps = Steps::<L>::new(blank);
    let [making, reaching] = both_with(alloc, Vec::new(alloc), &mut steps)?;
    let of_making = count_fails(alloc, &making, &mut steps)?;
    let of_reaching = count_fails(alloc, &reaching, &mut steps)?;
    Some([of_making, of_reaching])
}

#[test]
fn a_line_whose_read_fails_is_stepped_again(rt: HostRuntime) {
    assert!(rt; count_both::<Brand>(rt.alloc(), Blank::new(1)) == Some([1, 2]));
}
