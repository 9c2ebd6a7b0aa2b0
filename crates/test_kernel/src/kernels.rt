// Kernels on volumes in memory. The words and blocks that are read show what the caches hold, and probes show what threads can reach.
ghost use Rattle.std.specs.Prelude.{◌≡◌, ◌≤◌, ◌<◌, IsSome};
ghost use Rattle.mg_kernel.specs.Meaning.{StandsOn};

use crate::sharing::{OTHER, PASSWORD, are_written};
use crate::trials::{Row, wrong_row};
use mg_disk::{Disk, MemDisk};
use mg_kernel::Kernel;
use mg_layout::format;
pub(crate) use mg_model::limits::ROOT_BASE as ROOT;
use mg_model::{ObjRow, Params, Steps, Tariff};
use std::alloc::Global;
use std::marker::Brand;
use std::sync::ledger::{Blank, Ledger};

/// A trial on a fresh volume of 64 frames.
#[derive(Clone, Copy)]
enum Trial {
    /// The words of a capability list are read once, until a store into it.
    Counting,
    /// A page is read once, and stays cached after a commit.
    Reading,
    /// A page that is stored into again and again is never read.
    Writing,
    /// A probe shows what a thread can reach, even after the thread has locked itself out.
    LockedOut,
    /// A probe shows the same after the volume is opened again.
    StillOut,
    /// Two threads use one seat in turn.
    Sharing,
}

// The root's list has one entry. A search reads the count, the base and the password, and each line reads or writes one more word. The
// store needs another right, so it searches too.
const COUNTED: [Row; 4] = [
    Row::Loads {
        thread: 1,
        address: ROOT,
        value: 1,
        times: 1,
        words: Some(4),
    },
    Row::Loads {
        thread: 1,
        address: ROOT,
        value: 1,
        times: 999,
        words: Some(1003),
    },
    Row::Store {
        address: ROOT + 2048,
        value: 5,
        words: Some(1007),
    },
    Row::Loads {
        thread: 1,
        address: ROOT,
        value: 1,
        times: 1,
        words: Some(1011),
    },
];

// The root's page is one block. It has the list and the word that is loaded.
const FIRST_READ: [Row; 1] = [Row::Loads {
    thread: 1,
    address: ROOT,
    value: 1,
    times: 1,
    words: None,
}];

const READ_AGAIN: [Row; 1] = [Row::Loads {
    thread: 1,
    address: ROOT,
    value: 1,
    times: 99,
    words: None,
}];

const COMMITTED: [Row; 2] = [
    Row::Store {
        address: ROOT + 2048,
        value: 5,
        words: None,
    },
    Row::Commit,
];

const READ_AFTER: [Row; 1] = [Row::Loads {
    thread: 1,
    address: ROOT + 2048,
    value: 5,
    times: 1,
    words: None,
}];

// Thread 1 stores the other object into the root's list.
pub(crate) const LISTED: [Row; 4] = [
    Row::Store {
        address: ROOT,
        value: 2,
        words: None,
    },
    Row::Store {
        address: ROOT + 32,
        value: OTHER,
        words: None,
    },
    Row::Store {
        address: ROOT + 40,
        value: PASSWORD,
        words: None,
    },
    Row::Commit,
];

const WRITTEN: [Row; 2] = [
    Row::Store {
        address: OTHER + 8,
        value: 7,
        words: None,
    },
    Row::Commit,
];

// Thread 1 empties the root's list.
const LOCKED_OUT: [Row; 6] = [
    Row::Lives(1, true),
    Row::Lives(2, false),
    Row::Probes(true),
    Row::Store {
        address: ROOT,
        value: 0,
        words: None,
    },
    Row::Probes(false),
    Row::Commit,
];

const STILL_OUT: [Row; 1] = [Row::Probes(false)];

// Thread 1 stores the other object into the root's list, after the root. Each of its three stores searches the list up to the root's
// entry. A search for the other object reads one base more. Both keys have seat 38, so the last load searches again.
const SHARED: [Row; 6] = [
    Row::Store {
        address: ROOT,
        value: 2,
        words: None,
    },
    Row::Store {
        address: ROOT + 32,
        value: OTHER,
        words: None,
    },
    Row::Store {
        address: ROOT + 40,
        value: PASSWORD,
        words: Some(12),
    },
    Row::Loads {
        thread: 1,
        address: OTHER,
        value: 0,
        times: 1,
        words: Some(17),
    },
    Row::Loads {
        thread: 38,
        address: ROOT,
        value: 2,
        times: 1,
        words: Some(21),
    },
    Row::Loads {
        thread: 1,
        address: OTHER,
        value: 0,
        times: 1,
        words: Some(26),
    },
];

/// The number of blocks that some rows read. None if a row has another answer.
pub(crate) fn read_by<L: Ledger>(
    kernel: &mut Kernel,
    disk: &mut MemDisk,
    rows: &[Row],
    steps: &mut Steps<L>,
) -> Option<u64>
    requires { StandsOn ⟦<MemDisk as Disk>⟧ kernel.old disk.old }
    ensures { IsSome result → StandsOn ⟦<MemDisk as Disk>⟧ kernel.new disk.new }
{
    let before = disk.counts().reads;
    match wrong_row(kernel, disk, rows, steps) {
        Some(_) => None,
        None => Some(disk.counts().reads.wrapping_sub(before)),
    }
}

/// The numbers of blocks that are read by the first load, by the loads after it, and by the load after a commit.
fn reads<L: Ledger>(
    kernel: &mut Kernel,
    disk: &mut MemDisk,
    steps: &mut Steps<L>,
) -> Option<[u64; 3]>
    requires { StandsOn ⟦<MemDisk as Disk>⟧ kernel.old disk.old }
{
    let first = read_by(kernel, disk, &FIRST_READ, steps)?;
    let again = read_by(kernel, disk, &READ_AGAIN, steps)?;
    read_by(kernel, disk, &COMMITTED, steps)?;
    let after = read_by(kernel, disk, &READ_AFTER, steps)?;
    Some([first, again, after])
}

/// The numbers of blocks that are read by the first, second and third store into a page, each followed by a commit.
fn reads_to_write<L: Ledger>(
    kernel: &mut Kernel,
    disk: &mut MemDisk,
    steps: &mut Steps<L>,
) -> Option<[u64; 3]>
    requires { StandsOn ⟦<MemDisk as Disk>⟧ kernel.old disk.old }
{
    read_by(kernel, disk, &LISTED, steps)?;
    let first = read_by(kernel, disk, &WRITTEN, steps)?;
    let second = read_by(kernel, disk, &WRITTEN, steps)?;
    let third = read_by(kernel, disk, &WRITTEN, steps)?;
    Some([first, second, third])
}

/// Whether a trial on this kernel goes as it should.
fn goes_well<L: Ledger>(
    kernel: &mut Kernel,
    disk: &mut MemDisk,
    trial: Trial,
    steps: &mut Steps<L>,
) -> bool
    requires { StandsOn ⟦<MemDisk as Disk>⟧ kernel.old disk.old }
{
    match trial {
        Trial::Counting => wrong_row(kernel, disk, &COUNTED, steps).is_none(),
        Trial::Reading => reads(kernel, disk, steps) == Some([1, 0, 0]),
        Trial::Writing => reads_to_write(kernel, disk, steps) == Some([0, 0, 0]),
        Trial::LockedOut => wrong_row(kernel, disk, &LOCKED_OUT, steps).is_none(),
        Trial::StillOut => wrong_row(kernel, disk, &STILL_OUT, steps).is_none(),
        Trial::Sharing => wrong_row(kernel, disk, &SHARED, steps).is_none(),
    }
}

/// The same on a kernel that is opened here.
fn is_opened_well<L: Ledger>(
    alloc: Global,
    disk: &mut MemDisk,
    trial: Trial,
    steps: &mut Steps<L>,
) -> bool {
    match Kernel::open(alloc, disk) {
        Ok(mut kernel) => goes_well(&mut kernel, disk, trial, steps),
        Err(_) => false,
    }
}

/// The same on a fresh volume, after the trial's preparation.
fn all_go_well<L: Ledger>(
    alloc: Global,
    disk: &mut MemDisk,
    trial: Trial,
    steps: &mut Steps<L>,
) -> bool {
    let is_ready = match trial {
        Trial::Sharing | Trial::Writing => are_written(disk, ObjRow::new(OTHER, 1, 1)),
        Trial::StillOut => is_opened_well(alloc, disk, Trial::LockedOut, steps),
        _ => true,
    };
    is_ready && is_opened_well(alloc, disk, trial, steps)
}

/// Makes a volume of `frames` frames.
pub(crate) fn is_made<D: Disk>(disk: &mut D, frames: u64) -> bool
    requires at_least_16_frames { 16 ≤ frames }
    requires at_most_65536_frames { frames ≤ 65536 }
{
    match Params::new(frames, [0; 32], 1000, Tariff::usual(frames)) {
        Some(params) => format(disk, &params).is_ok(),
        None => false,
    }
}

fn goes_well_on_zeros<L: Ledger>(alloc: Global, trial: Trial, steps: &mut Steps<L>) -> bool {
    match MemDisk::new(alloc, 2660, 20_000, Vec::new(alloc)) {
        Ok(mut disk) => is_made(&mut disk, 64) && all_go_well(alloc, &mut disk, trial, steps),
        Err(_) => false,
    }
}

fn tried<L: Ledger>(alloc: Global, blank: Blank, trial: Trial) -> bool
    requires name { blank.name ≡ L.name }
    requires parts { blank.parts ≡ L.parts }
    requires has_parts { 0 < blank.parts }
{
    let mut steps = Steps::<L>::new(blank);
    goes_well_on_zeros(alloc, trial, &mut steps)
}

#[test]
fn trials_go_well(rt: HostRuntime) {
    for (name, trial) in [
        ("counting", Trial::Counting),
        ("reading", Trial::Reading),
        ("writing", Trial::Writing),
        ("locked out", Trial::LockedOut),
        ("still out", Trial::StillOut),
        ("sharing", Trial::Sharing),
    ] {
        let is_well = tried::<Brand>(rt.alloc(), Blank::new(1), trial);
        assert!(rt; is_well, "{name}");
    }
}
