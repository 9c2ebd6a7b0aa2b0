// One line: it reaches a device, or is a step of the kernel.
ghost use Rattle.std.specs.Prelude.{ℕ, ◌≡◌, ◌≤◌, ◌<◌, IfOk, IfSome, IsTrue, OnErr, Some, length};
ghost use Rattle.std.specs.Option.{ForSome};
ghost use Rattle.mg_disk.specs.Disk.{Image};
ghost use Rattle.mg_disk.specs.Stops.{DiskCalls};
ghost use Rattle.mg_kernel.specs.Meaning.{StandsOn, is_live, now_of, staged_of};
ghost use Rattle.mg_kernel.specs.Serving.{Serves};
ghost use Rattle.mg_model.specs.FewSlots.{HasFewSlots};
ghost use Rattle.mg_model.specs.declared.rights.Right.TheVariants.{R, W};
ghost use Rattle.mg_window.specs.Attached.{seen};
ghost use Rattle.mg_window_session.specs.Machine.{device_step, load_step, plain_step, reached, store_step, stored_at, window_of};
ghost use Rattle.mg_window_session.specs.Stepping.{IsAnswered, Looks, bases_of, dropped, machine};

use arrayvec::ArrayVec;
use mg_disk::Disk;
use mg_faults::Failed;
use mg_kernel::Kernel;
use mg_model::{Call, Line, Refusal, Reply, Right, Steps};
use mg_window::{Device, Windows};
use std::sync::ledger::Ledger;

/// A line: its reply, and the machine and the devices after it. Nothing is written.
pub(crate) fn answer<T: Device, D: Disk, L: Ledger>(
    kernel: &mut Kernel,
    windows: &mut Windows<T>,
    disk: &mut D,
    line: &Line,
    steps: &mut Steps<L>,
) -> Result<Reply, Failed>
    requires live { IsTrue (is_live kernel.old) }
    requires at_most_28_staged { staged_of kernel.old ≤ 28 }
    requires stands { StandsOn D.Disk kernel.old disk.old }
    ensures answers { IfOk result (λ answer. IsAnswered D.Disk (λ m. device_step m line.now) kernel.old kernel.new (seen T.held windows.old) (seen T.held windows.new) disk.old answer) }
    ensures serves { Serves D.Disk kernel.old kernel.new disk.old disk.new steps.old steps.new }
    ensures failed { OnErr result (seen T.held windows.new ≡ seen T.held windows.old) }
    ensures slots { IfOk result HasFewSlots }
    ensures calls { DiskCalls D.Disk disk.old disk.new result }
{
    match line.call {
        Call::Load { a } => load(kernel, windows, disk, line, a, steps),
        Call::Store { a, value } => store(kernel, windows, disk, line, a, value, steps),
        _ => step(kernel, windows, disk, line, steps),
    }
}

/// A load of this address by the line's thread.
fn load<T: Device, D: Disk, L: Ledger>(
    kernel: &mut Kernel,
    windows: &mut Windows<T>,
    disk: &mut D,
    line: &Line,
    address: u64,
    steps: &mut Steps<L>,
) -> Result<Reply, Failed>
    requires live { IsTrue (is_live kernel.old) }
    requires at_most_28_staged { staged_of kernel.old ≤ 28 }
    requires stands { StandsOn D.Disk kernel.old disk.old }
    ensures answers { IfOk result (λ answer. IsAnswered D.Disk (λ m. load_step m line.now (reached m line.now.thread address R)) kernel.old kernel.new (seen T.held windows.old) (seen T.held windows.new) disk.old answer) }
    ensures serves { Serves D.Disk kernel.old kernel.new disk.old disk.new steps.old steps.new }
    ensures failed { OnErr result (seen T.held windows.new ≡ seen T.held windows.old) }
    ensures slots { IfOk result HasFewSlots }
    ensures calls { DiskCalls D.Disk disk.old disk.new result }
{
    match reach(kernel, windows, disk, line.thread, address, Right::R, steps) {
        Ok(Some((i, off))) => Ok(Reply::Value(windows.load(i, off))),
        Ok(None) => step(kernel, windows, disk, line, steps),
        Err(Failed) => Err(Failed),
    }
}

/// A store of a value to this address by the line's thread.
fn store<T: Device, D: Disk, L: Ledger>(
    kernel: &mut Kernel,
    windows: &mut Windows<T>,
    disk: &mut D,
    line: &Line,
    address: u64,
    value: u64,
    steps: &mut Steps<L>,
) -> Result<Reply, Failed>
    requires live { IsTrue (is_live kernel.old) }
    requires at_most_28_staged { staged_of kernel.old ≤ 28 }
    requires stands { StandsOn D.Disk kernel.old disk.old }
    ensures answers { IfOk result (λ answer. IsAnswered D.Disk (λ m. store_step m line.now value (reached m line.now.thread address W)) kernel.old kernel.new (seen T.held windows.old) (seen T.held windows.new) disk.old answer) }
    ensures serves { Serves D.Disk kernel.old kernel.new disk.old disk.new steps.old steps.new }
    ensures failed { OnErr result (seen T.held windows.new ≡ seen T.held windows.old) }
    ensures slots { IfOk result HasFewSlots }
    ensures calls { DiskCalls D.Disk disk.old disk.new result }
{
    match reach(kernel, windows, disk, line.thread, address, Right::W, steps) {
        Ok(Some((i, off))) => Ok(store_at(windows, i, off, value)),
        Ok(None) => step(kernel, windows, disk, line, steps),
        Err(Failed) => Err(Failed),
    }
}

/// Stores a value to the i-th device, if its tape has room.
fn store_at<T: Device>(windows: &mut Windows<T>, i: usize, off: u64, value: u64) -> Reply
    requires { i < length windows.old }
    ensures { (seen T.held windows.new, result) ≡ stored_at (seen T.held windows.old) i off value }
{
    match windows.store(i, off, value) {
        Ok(()) => Reply::Done,
        Err(_) => Reply::No(Refusal::Limit),
    }
}

/// The device that an access of a thread reaches: its place, and the address from its base on, in bytes.
#[tactic(auto, using(mg_kernel::specs::Meaning::same_number))]
fn reach<T: Device, D: Disk, L: Ledger>(
    kernel: &mut Kernel,
    windows: &Windows<T>,
    disk: &mut D,
    thread: u64,
    address: u64,
    right: Right,
    steps: &mut Steps<L>,
) -> Result<Option<(usize, u64)>, Failed>
    requires live { IsTrue (is_live kernel.old) }
    requires at_most_28_staged { staged_of kernel.old ≤ 28 }
    requires stands { StandsOn D.Disk kernel.old disk.old }
    ensures window { IfOk result (λ window. ForSome (D.seen disk.old) (λ image. window ≡ reached (machine kernel.old (seen T.held windows.now) image) thread address right)) }
    ensures place { IfOk result (λ window. IfSome window (λ w. w.0 < length windows.now)) }
    ensures looks { Looks D.Disk kernel.old kernel.new disk.old disk.new steps.old steps.new }
    ensures calls { DiskCalls D.Disk disk.old disk.new result }
{
    if address % 8 != 0 {
        return Ok(None);
    }
    match kernel.probe(disk, thread, address, right, steps) {
        Ok(base) => Ok(window_of(windows, address, base)),
        Err(Failed) => Err(Failed),
    }
}

/// The device at a base, if one is there: its place, and an address from the base on.
fn window_of<T: Device>(
    windows: &Windows<T>,
    address: u64,
    base: Option<u64>,
) -> Option<(usize, u64)>
    ensures window { result ≡ window_of (seen T.held windows.now) address base }
    ensures place { IfSome result (λ w. w.0 < length windows.now) }
{
    match base {
        Some(base) => match windows.find(base) {
            Some(i) => Some((i, address.saturating_sub(base))),
            None => None,
        },
        None => None,
    }
}

/// A line that reaches no device.
fn step<T: Device, D: Disk, L: Ledger>(
    kernel: &mut Kernel,
    windows: &mut Windows<T>,
    disk: &mut D,
    line: &Line,
    steps: &mut Steps<L>,
) -> Result<Reply, Failed>
    requires live { IsTrue (is_live kernel.old) }
    requires at_most_28_staged { staged_of kernel.old ≤ 28 }
    requires stands { StandsOn D.Disk kernel.old disk.old }
    ensures answers { IfOk result (λ answer. IsAnswered D.Disk (λ m. plain_step m line.now) kernel.old kernel.new (seen T.held windows.old) (seen T.held windows.new) disk.old answer) }
    ensures serves { Serves D.Disk kernel.old kernel.new disk.old disk.new steps.old steps.new }
    ensures failed { OnErr result (seen T.held windows.new ≡ seen T.held windows.old) }
    ensures slots { IfOk result HasFewSlots }
    ensures calls { DiskCalls D.Disk disk.old disk.new result }
{
    let bases = bases(kernel, windows);
    match kernel.step(disk, line, steps) {
        Ok(reply) => {
            drop_gone(kernel, windows, bases.as_slice());
            Ok(reply)
        }
        Err(Failed) => Err(Failed),
    }
}

/// The bases of devices that are bases of objects.
fn bases<T: Device>(kernel: &Kernel, windows: &Windows<T>) -> ArrayVec<u64, 16>
    ensures { (image : Image) → result.items ≡ bases_of (now_of kernel.now image) (seen T.held windows.now) }
{
    let count = windows.len();
    let mut bases = ArrayVec::new();
    let mut i = 0;
    while i < count {
        let base = windows.base_at(i);
        if kernel.is_base(base) {
            bases.push(base);
        }
        i += 1;
    }
    bases
}

/// Drops the devices at these bases that are bases of no object.
fn drop_gone<T: Device>(kernel: &Kernel, windows: &mut Windows<T>, bases: &[u64])
    ensures { (image : Image) → seen T.held windows.new ≡ dropped (now_of kernel.now image) bases.now (seen T.held windows.old) }
{
    for base in bases {
        if !kernel.is_base(*base) {
            windows.drop_at(*base);
        }
    }
}
