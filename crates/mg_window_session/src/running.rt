// A run of the source's lines on a volume with device windows.
ghost use Rattle.mg_faults.specs.Faults.{CountGoesOn};
ghost use Rattle.mg_serve.specs.Sessions.{use_of};
ghost use Rattle.mg_commands.specs.Headline.{session_of};
ghost use Rattle.mg_window.specs.Attached.{seen};
ghost use Rattle.mg_window_session.specs.Headline.{DevKeeps, DevicesKeep};

use crate::device_kernel::DeviceKernel;
use crate::device_lines::put_devices;
use mg_commands::put_fault;
use mg_disk::Disk;
use mg_io::{Sink, Source};
use mg_kernel::Kernel;
use mg_model::Steps;
use mg_serve::Status;
use mg_window::{Device, Windows};
use std::alloc::Global;
use std::mem;
use std::sync::ledger::Ledger;

/// How a run with device windows ended, and the devices that are left.
#[derive(Drop)]
struct Served<T: Drop> {
    status: Status,
    windows: Windows<T>,
}

/// Runs the source's lines on the volume of the disk, and prints the lines of the devices that are left. An empty list takes
/// the place of the devices meanwhile, since the machine that runs the lines owns them.
pub(crate) fn run_and_tell<T: Device, D: Disk, S: Source, K: Sink, L: Ledger>(
    alloc: Global,
    windows: &mut Windows<T>,
    disk: &mut D,
    source: &mut S,
    sink: &mut K,
    steps: &mut Steps<L>,
) -> Status
    ensures { DevKeeps (seen T.held windows.old) (seen T.held windows.new) (session_of 1 result (use_of D.Disk disk.old disk.new)
        (use_of S.Source source.old source.new) (use_of K.Sink sink.old sink.new) steps.old steps.new) }
{
    match Windows::new(alloc) {
        Ok(none) => {
            let given = mem::replace(windows, none);
            let ran = run(alloc, given, disk, source, sink, steps);
            *windows = ran.windows;
            put_devices(ran.status, windows, sink)
        }
        Err(_) => Status::Memory,
    }
}

/// Opens the volume of the disk and runs the source's lines on it, each of them a batch. If the disk holds no volume a line
/// says so.
fn run<T: Device, D: Disk, S: Source, K: Sink, L: Ledger>(
    alloc: Global,
    windows: Windows<T>,
    disk: &mut D,
    source: &mut S,
    sink: &mut K,
    steps: &mut Steps<L>,
) -> Served<T>
    ensures keeps { DevicesKeep (seen T.held windows) (seen T.held result.windows) (session_of 1 result.status (use_of D.Disk disk.old disk.new)
        (use_of S.Source source.old source.new) (use_of K.Sink sink.old sink.new) steps.old steps.new) }
    ensures sink_count { CountGoesOn (K.faults sink.old) (K.faults sink.new) (K.is_spent sink.old) (K.is_spent sink.new) }
{
    match Kernel::open(alloc, disk) {
        Ok(kernel) => {
            let mut machine = DeviceKernel::new(kernel, windows);
            let status = mg_serve::run(alloc, &mut machine, 1, disk, source, sink, steps);
            Served {
                status,
                windows: machine.into_windows(),
            }
        }
        Err(fault) => Served {
            status: put_fault(fault, sink),
            windows,
        },
    }
}
