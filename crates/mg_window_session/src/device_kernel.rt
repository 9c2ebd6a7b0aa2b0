// A kernel with devices, as a machine whose lines a session reads.
ghost use Rattle.std.specs.Prelude.{◌≡◌};
ghost use Rattle.mg_window.specs.Attached.{seen};
ghost use Rattle.mg_window_session.specs.DeviceKernels.{windows_in};

use crate::stepping::answer;
use mg_disk::Disk;
use mg_faults::Failed;
use mg_kernel::Kernel;
use mg_model::{Line, Reply, Steps};
use mg_serve::Machine;
use mg_window::{Device, Windows};
use std::sync::ledger::Ledger;

/// A kernel, and the devices at the bases of its objects.
#[derive(Drop)]
pub(crate) struct DeviceKernel<T: Drop> {
    kernel: Kernel,
    windows: Windows<T>,
}

impl<T: Device> DeviceKernel<T> {
    /// A kernel with these devices.
    pub(crate) fn new(kernel: Kernel, windows: Windows<T>) -> DeviceKernel<T>
        ensures { result ≡ record { kernel = kernel; windows = windows } }
    {
        DeviceKernel { kernel, windows }
    }

    /// The devices that are left.
    pub(crate) fn into_windows(self) -> Windows<T>
        ensures { seen T.held result ≡ windows_in T.held self }
    {
        self.windows
    }
}

impl<T: Device> Machine for DeviceKernel<T> {
    ghost use Rattle.mg_kernel.specs.Meaning as kernels;
    ghost use Rattle.mg_window_session.specs.Machine.{device_state, device_text};
    ghost use Rattle.mg_window_session.specs.DeviceKernels.{IsStepped, IsStopped, machine_of};

    ghost is_live = { λ k. kernels.is_live k.kernel };

    ghost staged_of = { λ k. kernels.staged_of k.kernel };

    ghost words_in = { λ k. kernels.words_in k.kernel };

    ghost StandsOn = { λ D facts k d. kernels.StandsOn facts k.kernel d };

    ghost said = { λ k image. device_text (machine_of T.held k image) };

    ghost kept = { λ k image. device_state (machine_of T.held k image) };

    ghost Stepped = { λ old first ls steps steps' new. IsStepped T.held old first ls new };

    ghost StoppedIn = { λ old first ls steps steps' new. IsStopped T.held old first ls new };

    fn keep_rules<D: Disk>(&self, _disk: &D) {}

    fn staged(&self) -> usize {
        self.kernel.staged()
    }

    fn step<D: Disk, L: Ledger>(
        &mut self,
        disk: &mut D,
        line: &Line,
        steps: &mut Steps<L>,
    ) -> Result<Reply, Failed> {
        match answer(&mut self.kernel, &mut self.windows, disk, line, steps) {
            Ok(reply) => Ok(reply),
            Err(failed) => Err(failed),
        }
    }

    fn commit<D: Disk>(&mut self, disk: &mut D) -> Result<(), Failed> {
        match self.kernel.commit(disk) {
            Ok(()) => Ok(()),
            Err(failed) => Err(failed),
        }
    }
}
