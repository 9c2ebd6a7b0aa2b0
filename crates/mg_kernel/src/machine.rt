// The kernel as a machine whose lines a session reads.

use crate::kernel::Kernel;
use mg_disk::Disk;
use mg_faults::Failed;
use mg_laws::{costs_add_up, warm_keys_are_kept};
use mg_model::{Line, Reply, Steps};
use mg_serve::Machine;
use std::sync::ledger::Ledger;

impl Machine for Kernel {
    ghost use Rattle.mg_kernel.specs.Meaning as kernels;
    ghost use Rattle.mg_model.specs.Print.{replies_text};
    ghost use Rattle.mg_model.specs.Step.{after};
    ghost use Rattle.mg_kernel.specs.Stepping.{IsSpent, IsStepped};

    ghost is_live = { λ k. kernels.is_live k };

    ghost staged_of = { λ k. kernels.staged_of k };

    ghost words_in = { λ k. kernels.words_in k };

    ghost StandsOn = { λ D facts k d. kernels.StandsOn facts k d };

    ghost said = { λ k image. replies_text (kernels.now_of k image) };

    ghost kept = { λ k image. after (kernels.now_of k image) };

    ghost Stepped = { λ old first ls steps steps' new. IsStepped old first ls steps steps' new };

    ghost StoppedIn = { λ old first ls steps steps' new. IsSpent old first ls steps steps' new };

    fn keep_rules<D: Disk>(&self, _disk: &D) {
        warm_keys_are_kept();
    }

    fn staged(&self) -> usize {
        Kernel::staged(self)
    }

    fn step<D: Disk, L: Ledger>(
        &mut self,
        disk: &mut D,
        line: &Line,
        steps: &mut Steps<L>,
    ) -> Result<Reply, Failed> {
        warm_keys_are_kept();
        costs_add_up();
        match Kernel::step(self, disk, line, steps) {
            Ok(reply) => Ok(reply),
            Err(failed) => Err(failed),
        }
    }

    fn commit<D: Disk>(&mut self, disk: &mut D) -> Result<(), Failed> {
        match Kernel::commit(self, disk) {
            Ok(()) => Ok(()),
            Err(failed) => Err(failed),
        }
    }
}
