// A whole session of a kernel.
ghost use Rattle.std.specs.Prelude.{◌≡◌, Err, IsOk, IsTrue, OnOk};
ghost use Rattle.std.specs.Option.{ForSome};
ghost use Rattle.mg_disk.specs.Stops.{CountRose};
ghost use Rattle.mg_faults.specs.Faults.{CountGoesOn, Rose};
ghost use Rattle.mg_kernel.specs.Meaning.{is_live, now_of, staged_of};
ghost use Rattle.mg_model.specs.Step.{after};
ghost use Rattle.mg_serve.specs.Parts.{KeepsExactly};
ghost use Rattle.mg_serve.specs.Serving.{IsWithin, Keeps, MayServe};
ghost use Rattle.mg_serve.specs.Sessions.{Ends, use_of, status_of};
ghost use Rattle.mg_session.specs.Serving.{ServesFrom};

use mg_disk::Disk;
use mg_io::{Sink, Source};
use mg_kernel::Kernel;
use mg_laws::costs_add_up;
use mg_model::Steps;
use mg_serve::{Buffers, Ended, Machine};
use std::sync::ledger::Ledger;

/// Reads lines to the end of the source, steps them and sends their replies in batches of at most 64, up to a limit on the
/// bytes. What waits in `owed` at first is dropped.
///
/// A batch closes with `batch` replies, if more than 28 blocks are staged, or at the end of the input: it is committed,
/// and then its replies are sent in one call of `put_all`.
///
/// # Errors
///
/// [`Ended::Disk`], [`Ended::Source`] and [`Ended::Sink`] come only if a call of that object failed, and
/// [`Ended::TooLong`] if more than `limit` bytes were taken. After a failed step, a fault of the source and too long an
/// input the open batch is neither committed nor answered; after a failed commit its lines may have been kept or not; after
/// a fault of the sink they were kept. The kernel is then live, except after a failed commit, and stands on the disk, except
/// after [`Ended::Disk`].
pub fn serve<D: Disk, S: Source, K: Sink, L: Ledger>(
    kernel: &mut Kernel,
    disk: &mut D,
    source: &mut S,
    sink: &mut K,
    owed: &mut Buffers,
    batch: u64,
    limit: u64,
    steps: &mut Steps<L>,
) -> Result<(), Ended>
    requires ready { MayServe ⟦<Kernel as Machine>⟧ D.Disk batch kernel.old disk.old }

    // What the sink took, what a stop leaves, and how the session ends.
    ensures serves { ForSome (D.seen disk.old) (λ image. ServesFrom (now_of kernel.old image) result (use_of D.Disk disk.old disk.new)
        (use_of S.Source source.old source.new) (use_of K.Sink sink.old sink.new) steps.old steps.new) }
    ensures ends { Ends batch limit (status_of result) (use_of S.Source source.old source.new) (use_of K.Sink sink.old sink.new) }

    // If no call failed and the input is not too long, all is done.
    ensures complete { (CountRose D.Disk disk.old disk.new → ⊥)
        → (Rose (S.faults source.old) (S.faults source.new) (S.is_spent source.new) → ⊥)
        → (Rose (K.faults sink.old) (K.faults sink.new) (K.is_spent sink.new) → ⊥)
        → IsWithin limit (S.left source.old) (IsOk result) }

    // Unless the disk failed the kernel is live and stands on the disk, and after a good end it may serve again. The two counts of
    // words rise by as much, and no count of faults falls.
    ensures keeps { Keeps ⟦<Kernel as Machine>⟧ D.Disk K.Sink kernel.old disk.old sink.old steps.old
        result kernel.new disk.new sink.new steps.new }
    ensures staged { OnOk result (staged_of kernel.new ≡ 0) }
    ensures source_count { CountGoesOn (S.faults source.old) (S.faults source.new) (S.is_spent source.old) (S.is_spent source.new) }

    // If the disk failed and the kernel is live, no commit failed, and the answered lines are held and no others.
    ensures held_disk { result ≡ Err Ended.Disk → IsTrue (is_live kernel.new) → ForSome (D.seen disk.old) (λ image.
        KeepsExactly ((D.time disk.new).left_since (D.time disk.new).moment) (after (now_of kernel.old image))
        (S.left source.old) (K.taken sink.old) (K.taken sink.new)) }
{
    costs_add_up();
    mg_serve::serve(kernel, disk, source, sink, owed, batch, limit, steps)
}
