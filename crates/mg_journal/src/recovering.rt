// Recovery: what open segments hold is written to its homes, and then the gates are closed.
ghost use Rattle.std.specs.Prelude.{◌≡◌, ◌≤◌, ◌<◌, ℕ, OnOk, Some, true};
ghost use Rattle.std.specs.Option.{ForSome};
ghost use Rattle.mg_disk.specs.Stops.{DiskCalls, Leaves, LeftOr, NothingPending};
ghost use Rattle.mg_disk.specs.Reads.{Becomes};
ghost use Rattle.mg_model.specs.Layout.{globals_block, segment_count};
ghost use Rattle.mg_model.specs.Replay.{is_open, replay};
ghost use Rattle.mg_journal.specs.Contents.{SameContents};
ghost use Rattle.mg_journal.specs.Looked.{IsViewOf};
ghost use Rattle.mg_journal.specs.Recovery.{AreOpen, ClosedOne, ClosesUpTo, IsRecovered, IsStill, MayCloseOne, StaysStill};

use crate::committing::write_firmly;
use crate::places::{SEGMENTS, closed_gate, gate_of, is_opened};
use crate::view::View;
use mg_disk::{BLOCK_SIZE, Disk};
use mg_faults::Failed;

// Closes a segment's gate, which is open, and syncs it.
fn close_open<D: Disk>(disk: &mut D, segment: u64) -> Result<(), Failed>
    requires place { segment < segment_count }
    requires within_disk { globals_block ≤ D.block_count disk.old }
    requires gate { ForSome (D.seen disk.old) (λ image. is_open image segment ≡ true) }
    ensures any_moment { NothingPending D.Disk disk.old → ForSome (D.seen disk.old) (λ image. Leaves D.Disk disk.old disk.new (MayCloseOne segment image)) }
    ensures may { Becomes (MayCloseOne segment) (D.seen disk.old) (D.seen disk.new) }
    ensures closed { OnOk result (Becomes (ClosedOne segment) (D.seen disk.old) (D.seen disk.new)) }
    ensures settled { OnOk result (NothingPending D.Disk disk.new) }
    ensures calls { DiskCalls D.Disk disk.old disk.new result }
{
    write_firmly(disk, gate_of(segment), closed_gate())
}

// Closes a segment's gate if it is open, and syncs it. It is read, unless it is known to be open.
fn close_gate<D: Disk>(disk: &mut D, segment: u64, is_known: bool) -> Result<(), Failed>
    requires place { segment < segment_count }
    requires within_disk { globals_block ≤ D.block_count disk.old }
    requires known { is_known ≡ true → ForSome (D.seen disk.old) (λ image. is_open image segment ≡ true) }
    ensures any_moment { NothingPending D.Disk disk.old → ForSome (D.seen disk.old) (λ image. Leaves D.Disk disk.old disk.new (MayCloseOne segment image)) }
    ensures may { Becomes (MayCloseOne segment) (D.seen disk.old) (D.seen disk.new) }
    ensures closed { OnOk result (Becomes (ClosedOne segment) (D.seen disk.old) (D.seen disk.new)) }
    ensures settled { OnOk result (NothingPending D.Disk disk.old → NothingPending D.Disk disk.new) }
    ensures calls { DiskCalls D.Disk disk.old disk.new result }
{
    if is_known {
        return close_open(disk, segment);
    }
    let mut gate = [0; BLOCK_SIZE];
    disk.read(gate_of(segment), &mut gate)?;
    if is_opened(&gate) {
        close_open(disk, segment)
    } else {
        Ok(())
    }
}

// Closes the gates that are open, first to last, with a sync after each. The first `opened` ones are, and are not read. It is for
// an image that is its own replay: that one's homes are written.
fn close_gates<D: Disk>(disk: &mut D, opened: u64) -> Result<(), Failed>
    requires within_disk { globals_block ≤ D.block_count disk.old }
    requires gates { ForSome (D.seen disk.old) (AreOpen 0 opened) }
    ensures any_moment { NothingPending D.Disk disk.old → ForSome (D.seen disk.old) (λ image. (total : ℕ) → replay image total ≡ Some image → Leaves D.Disk disk.old disk.new (IsStill total image)) }
    ensures closed { OnOk result (Becomes (ClosesUpTo segment_count) (D.seen disk.old) (D.seen disk.new)) }
    ensures still { Becomes StaysStill (D.seen disk.old) (D.seen disk.new) }
    ensures settled { OnOk result (NothingPending D.Disk disk.old → NothingPending D.Disk disk.new) }
    ensures calls { DiskCalls D.Disk disk.old disk.new result }
{
    for segment in 0..SEGMENTS {
        close_gate(disk, segment, segment < opened)?;
    }
    Ok(())
}

/// Recovers a disk that this view fits, whatever is pending there. A run that was killed may have left what reads give pending, and a
/// stop may still lose it then: so it is synced before the first home is written.
#[tactic(auto, using(crate::proofs::OpenSteps::settled_then))]
pub(crate) fn sync_and_recover<D: Disk>(disk: &mut D, view: &mut View) -> Result<(), Failed>
    requires looks { IsViewOf D.Disk view.old disk.old }
    ensures any_moment { ForSome (D.seen disk.old) (λ image. Leaves D.Disk disk.old disk.new (LeftOr D.Disk disk.old (SameContents view.old.total image))) }
    ensures contents { Becomes (SameContents view.old.total) (D.seen disk.old) (D.seen disk.new) }
    ensures recovered { OnOk result (Becomes (IsRecovered view.old.total) (D.seen disk.old) (D.seen disk.new)) }
    ensures settled { OnOk result (NothingPending D.Disk disk.new) }
    ensures same { view.new ≡ view.old }
    ensures calls { DiskCalls D.Disk disk.old disk.new result }
{
    disk.sync()?;
    recover(disk, view, 0)
}

/// Recovers a disk that this view fits. Each home is written once, from its newest body, in the order of blocks, and is
/// synced; then the gates are closed, first to last. The bodies are read from the journal, and so are the gates, but for the first
/// `opened` ones, which are open.
pub(crate) fn recover<D: Disk>(disk: &mut D, view: &mut View, opened: u64) -> Result<(), Failed>
    requires looks { IsViewOf D.Disk view.old disk.old }
    requires at_most_8_open { opened ≤ segment_count }
    requires gates { ForSome (D.seen disk.old) (AreOpen 0 opened) }
    ensures any_moment { NothingPending D.Disk disk.old → ForSome (D.seen disk.old) (λ image. Leaves D.Disk disk.old disk.new (SameContents view.old.total image)) }
    ensures contents { Becomes (SameContents view.old.total) (D.seen disk.old) (D.seen disk.new) }
    ensures recovered { OnOk result (Becomes (IsRecovered view.old.total) (D.seen disk.old) (D.seen disk.new)) }
    ensures settled { OnOk result (NothingPending D.Disk disk.old → NothingPending D.Disk disk.new) }
    ensures same { view.new ≡ view.old }
    ensures calls { DiskCalls D.Disk disk.old disk.new result }
{
    view.write_homes(disk)?;
    close_gates(disk, opened)
}
