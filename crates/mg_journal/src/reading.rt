// Reading the journal: where the bodies of its open segments lie.
ghost use Rattle.std.specs.Prelude.{◌≡◌, ◌≤◌, ◌<◌, ◌+◌, ◌&&◌, All, IfOk, OnErr, OnOk, false, length, nat_le, nat_lt, true};
ghost use Rattle.std.specs.Option.{ForSome};
ghost use Rattle.mg_disk.specs.Disk.{Image, block_at};
ghost use Rattle.mg_disk.specs.Reads.{OnlyReads, OnlyReadsBy};
ghost use Rattle.mg_model.specs.Layout.{body_limit, globals_block, segment_count, segment_index};
ghost use Rattle.mg_model.specs.Replay.{body_count, is_open, segment_fits};
ghost use Rattle.mg_journal.specs.Contents.{bodies_fit};
ghost use Rattle.mg_journal.specs.Newest.{TakesIn};
ghost use Rattle.mg_journal.specs.Places.{IsPlace, place_limit, places_from, places_of};

use crate::faults::ViewFault;
use crate::places::{gate_of, index_of, is_opened};
use crate::table::Table;
use mg_bytes::number_at;
use mg_disk::{BLOCK_SIZE, Block, Disk};
use mg_faults::Failed;
use mg_model::layout::{BODY_LIMIT, GLOBALS_BLOCK};

// Whether a body may belong to this block: it lies after the journal and on the volume.
fn is_home(block: u64, total: u64) -> bool
    ensures { result ≡ (nat_le globals_block block && nat_lt block total) }
{
    block >= GLOBALS_BLOCK && block < total
}

// Enters the places of the bodies of a segment with this index into the table, in order. False if the index does not fit: it
// has more than 160 bodies, or one that belongs to no block after the journal.
fn add_bodies(index: &Block, segment: u64, total: u64, table: &mut Table) -> bool
    requires segment { segment < segment_count }
    requires fits_in_table { length table.old + body_limit ≤ place_limit }
    ensures fits { (image : Image) → block_at image (segment_index segment) ≡ index.now → bodies_fit total image segment ≡ result }
    ensures newest { result ≡ true → (image : Image) → block_at image (segment_index segment) ≡ index.now → TakesIn (places_from image segment 0 (body_count image segment)) table.old table.new }
    ensures fit { All (IsPlace total) table.old → All (IsPlace total) table.new }
    ensures at_most_160_more { length table.new ≤ length table.old + body_limit }
{
    let count = number_at(index, 0);
    if count > BODY_LIMIT {
        return false;
    }
    let first = index_of(segment) + 1;
    for k in 0..count {
        let home = number_at(index, 8 + 8 * k as usize);
        if !is_home(home, total) {
            return false;
        }
        table.put((home, first + k));
    }
    true
}

// Whether a segment is open.
fn is_open<D: Disk>(disk: &mut D, segment: u64) -> Result<bool, Failed>
    requires segment { segment < segment_count }
    requires within_disk { globals_block ≤ D.block_count disk.old }
    ensures open_now { IfOk result (λ opened. ForSome (D.seen disk.old) (λ image. is_open image segment ≡ opened)) }
    ensures reads { OnlyReads D.Disk disk.old disk.new result }
{
    let mut gate = [0; BLOCK_SIZE];
    disk.read(gate_of(segment), &mut gate)?;
    Ok(is_opened(&gate))
}

// Enters the places of the bodies of a segment into the table, whether it is open or not.
fn look_index<D: Disk>(
    disk: &mut D,
    segment: u64,
    total: u64,
    table: &mut Table,
) -> Result<(), ViewFault>
    requires segment { segment < segment_count }
    requires blocks { globals_block ≤ D.block_count disk.old }
    requires fits_in_table { length table.old + body_limit ≤ place_limit }
    ensures fits { OnOk result (ForSome (D.seen disk.old) (λ image. bodies_fit total image segment ≡ true)) }
    ensures newest { OnOk result (ForSome (D.seen disk.old) (λ image. TakesIn (places_from image segment 0 (body_count image segment)) table.old table.new)) }
    ensures damaged { result ≡ Err ViewFault.Damaged → ForSome (D.seen disk.old) (λ image. bodies_fit total image segment ≡ false) }
    ensures fit { All (IsPlace total) table.old → All (IsPlace total) table.new }
    ensures at_most_160_more { length table.new ≤ length table.old + body_limit }
    ensures reads { OnlyReadsBy D.Disk disk.old disk.new (result ≡ Err ViewFault.Disk) }
{
    let mut index = [0; BLOCK_SIZE];
    match disk.read(index_of(segment), &mut index) {
        Ok(()) => {
            if add_bodies(&index, segment, total, table) {
                Ok(())
            } else {
                Err(ViewFault::Damaged)
            }
        }
        Err(Failed) => Err(ViewFault::Disk),
    }
}

/// Enters the places of the bodies of a segment into the table, which has none if it is closed.
///
/// [`ViewFault::Damaged`] comes exactly if it is open and does not fit, [`ViewFault::Disk`] only if a read failed.
pub(crate) fn look_segment<D: Disk>(
    disk: &mut D,
    segment: u64,
    total: u64,
    table: &mut Table,
) -> Result<(), ViewFault>
    requires segment { segment < segment_count }
    requires blocks { globals_block ≤ D.block_count disk.old }
    requires fits_in_table { length table.old + body_limit ≤ place_limit }
    ensures fits { OnOk result (ForSome (D.seen disk.old) (λ image. segment_fits total image segment ≡ true)) }
    ensures newest { OnOk result (ForSome (D.seen disk.old) (λ image. TakesIn (places_of image segment) table.old table.new)) }
    ensures damaged { result ≡ Err ViewFault.Damaged → ForSome (D.seen disk.old) (λ image. segment_fits total image segment ≡ false) }
    ensures fit { All (IsPlace total) table.old → All (IsPlace total) table.new }
    ensures at_most_160_more { length table.new ≤ length table.old + body_limit }
    ensures reads { OnlyReadsBy D.Disk disk.old disk.new (result ≡ Err ViewFault.Disk) }
{
    match is_open(disk, segment) {
        Ok(true) => look_index(disk, segment, total, table),
        Ok(false) => Ok(()),
        Err(Failed) => Err(ViewFault::Disk),
    }
}
