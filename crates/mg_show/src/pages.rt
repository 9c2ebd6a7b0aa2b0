// The pages of objects and the capability lists in them, read one by one.
ghost use Rattle.std.specs.Prelude.{◌≡◌, ◌≤◌, ◌<◌, [], None, OnErr, OnOk, if◌then◌else◌, length};
ghost use Rattle.std.specs.Option.{ForSome};
ghost use Rattle.mg_check.specs.Reads.{CanRead, contents};
ghost use Rattle.mg_disk.specs.Stops.{CountRose};
ghost use Rattle.mg_disk.specs.Reads.{OnlyRead};
ghost use Rattle.mg_journal.specs.Looked.{Fits};
ghost use Rattle.mg_model.specs.Access.{pairs_of, pairs_under, holds};
ghost use Rattle.mg_model.specs.Bytes.{block_words};
ghost use Rattle.mg_model.specs.Replay.{block_of, replay};
ghost use Rattle.mg_model.specs.Volume.{page_words};
ghost use Rattle.mg_model.specs.declared.rights.Right.TheVariants.{R};
ghost use Rattle.mg_show.specs.Marking.{Learns, named_by};
ghost use Rattle.mg_show.specs.Reached.{listed};
ghost use Rattle.mg_show.specs.Shown.{CanShow, held_in, state_shown};
ghost use Rattle.mg_show.specs.WordText.{words_read};
ghost use Rattle.mg_show.specs.Writing.{Reads};

use crate::held::Shown;
use crate::writer::Writer;
use mg_apd::entries;
use mg_disk::{BLOCK_SIZE, Block, Disk};
use mg_io::Failed;
use mg_journal::View;
use mg_layout::{Geometry, number_at};
use mg_model::{Few, ObjRow, Right, Slot};

/// Reads a page of an object, and answers whether a frame holds it; one that no frame holds has words 0. After a fault nothing is
/// read. A read that fails is remembered by the writer.
pub(crate) fn read_page<D: Disk>(
    shown: &Shown,
    page: u64,
    block: &mut Block,
    disk: &mut D,
    out: &mut Writer,
) -> bool
    requires some { 1 ≤ page }
    requires can { CanShow D.Disk shown.now disk.old }
    ensures page { out.new.fault ≡ None → ForSome (contents D.Disk (held_in shown.now) disk.old) (λ r. words_read result block.new ≡ page_words r (length shown.now.frames) shown.now.frames page) }
    ensures reads { Reads D.Disk disk.old disk.new out.old out.new }
{
    if out.has_failed() {
        return false;
    }
    match shown.frames.bound_frame(page) {
        Some(frame) => {
            let first = Geometry::of(shown.frames.len()).first_frame;
            match read_block(&shown.view, disk, first + frame, block) {
                Ok(()) => true,
                Err(Failed) => {
                    out.fail_reading();
                    false
                }
            }
        }
        None => false,
    }
}

/// Gives block `i` of the contents.
///
/// # Errors
///
/// `Failed` if a read fails.
pub(crate) fn read_block<D: Disk>(
    view: &View,
    disk: &mut D,
    i: u64,
    block: &mut Block,
) -> Result<(), Failed>
    requires place { i < view.now.total }
    requires can { CanRead D.Disk view.now.total (Fits view.now) disk.old }
    ensures block { OnOk result (ForSome (contents D.Disk (λ image. replay image view.now.total) disk.old) (λ r. block.new ≡ block_of r i)) }
    ensures cause { OnErr result (CountRose D.Disk disk.old disk.new) }
    ensures reads { OnlyRead D.Disk disk.old disk.new }
{
    view.read(disk, i, block)
}

/// The entries of a list: each is the base of an object and a password.
pub(crate) type List = Few<Slot, 255>;

/// The list that a slot opens now; an empty one if its password does not open it, or after a fault.
pub(crate) fn list_under<D: Disk>(shown: &Shown, slot: Slot, disk: &mut D, out: &mut Writer) -> List
    requires can { CanShow D.Disk shown.now disk.old }
    ensures { Learns D.Disk (held_in shown.now) (λ r. named_by result ≡ pairs_under (state_shown shown.now r).objects shown.now.counters.period slot) disk.old disk.new out.old out.new }
{
    match shown.objects.get(slot.base) {
        Some(row) => {
            if row.holds(slot.password, Right::R, shown.counters.period()) {
                list_of(shown, row, disk, out)
            } else {
                Few::new()
            }
        }
        None => Few::new(),
    }
}

/// The list in an object; an empty one after a fault.
pub(crate) fn list_of<D: Disk>(shown: &Shown, row: &ObjRow, disk: &mut D, out: &mut Writer) -> List
    requires can { CanShow D.Disk shown.now disk.old }
    ensures { Learns D.Disk (held_in shown.now) (λ r. named_by result ≡ listed shown.now r row.now) disk.old disk.new out.old out.new }
{
    let mut block = [0; BLOCK_SIZE];
    let is_held = read_page(shown, row.base() / BLOCK_SIZE as u64, &mut block, disk, out);
    list_read(is_held, &block)
}

// The list in a page that was read.
fn list_read(is_held: bool, block: &Block) -> List
    ensures { named_by result ≡ pairs_of (words_read is_held block.now) }
{
    if is_held { list_in(block) } else { Few::new() }
}

// The list in a block.
fn list_in(block: &Block) -> List
    ensures { named_by result ≡ pairs_of (block_words block.now) }
{
    let mut list = Few::new();
    for k in 0..entries(number_at(block, 0)) {
        let at = 16 * k as usize;
        let base = number_at(block, at + 16);
        let password = number_at(block, at + 24);
        list.add(Slot { base, password });
    }
    list
}
