// Who may reach what, written as text.
ghost use Rattle.std.specs.Prelude.{◌≡◌, flat_map, length};
ghost use Rattle.mg_rules.specs.RowsRead.{ArePlaced};
ghost use Rattle.mg_model.specs.Access.{capabilities, holds};
ghost use Rattle.mg_model.specs.Limits.{thread_limit};
ghost use Rattle.mg_model.specs.Rights.{has_right};
ghost use Rattle.mg_show.specs.Marking.{Finds};
ghost use Rattle.mg_show.specs.Reached.{bits_line, doors, enter_line, marked_reach};
ghost use Rattle.mg_show.specs.ReachText.{reach_text};
ghost use Rattle.mg_show.specs.Shown.{CanShow, held_in, state_shown};
ghost use Rattle.mg_show.specs.Writing.{Puts, PutsOf};

use crate::held::Shown;
use crate::lines::{print_enter, print_reach};
use crate::marks::{clear, mark};
use crate::pages::list_under;
use crate::writer::Writer;
use mg_disk::Disk;
use mg_io::Sink;
use mg_model::{ObjRow, Slot};

/// Writes for each thread, in order, the objects that it may reach now, and the entries at which it may enter. There is a byte for each
/// object. A right that a list gives is found once.
#[tactic(auto, using(crate::proofs::Learning::still_shown))]
pub(crate) fn put_reach<D: Disk, K: Sink>(
    shown: &Shown,
    bytes: &mut [u8],
    disk: &mut D,
    out: &mut Writer,
    sink: &mut K,
)
    requires placed { ArePlaced thread_limit shown.now.threads.items }
    requires long { length bytes.old ≡ length shown.now.objects }
    requires can { CanShow D.Disk shown.now disk.old }
    ensures { PutsOf D.Disk K.Sink (held_in shown.now) (λ r. reach_text (state_shown shown.now r)) disk.old disk.new sink.old sink.new out.old out.new }
{
    shown.objects.objects().keep_rules();
    for i in 0..shown.threads.len() {
        let thread = &shown.threads[i];
        clear(bytes);
        let last = thread.1.last();
        mark_lists(shown, last.slots(), bytes, disk, out);
        put_marked(thread.0 + 1, bytes, shown, out, sink);
    }
}

// Each object gets, in its byte, the rights that the lists give on it which these slots open.
#[tactic(auto, using(crate::proofs::Learning::still_shown))]
fn mark_lists<D: Disk>(
    shown: &Shown,
    slots: &[Slot],
    bytes: &mut [u8],
    disk: &mut D,
    out: &mut Writer,
)
    requires long { length bytes.old ≡ length shown.now.objects }
    requires can { CanShow D.Disk shown.now disk.old }
    ensures { Finds D.Disk (held_in shown.now) has_right (holds shown.now.counters.period) shown.now.objects (λ r. capabilities (state_shown shown.now r).objects shown.now.counters.period slots.now) disk.old disk.new bytes.old bytes.new out.old out.new }
{
    for i in 0..slots.len() {
        let list = list_under(shown, slots[i], disk, out);
        mark(shown, list.as_slice(), bytes);
    }
}

// Writes the objects that a thread may reach, with the rights in the byte of each, and the entries at which it may enter.
fn put_marked<K: Sink>(thread: u64, bytes: &[u8], shown: &Shown, out: &mut Writer, sink: &mut K)
    requires long { length bytes.now ≡ length shown.now.objects }
    ensures { Puts K.Sink (marked_reach thread bytes.now shown.now.objects) sink.old sink.new out.old out.new }
{
    for i in 0..shown.count() {
        let bits = bytes[i];
        let row = shown.row(i);
        put_rights(thread, row.base(), bits, out, sink);
        put_doors(thread, bits, row, out, sink);
    }
}

// Writes the line of an object, and nothing if there is no right.
fn put_rights<K: Sink>(thread: u64, base: u64, bits: u8, out: &mut Writer, sink: &mut K)
    ensures { Puts K.Sink (bits_line thread base bits) sink.old sink.new out.old out.new }
{
    if bits % 64 == 0 {
        return;
    }
    out.line(print_reach(thread, base, bits), sink);
}

// Writes the entries of an object, and nothing if the thread may not enter.
fn put_doors<K: Sink>(thread: u64, bits: u8, row: &ObjRow, out: &mut Writer, sink: &mut K)
    ensures { Puts K.Sink (doors thread (has_right bits) row.now) sink.old sink.new out.old out.new }
{
    if bits / 16 % 2 == 1 {
        put_entries(thread, row.entries(), out, sink);
    }
}

// Writes entries at which a thread may enter.
fn put_entries<K: Sink>(thread: u64, entries: &[u64], out: &mut Writer, sink: &mut K)
    ensures { Puts K.Sink (flat_map (enter_line thread) entries.now) sink.old sink.new out.old out.new }
{
    for entry in entries {
        out.line(print_enter(thread, *entry), sink);
    }
}
