// A volume as a graph, and the part of it that a thread or an object reaches in a number of steps, written as text.
ghost use Rattle.std.specs.Prelude.{◌≡◌, ◌+◌, ◌≤◌, ◌<◌, ◌==◌, ◌&&◌, [], All, flat_map, if◌then◌else◌, length, map};
ghost use Rattle.std.specs.Option.{option_copied};
ghost use Rattle.std.specs.List.{find};
ghost use Rattle.mg_model.specs.Limits.{thread_limit};
ghost use Rattle.mg_model.specs.Rights.{has_right};
ghost use Rattle.mg_model.specs.declared.rights.Right.TheVariants.{R};
ghost use Rattle.mg_show.specs.DotFrom.{object_part, part_text, thread_part};
ghost use Rattle.mg_show.specs.DotText.{dot_text, slot_arrow};
ghost use Rattle.mg_show.specs.Drawn.{bases_of, domains_drawn, entries_drawn, lists_ranked, nodes_ranked, part_ranked, threads_drawn};
ghost use Rattle.mg_show.specs.Marking.{is_within, named_by};
ghost use Rattle.mg_show.specs.Reached.{listed};
ghost use Rattle.mg_show.specs.Shown.{CanShow, bare, held_in, numbered, state_shown};
ghost use Rattle.mg_show.specs.Writing.{Puts, PutsOf};

use crate::graph_lines::{
    print_entry_arrow, print_object_node, print_slot_arrow, print_thread_node,
};
use crate::held::Shown;
use crate::marks::{fill, has_r, is_within, mark_opened, rank, rights_on, walk};
use crate::pages::list_of;
use crate::writer::Writer;
use mg_disk::Disk;
use mg_io::Sink;
use mg_model::{ObjRow, Slot, ThrRow};
use std::slice;

/// Writes the graph of a volume. There is a byte and a rank for each object.
pub(crate) fn put_graph<D: Disk, K: Sink>(
    shown: &Shown,
    bytes: &mut [u8],
    ranks: &mut [u64],
    disk: &mut D,
    out: &mut Writer,
    sink: &mut K,
)
    requires places { All (λ t. t.0 < thread_limit) shown.now.threads.items }
    requires long { length bytes.old ≡ length shown.now.objects }
    requires long_ranks { length ranks.old ≡ length shown.now.objects }
    requires can { CanShow D.Disk shown.now disk.old }
    ensures { PutsOf D.Disk K.Sink (held_in shown.now) (λ r. dot_text (state_shown shown.now r)) disk.old disk.new sink.old sink.new out.old out.new }
{
    mark_opened(shown, bytes);
    fill(ranks, 1);
    put_ranked(shown, &shown.threads, 1, bytes, ranks, disk, out, sink);
}

/// Writes what the thread with this number reaches in `steps` steps, the first of which goes along a slot. There is a byte and a rank
/// for each object.
pub(crate) fn put_thread_part<D: Disk, K: Sink>(
    shown: &Shown,
    number: u64,
    steps: u16,
    bytes: &mut [u8],
    ranks: &mut [u64],
    disk: &mut D,
    out: &mut Writer,
    sink: &mut K,
)
    requires places { All (λ t. t.0 < thread_limit) shown.now.threads.items }
    requires long { length bytes.old ≡ length shown.now.objects }
    requires long_ranks { length ranks.old ≡ length shown.now.objects }
    requires can { CanShow D.Disk shown.now disk.old }
    ensures { PutsOf D.Disk K.Sink (held_in shown.now) (λ r. thread_part (state_shown shown.now r) number steps) disk.old disk.new sink.old sink.new out.old out.new }
{
    let n = u64::from(steps.saturating_sub(1));
    match thread_of(&shown.threads, number) {
        Some(thread) => {
            let last = thread.1.last();
            let drawn = slice::from_ref(thread);
            put_part(shown, drawn, last.slots(), n, bytes, ranks, disk, out, sink);
        }
        None => put_part(shown, &[], &[], n, bytes, ranks, disk, out, sink),
    }
}

/// Writes what the object with this base reaches in `steps` steps. There is a byte and a rank for each object.
pub(crate) fn put_object_part<D: Disk, K: Sink>(
    shown: &Shown,
    base: u64,
    steps: u16,
    bytes: &mut [u8],
    ranks: &mut [u64],
    disk: &mut D,
    out: &mut Writer,
    sink: &mut K,
)
    requires long { length bytes.old ≡ length shown.now.objects }
    requires long_ranks { length ranks.old ≡ length shown.now.objects }
    requires can { CanShow D.Disk shown.now disk.old }
    ensures { PutsOf D.Disk K.Sink (held_in shown.now) (λ r. object_part (state_shown shown.now r) base steps) disk.old disk.new sink.old sink.new out.old out.new }
{
    let start = [Slot { base, password: 0 }];
    let n = u64::from(steps);
    put_part(shown, &[], &start, n, bytes, ranks, disk, out, sink);
}

// The thread with this number.
fn thread_of(threads: &[(u64, ThrRow)], number: u64) -> Option<&(u64, ThrRow)>
    ensures { option_copied result ≡ find (λ t. t.0 + 1 == number) threads.now }
{
    threads.iter().find(|thread| has_number(thread, number))
}

// Whether a thread has this number, which is one more than its place.
fn has_number(thread: &(u64, ThrRow), number: u64) -> bool
    ensures { result ≡ (thread.now.0 + 1 == number) }
{
    number != 0 && thread.0 == number - 1
}

// Writes these threads, and what is reached from the objects that these slots name in at most `steps` steps.
#[tactic(auto, using(crate::proofs::Learning::still_shown))]
fn put_part<D: Disk, K: Sink>(
    shown: &Shown,
    drawn: &[(u64, ThrRow)],
    slots: &[Slot],
    steps: u64,
    bytes: &mut [u8],
    ranks: &mut [u64],
    disk: &mut D,
    out: &mut Writer,
    sink: &mut K,
)
    requires few { steps ≤ 65535 }
    requires places { All (λ t. t.0 < thread_limit) drawn.now }
    requires long { length bytes.old ≡ length shown.now.objects }
    requires long_ranks { length ranks.old ≡ length shown.now.objects }
    requires can { CanShow D.Disk shown.now disk.old }
    ensures { PutsOf D.Disk K.Sink (held_in shown.now) (λ r. part_text (state_shown shown.now r) (map numbered drawn.now) (bases_of slots.now) steps) disk.old disk.new sink.old sink.new out.old out.new }
{
    mark_opened(shown, bytes);
    fill(ranks, 0);
    rank(shown, slots, 1, ranks);
    walk(shown, bytes, steps, ranks, disk, out);
    put_ranked(shown, drawn, steps, bytes, ranks, disk, out, sink);
}

// Writes these threads, the objects whose rank is at most `steps + 1`, and the lists whose rank is at most `steps`. A byte has R for a list.
fn put_ranked<D: Disk, K: Sink>(
    shown: &Shown,
    drawn: &[(u64, ThrRow)],
    steps: u64,
    bytes: &[u8],
    ranks: &[u64],
    disk: &mut D,
    out: &mut Writer,
    sink: &mut K,
)
    requires few { steps ≤ 65535 }
    requires places { All (λ t. t.0 < thread_limit) drawn.now }
    requires long { length bytes.now ≡ length shown.now.objects }
    requires long_ranks { length ranks.now ≡ length shown.now.objects }
    requires can { CanShow D.Disk shown.now disk.old }
    ensures { PutsOf D.Disk K.Sink (held_in shown.now) (λ r. part_ranked shown.now r steps bytes.now ranks.now drawn.now) disk.old disk.new sink.old sink.new out.old out.new }
{
    out.add(
        b"digraph volume {\n  rankdir=LR\n  node [shape=box style=dashed]\n",
        sink,
    );
    put_thread_nodes(drawn, out, sink);
    put_nodes(shown, steps, bytes, ranks, out, sink);
    put_domains(shown, drawn, out, sink);
    put_lists(shown, steps, bytes, ranks, disk, out, sink);
    out.add(b"}\n", sink);
}

// Writes the nodes of threads, each of which has the place before its number.
fn put_thread_nodes<K: Sink>(threads: &[(u64, ThrRow)], out: &mut Writer, sink: &mut K)
    requires { All (λ t. t.0 < thread_limit) threads.now }
    ensures { Puts K.Sink (threads_drawn threads.now) sink.old sink.new out.old out.new }
{
    for t in threads {
        out.line(print_thread_node(t.0 + 1), sink);
    }
}

// Writes the nodes of the objects whose rank is at most `steps + 1`. The byte of each has R if it is read as a list.
fn put_nodes<K: Sink>(
    shown: &Shown,
    steps: u64,
    bytes: &[u8],
    ranks: &[u64],
    out: &mut Writer,
    sink: &mut K,
)
    requires few { steps ≤ 65535 }
    requires long { length bytes.now ≡ length shown.now.objects }
    requires long_ranks { length ranks.now ≡ length shown.now.objects }
    ensures { Puts K.Sink (nodes_ranked steps bytes.now ranks.now shown.now.objects) sink.old sink.new out.old out.new }
{
    for i in 0..shown.count() {
        let row = shown.row(i);
        if is_within(ranks[i], steps + 1) {
            out.line(print_object_node(row, has_r(bytes[i])), sink);
        }
    }
}

/// Writes an arrow for each slot of the present frames of threads, which have their places.
fn put_domains<K: Sink>(shown: &Shown, threads: &[(u64, ThrRow)], out: &mut Writer, sink: &mut K)
    requires { All (λ t. t.0 < thread_limit) threads.now }
    ensures { Puts K.Sink (domains_drawn shown.now threads.now) sink.old sink.new out.old out.new }
{
    for t in threads {
        let last = t.1.last();
        put_slots(shown, t.0 + 1, last.slots(), out, sink);
    }
}

fn put_slots<K: Sink>(shown: &Shown, thread: u64, slots: &[Slot], out: &mut Writer, sink: &mut K)
    ensures { Puts K.Sink (flat_map (slot_arrow (bare shown.now) thread) slots.now) sink.old sink.new out.old out.new }
{
    for slot in slots {
        let bits = rights_on(shown, slot.base, slot.password);
        out.line(print_slot_arrow(thread, slot.base, bits), sink);
    }
}

/// Writes the arrows of the lists whose rank is from 1 to `steps`. A byte has R for a list. Each of them is read once.
#[tactic(auto, using(crate::proofs::Learning::still_shown))]
fn put_lists<D: Disk, K: Sink>(
    shown: &Shown,
    steps: u64,
    bytes: &[u8],
    ranks: &[u64],
    disk: &mut D,
    out: &mut Writer,
    sink: &mut K,
)
    requires long { length bytes.now ≡ length shown.now.objects }
    requires long_ranks { length ranks.now ≡ length shown.now.objects }
    requires can { CanShow D.Disk shown.now disk.old }
    ensures { PutsOf D.Disk K.Sink (held_in shown.now) (λ r. lists_ranked shown.now r steps bytes.now ranks.now shown.now.objects) disk.old disk.new sink.old sink.new out.old out.new }
{
    for i in 0..shown.count() {
        let row = shown.row(i);
        if is_within(ranks[i], steps) & has_r(bytes[i]) {
            let list = list_of(shown, row, disk, out);
            put_entries(shown, row.base(), list.as_slice(), out, sink);
        }
    }
}

// The arrows of entries. A place with base 0 is empty: no object lies there.
fn put_entries<K: Sink>(shown: &Shown, list: u64, slots: &[Slot], out: &mut Writer, sink: &mut K)
    ensures { Puts K.Sink (entries_drawn shown.now list (named_by slots.now)) sink.old sink.new out.old out.new }
{
    for slot in slots {
        if slot.base != 0 {
            let bits = rights_on(shown, slot.base, slot.password);
            out.line(print_entry_arrow(list, slot.base, bits), sink);
        }
    }
}
