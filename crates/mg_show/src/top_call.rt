// All that the program does.
ghost use Rattle.std.specs.Prelude.{◌≡◌, ◌⊎◌, ◌≤◌, IfSome, None, Some, length};
ghost use Rattle.std.specs.Io.KnownBytes.{Appends};
ghost use Rattle.std.specs.Option.{ForSome};
ghost use Rattle.mg_rules.specs.RowsRead.{AreKept, ArePlaced, IsReadAs};
ghost use Rattle.mg_disk.specs.Stops.{CountRose, WritesNothing};
ghost use Rattle.mg_faults.specs.Faults.{Rose};
ghost use Rattle.mg_io.specs.Arguments.{arguments};
ghost use Rattle.mg_io.specs.Known.{AppendsPrefix};
ghost use Rattle.mg_journal.specs.Looked.{Fits};
ghost use Rattle.mg_model.specs.Layout.{total_blocks};
ghost use Rattle.mg_model.specs.Limits.{thread_limit};
ghost use Rattle.mg_model.specs.State.{State};
ghost use Rattle.mg_model.specs.Volume.{Is, volume};
ghost use Rattle.mg_serve.specs.Sessions.{IsDoneOrMemory};
ghost use Rattle.mg_show.specs.Commands.{spelled, text_of};
ghost use Rattle.mg_show.specs.Headline.{ShowKeeps, UsageKeeps};
ghost use Rattle.mg_show.specs.Putting.{ShowsRows};
ghost use Rattle.mg_show.specs.Shown.{CanShow, held_in, state_shown};
ghost use Rattle.mg_show.specs.Writing.{PutsOf};
ghost use Rattle.mg_space.specs.Space.{ArePaid};
ghost use Rattle.mg_commands.specs.Headline.{EndsUnopened, OnVolume, TellsOfNone};

use crate::command::{Text, read_words};
use crate::graph::{put_graph, put_object_part, put_thread_part};
use crate::held::{Shown, shown_of};
use crate::reach::put_reach;
use crate::state::put_state;
use crate::writer::Writer;
use mg_check::{VolumeRows, read_volume};
use mg_commands::{put_fault, put_usage};
use mg_disk::Disk;
use mg_io::Sink;
use mg_journal::View;
use mg_objects::Objects;
use mg_serve::Status;
use std::alloc::Global;

/// Writes what a volume holds as text. The words are those after the program's name.
///
/// - `VOLUME`, or `VOLUME state`, writes the whole state, a line for each thing in it: what the volume was made with and its counters;
///   each account; each object with its passwords, entries and extension; each thread with its frames and their slots; and each
///   word that is not 0.
/// - `VOLUME reach` writes who may reach what: for each thread and each object the letters of the rights that an access of the thread
///   would have there now, and each entry at which it may enter.
/// - `VOLUME dot` writes a graph in Graphviz's language: a node for each thread and each object, an arrow for each slot of a present frame,
///   and one for each entry of an object that a thread reads as a capability list now, with the letters of the rights that the password
///   gives there now. An arrow that counts for nothing is dashed.
/// - `VOLUME dot thread NUMBER STEPS` and `VOLUME dot object BASE STEPS` write the part of that graph that the thread or the object reaches
///   in at most STEPS steps, 1 to 4,096. A step goes along an arrow.
///
/// The disk is only read. [`Status::NoVolume`] comes exactly if it holds no volume, with the line `open not`, `open old` or `open
/// damaged`. [`Status::Memory`] comes before anything is written. [`Status::Disk`] and [`Status::Sink`] come only if a call of the
/// disk or of the sink failed; what was written is then a first part of the text.
///
/// Other words get the line `usage` and [`Status::Usage`]; the disk is then left alone.
pub fn top_show<D: Disk, K: Sink>(
    alloc: Global,
    words: &[String],
    disk: &mut D,
    sink: &mut K,
) -> Status
    ensures shows { (text : Text) → spelled (arguments words.now) ≡ Some text
        → ShowKeeps D.Disk K.Sink text result disk.old disk.new sink.old sink.new }
    ensures usage { spelled (arguments words.now) ≡ None → UsageKeeps K.Sink result disk.old disk.new sink.old sink.new }
{
    match read_words(words) {
        Some(text) => show(alloc, text, disk, sink),
        None => put_usage(sink),
    }
}

/// Writes this text of the volume that the disk holds.
fn show<D: Disk, K: Sink>(alloc: Global, text: Text, disk: &mut D, sink: &mut K) -> Status
    ensures { ShowKeeps D.Disk K.Sink text result disk.old disk.new sink.old sink.new }
{
    print_text(alloc, text, disk, sink)
}

/// Writes the text, or the line of what the disk holds in place of a volume.
fn print_text<D: Disk, K: Sink>(alloc: Global, text: Text, disk: &mut D, sink: &mut K) -> Status
    ensures which { (result ≡ Status.Done) ⊎ EndsUnopened result }
    ensures done { result ≡ Status.Done → ForSome (D.seen disk.old) (λ image. (s : State) × (volume image ≡ Is s) × Appends (K.taken sink.old) (K.taken sink.new) (text_of text s)) }
    ensures prefix { OnVolume (D.seen disk.old) (λ s. AppendsPrefix (K.taken sink.old) (K.taken sink.new) (text_of text s)) }
    ensures writes { WritesNothing D.Disk disk.old disk.new }
    ensures without { TellsOfNone D.Disk K.Sink result disk.old disk.new sink.old sink.new }
    ensures memory { result ≡ Status.Memory → sink.new ≡ sink.old }
    ensures disk { result ≡ Status.Disk → CountRose D.Disk disk.old disk.new }
    ensures sink { result ≡ Status.Sink → Rose (K.faults sink.old) (K.faults sink.new) (K.is_spent sink.new) }
    ensures complete { OnVolume (D.seen disk.old) (λ _. (CountRose D.Disk disk.old disk.new → ⊥)
        → (Rose (K.faults sink.old) (K.faults sink.new) (K.is_spent sink.new) → ⊥) → IsDoneOrMemory result) }
{
    match read_volume(alloc, disk) {
        Ok((view, rows)) => show_rows(alloc, text, view, rows, disk, sink),
        Err(fault) => put_fault(fault, sink),
    }
}

/// Writes this text of the volume whose rows these are.
fn show_rows<D: Disk, K: Sink>(
    alloc: Global,
    text: Text,
    view: View,
    rows: VolumeRows,
    disk: &mut D,
    sink: &mut K,
) -> Status
    requires told { ForSome (D.seen disk.old) (IsReadAs rows) }
    requires kept { AreKept rows }
    requires fits { ForSome (D.seen disk.old) (λ image. Fits view image) }
    requires total { view.total ≡ total_blocks rows.params.frames }
    requires within_disk { total_blocks rows.params.frames ≤ D.block_count disk.old }
    ensures { ShowsRows D.Disk K.Sink text result disk.old disk.new sink.old sink.new }
{
    let mut out = match Writer::new(alloc) {
        Ok(out) => out,
        Err(_) => return Status::Memory,
    };
    let shown = match shown_of(alloc, rows, view) {
        Some(shown) => shown,
        None => return Status::Memory,
    };
    match room_of(alloc, shown.objects.objects()) {
        Some((mut bytes, mut ranks)) => {
            put_text(text, &shown, &mut bytes, &mut ranks, disk, &mut out, sink);
            out.finish(sink)
        }
        None => Status::Memory,
    }
}

// A byte and a rank for each object. None if there is not enough memory.
fn room_of(alloc: Global, objects: &Objects) -> Option<(Vec<u8>, Vec<u64>)>
    ensures bytes { IfSome result (λ room. length room.0.items ≡ length objects.now) }
    ensures ranks { IfSome result (λ room. length room.1.items ≡ length objects.now) }
{
    let mut bytes = Vec::new(alloc);
    let mut ranks = Vec::new(alloc);
    bytes.resize(objects.len(), 0).ok()?;
    ranks.resize(objects.len(), 0).ok()?;
    Some((bytes, ranks))
}

// Writes this text of a volume. There is a byte and a rank for each object.
fn put_text<D: Disk, K: Sink>(
    text: Text,
    shown: &Shown,
    bytes: &mut [u8],
    ranks: &mut [u64],
    disk: &mut D,
    out: &mut Writer,
    sink: &mut K,
)
    requires placed { ArePlaced thread_limit shown.now.threads.items }
    requires paid { ArePaid shown.now.bank.pages shown.now.objects }
    requires long { length bytes.old ≡ length shown.now.objects }
    requires long_ranks { length ranks.old ≡ length shown.now.objects }
    requires can { CanShow D.Disk shown.now disk.old }
    ensures { PutsOf D.Disk K.Sink (held_in shown.now) (λ r. text_of text (state_shown shown.now r)) disk.old disk.new sink.old sink.new out.old out.new }
{
    match text {
        Text::State => put_state(shown, disk, out, sink),
        Text::Reach => put_reach(shown, bytes, disk, out, sink),
        Text::Dot => put_graph(shown, bytes, ranks, disk, out, sink),
        Text::DotThread(number, steps) => {
            put_thread_part(shown, number, steps, bytes, ranks, disk, out, sink);
        }
        Text::DotObject(base, steps) => {
            put_object_part(shown, base, steps, bytes, ranks, disk, out, sink);
        }
    }
}
