// The whole state of a volume, written as text: its settings, counters, accounts, objects and threads, and its words.
ghost use Rattle.std.specs.Prelude.{◌+◌, ◌≤◌, ◌<◌, ◌^◌, ℕ, All, codes, flat_map, length};
ghost use Rattle.mg_bank.specs.Bank.{pages_at};
ghost use Rattle.mg_model.specs.Limits.{thread_limit};
ghost use Rattle.mg_model.specs.State.{ObjectRow, ThreadRow};
ghost use Rattle.mg_space.specs.Space.{ArePaid};
ghost use Rattle.mg_show.specs.Shown.{CanShow, held_in, state_shown};
ghost use Rattle.mg_show.specs.StateText.{accounts_text, entry_text, extension_text, frame_text, object_text, password_text, slot_text, state_text, thread_text};
ghost use Rattle.mg_show.specs.WordText.{block_text, pages_text, rows_text, word_text};
ghost use Rattle.mg_show.specs.Writing.{Puts, PutsOf};

use crate::held::Shown;
use crate::lines::{
    print_account, print_counters, print_object, print_password, print_settings, print_tariff,
    print_thread, print_words,
};
use crate::pages::read_page;
use crate::writer::Writer;
use mg_bank::Bank;
use mg_disk::{BLOCK_SIZE, Block, Disk};
use mg_io::Sink;
use mg_layout::{BLOCK_WORDS, number_at};
use mg_model::{Frame, ObjRow, Pw, Slot, ThrRow};

/// Writes the text of the state of a volume, all of it.
pub(crate) fn put_state<D: Disk, K: Sink>(
    shown: &Shown,
    disk: &mut D,
    out: &mut Writer,
    sink: &mut K,
)
    requires places { All (λ t. t.0 < thread_limit) shown.now.threads.items }
    requires paid { ArePaid shown.now.bank.pages shown.now.objects }
    requires can { CanShow D.Disk shown.now disk.old }
    ensures { PutsOf D.Disk K.Sink (held_in shown.now) (λ r. state_text (state_shown shown.now r)) disk.old disk.new sink.old sink.new out.old out.new }
{
    out.line(print_settings(&shown.params), sink);
    out.line(print_tariff(shown.params.tariff()), sink);
    out.line(print_counters(&shown.counters), sink);
    put_accounts(&shown.bank, out, sink);
    put_objects(shown, out, sink);
    put_threads(&shown.threads, out, sink);
    put_words(shown, disk, out, sink);
}

/// Writes the lines of the accounts of a bank, each with the pages that the bank keeps for it.
fn put_accounts<K: Sink>(bank: &Bank, out: &mut Writer, sink: &mut K)
    ensures { Puts K.Sink (accounts_text (pages_at bank.now.pages) 1 bank.now.accounts) sink.old sink.new out.old out.new }
{
    for i in 0..bank.len() {
        let row = &bank.rows()[i as usize];
        out.line(print_account(i + 1, row, bank.pages(i + 1)), sink);
    }
}

/// Writes the lines of the objects, in the order of their bases, each with the lines of what belongs to it.
fn put_objects<K: Sink>(shown: &Shown, out: &mut Writer, sink: &mut K)
    ensures { Puts K.Sink (flat_map (λ (o : ℕ × ObjectRow). object_text o.1) shown.now.objects) sink.old sink.new out.old out.new }
{
    for i in 0..shown.count() {
        let row = shown.row(i);
        out.line(print_object(row), sink);
        put_passwords(row.passwords(), out, sink);
        put_entries(row.entries(), out, sink);
        put_extension(row, out, sink);
    }
}

fn put_passwords<K: Sink>(rows: &[Pw], out: &mut Writer, sink: &mut K)
    ensures { Puts K.Sink (flat_map password_text rows.now) sink.old sink.new out.old out.new }
{
    for row in rows {
        out.line(print_password(row), sink);
    }
}

fn put_entries<K: Sink>(entries: &[u64], out: &mut Writer, sink: &mut K)
    ensures { Puts K.Sink (flat_map entry_text entries.now) sink.old sink.new out.old out.new }
{
    for entry in entries {
        out.line(print_words(b"entry", &[*entry]), sink);
    }
}

fn put_extension<K: Sink>(row: &ObjRow, out: &mut Writer, sink: &mut K)
    ensures { Puts K.Sink (extension_text row.now.extension) sink.old sink.new out.old out.new }
{
    if let Some(slot) = row.ext() {
        out.line(print_words(b"extension", &[slot.base, slot.password]), sink);
    }
}

/// Writes the lines of the threads, each of which has the place before its number, and of their frames.
fn put_threads<K: Sink>(threads: &[(u64, ThrRow)], out: &mut Writer, sink: &mut K)
    requires { All (λ t. t.0 < thread_limit) threads.now }
    ensures { Puts K.Sink (flat_map (λ (t : ℕ × ThreadRow). thread_text (record { number = t.0 + 1; row = t.1 })) threads.now) sink.old sink.new out.old out.new }
{
    for t in threads {
        out.line(print_thread(t.0 + 1, &t.1), sink);
        out.line(print_words(b"", &t.1.regs()), sink);
        put_frames(t.1.frames(), out, sink);
    }
}

fn put_frames<K: Sink>(frames: &[Frame], out: &mut Writer, sink: &mut K)
    ensures { Puts K.Sink (flat_map frame_text frames.now) sink.old sink.new out.old out.new }
{
    for frame in frames {
        out.line(print_words(b"frame", &[frame.back()]), sink);
        put_slots(frame.slots(), out, sink);
    }
}

fn put_slots<K: Sink>(slots: &[Slot], out: &mut Writer, sink: &mut K)
    ensures { Puts K.Sink (flat_map (slot_text (codes "slot")) slots.now) sink.old sink.new out.old out.new }
{
    for slot in slots {
        out.line(print_words(b"slot", &[slot.base, slot.password]), sink);
    }
}

// Writes the words of objects that are not 0, object by object, each as a line with its address. Each page that a frame holds is read
// once.
#[tactic(auto, using(crate::proofs::Learning::still_shown))]
fn put_words<D: Disk, K: Sink>(shown: &Shown, disk: &mut D, out: &mut Writer, sink: &mut K)
    requires can { CanShow D.Disk shown.now disk.old }
    ensures { PutsOf D.Disk K.Sink (held_in shown.now) (λ r. rows_text r (length shown.now.frames) shown.now.frames shown.now.objects) disk.old disk.new sink.old sink.new out.old out.new }
{
    for i in 0..shown.count() {
        let row = shown.row(i);
        let first = row.base() / BLOCK_SIZE as u64;
        put_pages(shown, first, row.pages(), disk, out, sink);
    }
}

// Writes the words of `count` pages from this one on.
#[tactic(auto, using(crate::proofs::Learning::still_shown))]
fn put_pages<D: Disk, K: Sink>(
    shown: &Shown,
    first: u64,
    count: u64,
    disk: &mut D,
    out: &mut Writer,
    sink: &mut K,
)
    requires some { 1 ≤ first }
    requires place { first + count ≤ 2 ^ 52 }
    requires can { CanShow D.Disk shown.now disk.old }
    ensures { PutsOf D.Disk K.Sink (held_in shown.now) (λ r. pages_text r (length shown.now.frames) shown.now.frames first count) disk.old disk.new sink.old sink.new out.old out.new }
{
    for i in 0..count {
        let page = first + i;
        let mut block = [0; BLOCK_SIZE];
        if read_page(shown, page, &mut block, disk, out) {
            put_block(BLOCK_SIZE as u64 * page, &block, out, sink);
        }
    }
}

// Writes the words of a block, the first of them at this address.
fn put_block<K: Sink>(address: u64, block: &Block, out: &mut Writer, sink: &mut K)
    requires place { address + 4096 ≤ 2 ^ 64 }
    ensures { Puts K.Sink (block_text address block.now) sink.old sink.new out.old out.new }
{
    for k in 0..BLOCK_WORDS {
        let word = number_at(block, 8 * k as usize);
        put_word(address + 8 * k, word, out, sink);
    }
}

// Writes the line of a word, and nothing if it is 0.
fn put_word<K: Sink>(address: u64, word: u64, out: &mut Writer, sink: &mut K)
    ensures { Puts K.Sink (word_text address word) sink.old sink.new out.old out.new }
{
    if word == 0 {
        return;
    }
    out.line(print_words(b"word", &[address, word]), sink);
}
