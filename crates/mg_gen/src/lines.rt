// The line of a place in a run.
ghost use Rattle.std.specs.Prelude.{◌≡◌, ◌++◌, ◌∷◌, ◌<◌, ◌≤◌, []};
ghost use Rattle.mg_gen.specs.Asked.{entry_value, password_number};
ghost use Rattle.mg_gen.specs.Generated.{drawn_text, entry_text, kind_text, line_text, prepared_text, generated_password, stored};
ghost use Rattle.arrayvec.specs.ArrayVec.{array_vec_len};

use crate::drawing::{address, draw, kind, run_object_base, thread, value};
use crate::laws::passwords_are_drawn;
use crate::writing::push_call;
use arrayvec::ArrayVec;
use mg_model::limits::ROOT_BASE;
use mg_text::{push_number, push_text, push_word};

/// The first place whose line is drawn.
const DRAWN_FROM: u64 = 44;

/// Writes line `k` of the run of a number, with its newline, into an empty buffer. The longest lines, the stores among the
/// first 44, have 46 bytes.
pub fn line(number: u64, k: u64, out: &mut ArrayVec<u8, 256>)
    requires empty { out.old.items ≡ [] }
    ensures { out.new.items ≡ line_text number k ++ 10 ∷ [] }
{
    if k < DRAWN_FROM {
        push_prepared(k, out);
    } else {
        push_drawn(draw(number, k), out);
    }
    push_text(out, b"\n");
}

/// One of the first 44 lines.
fn push_prepared(k: u64, out: &mut ArrayVec<u8, 256>)
    requires empty { out.old.items ≡ [] }
    requires early { k < 44 }
    ensures text { out.new.items ≡ prepared_text k }
    ensures short { array_vec_len out.new ≤ 200 }
{
    if k < 31 {
        push_call(1, b"thread", out);
        push_word(out, ROOT_BASE);
    } else if k < 35 {
        push_call(1, b"create", out);
        push_number(out, 16);
        push_number(out, 1);
        push_word(out, password(1));
    } else if k < 43 {
        push_entry(k - 35, out);
    } else {
        push_store(ROOT_BASE, 5, out);
    }
}

/// The store of place `entry` of the entries.
fn push_entry(entry: u64, out: &mut ArrayVec<u8, 256>)
    requires empty { out.old.items ≡ [] }
    requires entry_below_8 { entry < 8 }
    ensures text { out.new.items ≡ entry_text entry }
    ensures short { array_vec_len out.new ≤ 200 }
{
    push_store(ROOT_BASE + 8 * (4 + entry), entry_value(entry), out);
}

/// A base, for an even `entry`, or a password, for an odd one.
fn entry_value(entry: u64) -> u64
    requires entry_below_8 { entry < 8 }
    ensures { result ≡ entry_value entry }
{
    if entry % 2 == 0 {
        run_object_base(1 + entry / 2)
    } else {
        password(2 + entry / 2)
    }
}

/// Password k that the seed draws, from 1 on.
fn password(k: u64) -> u64
    requires from { 1 ≤ k }
    requires to { k ≤ 5 }
    ensures { result ≡ generated_password k }
{
    passwords_are_drawn();
    password_number(k)
}

/// The number of that password.
fn password_number(k: u64) -> u64
    ensures { result ≡ password_number k }
{
    match k {
        1 => 0x28bd_8653_e56a_5d40,
        2 => 0x1aed_8da0_b819_d2bd,
        3 => 0xc70d_778b_ccef_36a8,
        4 => 0x8d48_5751_7c59_41da,
        _ => 0x374a_d8b8_3fe0_2477,
    }
}

/// A store of thread 1.
fn push_store(address: u64, value: u64, out: &mut ArrayVec<u8, 256>)
    requires empty { out.old.items ≡ [] }
    ensures text { out.new.items ≡ stored address value }
    ensures short { array_vec_len out.new ≤ 200 }
{
    push_call(1, b"store", out);
    push_word(out, address);
    push_word(out, value);
}

/// The line that is drawn from a word.
fn push_drawn(word: u64, out: &mut ArrayVec<u8, 256>)
    requires empty { out.old.items ≡ [] }
    ensures text { out.new.items ≡ drawn_text word }
    ensures short { array_vec_len out.new ≤ 200 }
{
    push_kind(kind(word), thread(word), address(word), value(word), out);
}

/// The line of a kind.
fn push_kind(kind: u64, thread: u64, address: u64, value: u64, out: &mut ArrayVec<u8, 256>)
    requires empty { out.old.items ≡ [] }
    ensures text { out.new.items ≡ kind_text kind thread address value }
    ensures short { array_vec_len out.new ≤ 200 }
{
    if kind < 6 {
        push_call(thread, b"load", out);
        push_word(out, address);
    } else if kind < 11 {
        push_call(thread, b"store", out);
        push_word(out, address);
        push_number(out, value);
    } else if kind == 11 {
        push_call(thread, b"info", out);
        push_word(out, address);
    } else if kind == 12 {
        push_call(thread, b"balance", out);
        push_number(out, 1);
        push_word(out, password(1));
    } else if kind == 13 {
        push_text(out, b"rent");
    } else if kind == 14 {
        push_text(out, b"next");
    } else {
        push_call(thread, b"pwadd", out);
        push_word(out, address);
        push_text(out, b" R");
    }
}
