// Lines of a graph, each printed into an empty buffer.
ghost use Rattle.std.specs.Prelude.{◌≡◌, ◌+◌, ◌%◌, ◌==◌, ◌≤◌, [], ◌++◌, length};
ghost use Rattle.arrayvec.specs.ArrayVec.{array_vec_len};
ghost use Rattle.mg_model.specs.Print.{hex_text};
ghost use Rattle.mg_show.specs.DotText.{object_label, object_name, object_node, thread_name, thread_node};
ghost use Rattle.mg_show.specs.Drawn.{arrow_end, dash, entry_bits, shape, slot_bits};
ghost use Rattle.mg_show.specs.StateText.{rights_text};

use crate::lines::{Line, push_decimal, push_letters};
use arrayvec::ArrayVec;
use mg_model::ObjRow;
use mg_text::{push_text, push_word};

/// The node of a thread. It has at most 60 bytes.
pub(crate) fn print_thread_node(number: u64) -> Line
    ensures { result.items ≡ thread_node number }
{
    let mut out = Line::new();
    push_text(&mut out, b"  ");
    push_thread_name(&mut out, number);
    push_text(&mut out, b" [shape=ellipse style=solid]\n");
    out
}

/// The node of an object. It has at most 135 bytes.
pub(crate) fn print_object_node(row: &ObjRow, is_list: bool) -> Line
    ensures { result.items ≡ object_node (shape is_list) row.now }
{
    let mut out = Line::new();
    push_text(&mut out, b"  ");
    push_object_name(&mut out, row.base());
    push_text(&mut out, b" [shape=");
    push_text(&mut out, shape_of(is_list));
    push_text(&mut out, b" style=solid label=\"");
    push_label(&mut out, row);
    push_text(&mut out, b"\"]\n");
    out
}

/// The shape of an object's node, at most 6 bytes.
fn shape_of(is_list: bool) -> &'static [u8]
    ensures text { result.now ≡ shape is_list }
    ensures short { length result.now ≤ 6 }
{
    if is_list { b"folder" } else { b"box" }
}

/// The label of an object: its base, its pages and the account that pays for them.
fn push_label(out: &mut Line, row: &ObjRow)
    requires { array_vec_len out.old ≤ 100 }
    ensures text { out.new.items ≡ out.old.items ++ object_label row.now }
    ensures short { array_vec_len out.new ≤ array_vec_len out.old + 76 }
{
    push_hex(out, row.base());
    push_text(out, b"\\n");
    push_decimal(out, row.pages());
    push_text(out, b" pages\\naccount ");
    push_decimal(out, row.account());
}

/// The arrow of a slot of a thread, with the rights whose bits these are. It has at most 86 bytes.
pub(crate) fn print_slot_arrow(number: u64, base: u64, bits: u8) -> Line
    ensures { result.items ≡ slot_bits number base bits }
{
    let mut out = Line::new();
    push_text(&mut out, b"  ");
    push_thread_name(&mut out, number);
    push_arrow_end(&mut out, base, bits, bits % 2 == 1);
    out
}

/// The arrow of an entry of a list, with the rights whose bits these are. It has at most 77 bytes.
pub(crate) fn print_entry_arrow(list: u64, base: u64, bits: u8) -> Line
    ensures { result.items ≡ entry_bits list base bits }
{
    let mut out = Line::new();
    push_text(&mut out, b"  ");
    push_object_name(&mut out, list);
    push_arrow_end(&mut out, base, bits, bits % 64 != 0);
    out
}

/// An arrow after the node that it leaves, dashed if it counts for nothing.
fn push_arrow_end(out: &mut Line, base: u64, bits: u8, counts: bool)
    requires { array_vec_len out.old ≤ 100 }
    ensures text { out.new.items ≡ out.old.items ++ arrow_end (object_name base) (rights_text bits) counts }
    ensures short { array_vec_len out.new ≤ array_vec_len out.old + 55 }
{
    push_text(out, b" -> ");
    push_object_name(out, base);
    push_text(out, b" [label=\"");
    push_letters(out, bits);
    push_text(out, b"\"");
    push_text(out, dash_of(counts));
    push_text(out, b"]\n");
}

/// How an arrow is drawn that counts for nothing, 13 bytes; nothing if it counts.
fn dash_of(counts: bool) -> &'static [u8]
    ensures text { result.now ≡ dash counts }
    ensures short { length result.now ≤ 13 }
{
    if counts { b"" } else { b" style=dashed" }
}

/// The name of a thread's node.
fn push_thread_name(out: &mut Line, number: u64)
    requires { array_vec_len out.old ≤ 100 }
    ensures text { out.new.items ≡ out.old.items ++ thread_name number }
    ensures short { array_vec_len out.new ≤ array_vec_len out.old + 29 }
{
    push_text(out, b"\"thread ");
    push_decimal(out, number);
    push_text(out, b"\"");
}

/// The name of an object's node.
fn push_object_name(out: &mut Line, base: u64)
    requires { array_vec_len out.old ≤ 200 }
    ensures text { out.new.items ≡ out.old.items ++ object_name base }
    ensures short { array_vec_len out.new ≤ array_vec_len out.old + 20 }
{
    push_text(out, b"\"");
    push_hex(out, base);
    push_text(out, b"\"");
}

/// A word in hexadecimal, without the space before it in a line.
fn push_hex(out: &mut Line, word: u64)
    requires { array_vec_len out.old ≤ 201 }
    ensures text { out.new.items ≡ out.old.items ++ hex_text word }
    ensures short { array_vec_len out.new ≤ array_vec_len out.old + 18 }
{
    let mut spaced = ArrayVec::new();
    push_word(&mut spaced, word);
    push_text(out, &spaced.as_slice()[1..]);
}
