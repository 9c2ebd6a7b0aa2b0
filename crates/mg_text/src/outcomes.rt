// From the outcome of a command to its line.
ghost use Rattle.std.specs.Prelude.{◌≡◌, ◌+◌, ◌≤◌, ◌∷◌, ◌++◌, [], codes};
ghost use Rattle.arrayvec.specs.ArrayVec.{array_vec_len};
ghost use Rattle.std.specs.Fmt.{decimal};
ghost use Rattle.mg_model.specs.Print.{hex_text, ok_text, spaced};

use crate::replies::{push_number, push_text, push_word};
use arrayvec::ArrayVec;

/// Writes `ok` and three words in hexadecimal as a line, with its newline, into an empty buffer.
pub fn print_words(first: u64, second: u64, third: u64, out: &mut ArrayVec<u8, 256>)
    requires empty { out.old.items ≡ [] }
    ensures { out.new.items ≡ ok_text (hex_text first ∷ hex_text second ∷ hex_text third ∷ []) ++ 10 ∷ [] }
{
    push_text(out, b"ok");
    push_word(out, first);
    push_word(out, second);
    push_word(out, third);
    push_text(out, b"\n");
}

/// Writes `small` and two numbers in decimal as a line, with its newline, into an empty buffer: how many blocks are
/// needed, and how many there are.
pub fn print_small(need: u64, have: u64, out: &mut ArrayVec<u8, 256>)
    requires empty { out.old.items ≡ [] }
    ensures { out.new.items ≡ codes "small" ++ spaced (decimal need ∷ decimal have ∷ []) ++ 10 ∷ [] }
{
    push_text(out, b"small");
    push_number(out, need);
    push_number(out, have);
    push_text(out, b"\n");
}

/// Writes `ok` and seven numbers in decimal as a line, with its newline, into an empty buffer.
pub fn print_numbers(
    first: u64,
    second: u64,
    third: u64,
    fourth: u64,
    fifth: u64,
    sixth: u64,
    seventh: u64,
    out: &mut ArrayVec<u8, 256>,
)
    requires empty { out.old.items ≡ [] }
    ensures { out.new.items ≡ ok_text (decimal first ∷ decimal second ∷ decimal third ∷ decimal fourth ∷ decimal fifth ∷ decimal sixth ∷ decimal seventh ∷ []) ++ 10 ∷ [] }
{
    push_text(out, b"ok");
    push_three(out, first, second, third);
    push_three(out, fourth, fifth, sixth);
    push_number(out, seventh);
    push_text(out, b"\n");
}

/// Three numbers in decimal, each after a space.
fn push_three(out: &mut ArrayVec<u8, 256>, first: u64, second: u64, third: u64)
    requires { array_vec_len out.old ≤ 128 }
    ensures text { out.new.items ≡ out.old.items ++ spaced (decimal first ∷ decimal second ∷ decimal third ∷ []) }
    ensures short { array_vec_len out.new ≤ array_vec_len out.old + 63 }
{
    push_number(out, first);
    push_number(out, second);
    push_number(out, third);
}
