// The front of a line.
ghost use Rattle.std.specs.Prelude.{◌≡◌, ◌++◌, ◌∷◌, ◌≤◌, [], length};
ghost use Rattle.std.specs.Fmt.{decimal};
ghost use Rattle.arrayvec.specs.ArrayVec.{array_vec_len};
ghost use Rattle.mg_model.specs.Print.{spaced};

use arrayvec::ArrayVec;
use mg_text::push_text;

/// Writes the number of a thread and a call word into an empty buffer.
pub fn push_call(thread: u64, word: &[u8], out: &mut ArrayVec<u8, 256>)
    requires empty { out.old.items ≡ [] }
    requires at_most_10_bytes { length word.now ≤ 10 }
    ensures text { out.new.items ≡ decimal thread ++ spaced (word.now ∷ []) }
    ensures short { array_vec_len out.new ≤ 31 }
{
    let mut digits = itoa::Buffer::new();
    push_text(out, digits.format(thread).as_bytes());
    push_text(out, b" ");
    push_text(out, word);
}
