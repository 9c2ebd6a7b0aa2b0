// The line of a fault.
ghost use Rattle.std.specs.Prelude.{◌≡◌, ◌+◌, ◌≤◌, ◌++◌, [], length, OnOk, OnErr};
ghost use Rattle.std.specs.Fmt.{decimal};
ghost use Rattle.std.specs.Io.KnownBytes.{Appends};
ghost use Rattle.arrayvec.specs.ArrayVec.{array_vec_len};
ghost use Rattle.mg_faults.specs.Faults.{Rose};
ghost use Rattle.mg_filter.specs.FaultLines.{numbered_line};
ghost use Rattle.mg_io.specs.Known.{AppendsPrefix};

use arrayvec::ArrayVec;
use mg_io::{Failed, Sink, put_all};

/// Writes the line `WHAT NUMBER: KIND` of a fault in one part of an input. `what` is the word for such a part and a blank, of at most
/// 8 bytes. `number` is that of the part, from 1, and `kind` the word of the fault's kind, of at most 8 bytes. If the sink fails, it
/// took a first part of the line.
pub fn put_numbered<E: Sink>(
    what: &[u8],
    number: u64,
    kind: &[u8],
    err: &mut E,
) -> Result<(), Failed>
    requires short { length what.now ≤ 8 }
    requires short_kind { length kind.now ≤ 8 }
    ensures ok { OnOk result (Appends (E.taken err.old) (E.taken err.new) (numbered_line what.now number kind.now)) }
    ensures err { OnErr result (AppendsPrefix (E.taken err.old) (E.taken err.new) (numbered_line what.now number kind.now)) }
    ensures rose { OnErr result (Rose (E.faults err.old) (E.faults err.new) (E.is_spent err.new)) }
{
    let mut line = ArrayVec::new();
    print_numbered(what, number, kind, &mut line);
    put_all(err, line.as_slice())
}

/// Writes that line into an empty buffer. It has at most 39 bytes.
fn print_numbered(what: &[u8], number: u64, kind: &[u8], out: &mut ArrayVec<u8, 64>)
    requires empty { out.old.items ≡ [] }
    requires short { length what.now ≤ 8 }
    requires short_kind { length kind.now ≤ 8 }
    ensures { out.new.items ≡ numbered_line what.now number kind.now }
{
    push_text(out, what);
    push_number(out, number);
    push_text(out, b": ");
    push_text(out, kind);
    push_text(out, b"\n");
}

fn push_number(out: &mut ArrayVec<u8, 64>, number: u64)
    requires { array_vec_len out.old ≤ 40 }
    ensures text { out.new.items ≡ out.old.items ++ decimal number }
    ensures short { array_vec_len out.new ≤ array_vec_len out.old + 20 }
{
    let mut digits = itoa::Buffer::new();
    push_text(out, digits.format(number).as_bytes());
}

fn push_text(out: &mut ArrayVec<u8, 64>, text: &[u8])
    requires { array_vec_len out.old + length text.now ≤ 64 }
    ensures text { out.new.items ≡ out.old.items ++ text.now }
    ensures len { array_vec_len out.new ≡ array_vec_len out.old + length text.now }
{
    let _ = out.try_extend_from_slice(text);
}
