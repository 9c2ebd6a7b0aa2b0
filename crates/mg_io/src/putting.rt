// Writing a whole text.
ghost use Rattle.std.specs.Prelude.{◌≡◌, length, IsOk, OnOk, OnErr};
ghost use Rattle.std.specs.Io.KnownBytes.{Appends};
ghost use Rattle.mg_faults.specs.Faults.{HasCause};
ghost use Rattle.mg_io.specs.Known.{AppendsPrefix};

use super::traits::Sink;
use mg_faults::Failed;

/// Writes all of `from`, in as many puts as the sink needs: none if `from` is empty, one if the sink takes it whole.
///
/// # Errors
///
/// `Failed` if a put fails. The sink then took a prefix of `from`, which may be empty or whole, and no other put was tried.
pub fn put_all<K: Sink>(sink: &mut K, from: &[u8]) -> Result<(), Failed>
    ensures ok { OnOk result (Appends (K.taken sink.old) (K.taken sink.new) from.now) }
    ensures err { OnErr result (AppendsPrefix (K.taken sink.old) (K.taken sink.new) from.now) }
    ensures cause { HasCause (K.faults sink.old) (K.faults sink.new)
        (K.is_spent sink.old) (K.is_spent sink.new) result }
    ensures empty { length from.now ≡ 0 → IsOk result × (sink.new ≡ sink.old) }
{
    let mut rest = from;
    while !rest.is_empty() {
        match sink.put(rest) {
            Ok(count) => rest = &rest[count..],
            Err(failed) => return Err(failed),
        }
    }
    Ok(())
}
