// Bytes that are written over others.
ghost use Rattle.std.specs.Prelude.{◌≡◌, length};

/// Writes these bytes over others, of which there are as many.
pub(crate) fn copy_to(bytes: &[u8], out: &mut [u8])
    requires { length bytes.now ≡ length out.old }
    ensures { out.new ≡ bytes.now }
{
    out.copy_from_slice(bytes);
}
