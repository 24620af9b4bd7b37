// Bytes put where there is room for them.
ghost use Rattle.std.specs.Prelude.{◌≡◌, ◌+◌, ◌≤◌, length};
ghost use Rattle.octets.specs.Places.{placed};

// Puts bytes into a buffer, from `at` on.
pub(crate) fn put(bytes: &[u8], out: &mut [u8], at: usize)
    requires { at + length bytes.now ≤ length out.old }
    ensures { out.new ≡ placed at bytes.now out.old }
{
    out[at..at + bytes.len()].copy_from_slice(bytes);
}
