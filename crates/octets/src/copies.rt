// Copies into a lent buffer, all or nothing: what does not fit changes nothing, and the answer says so.
ghost use Rattle.std.specs.Prelude.{◌≡◌, ◌+◌, ◌≤◌, length, replicate, is_ok};
ghost use Rattle.octets.specs.Places.{part, placed, copy_fits, copied, filled, within as Places·within};

// Why nothing was written: something is not all there.
#[derive(Clone, Copy, PartialEq, Eq)]
pub struct NoRoom;

// Copies `count` bytes of src, from `from` on, into dst, from `at` on.
pub fn copy_part(
    src: &[u8],
    from: usize,
    count: usize,
    dst: &mut [u8],
    at: usize,
) -> Result<(), NoRoom>
    ensures answers { is_ok result ≡ copy_fits src.now from count dst.old at }
    ensures leaves { dst.new ≡ copied src.now from count dst.old at }
{
    if !within(src, from, count) || !within(dst, at, count) {
        return Err(NoRoom);
    }
    dst[at..at + count].copy_from_slice(&src[from..from + count]);
    Ok(())
}

// Kept: of the crates here `vectors` alone calls it; docs/PROMISES.md and `OctetsDetermined` (demands) name its promise.
// Fills `count` places of dst, from `at` on, with one byte.
pub fn fill(dst: &mut [u8], at: usize, count: usize, byte: u8) -> Result<(), NoRoom>
    ensures answers { is_ok result ≡ Places·within at count dst.old }
    ensures leaves { dst.new ≡ filled dst.old at count byte }
{
    if !within(dst, at, count) {
        return Err(NoRoom);
    }
    dst[at..at + count].fill(byte);
    Ok(())
}

// Moves `count` bytes of s, from `from` on, to its start.
pub fn move_to_start(s: &mut [u8], from: usize, count: usize) -> Result<(), NoRoom>
    ensures answers { is_ok result ≡ Places·within from count s.old }
    ensures leaves { s.new ≡ copied s.old from count s.old 0 }
{
    if !within(s, from, count) {
        return Err(NoRoom);
    }
    s.copy_within(from..from + count, 0);
    Ok(())
}

// Whether the `count` places from `at` on are all there. No sum here can wrap.
fn within(s: &[u8], at: usize, count: usize) -> bool
    ensures { result ≡ Places·within at count s.now }
{
    at <= s.len() && count <= s.len() - at
}
