// Numbers in bytes, most significant byte first (document 01, 'Reading a packet' and 'Time').
ghost use Rattle.std.specs.Prelude.{◌≡◌, ◌^◌, ◌≤◌, is_ok, ltb, ℕ};
ghost use Rattle.octets.specs.Numbers.{number, bytes_of, read_number as Numbers·read_number, number_fits, written};

use crate::copies::{NoRoom, copy_part};

// Reads the number of `width` bytes at `at`. None if not all of them are there, or if they are over eight.
pub fn read_number(s: &[u8], at: usize, width: usize) -> Option<u64>
    ensures { result ≡ Numbers·read_number s.now at width }
{
    if 8 < width {
        return None;
    }
    let mut bytes = [0; 8];
    copy_part(s, at, width, &mut bytes, 8 - width).ok()?;
    Some(u64::from_octets(bytes))
}

// Writes n as `width` bytes at `at`, all or nothing: they have to be at most eight, n below 256^width, and the places
// there.
pub fn write_number(dst: &mut [u8], at: usize, width: usize, n: u64) -> Result<(), NoRoom>
    ensures answers { is_ok result ≡ number_fits dst.old at width n }
    ensures leaves { dst.new ≡ written dst.old at width n }
{
    if 8 < width || !fits_width(n, width) {
        return Err(NoRoom);
    }
    let bytes: [u8; 8] = n.to_octets();
    copy_part(&bytes, 8 - width, width, dst, at)
}

// Whether n is below 256^width.
fn fits_width(n: u64, width: usize) -> bool
    requires { width ≤ 8 }
    ensures { result ≡ ltb n (256 ^ width) }
{
    width == 8 || n >> (8 * width) == 0
}

// What is sent as N bytes, the most significant first: a number, of a type for each N that holds all of those.
pub trait Octets<const N: usize> {
    // The number that it is.
    ghost value: { Self → ℕ };

    // No other is worth the same: what a result is worth says which it is.
    ghost alone: { (m n : Self) → value m ≡ value n → m ≡ n };

    // The number that bytes are worth.
    fn from_octets(bytes: [u8; N]) -> Self
        ensures { value result ≡ number bytes.entry };

    // Its lowest bytes. What is above them is dropped.
    fn to_octets(self) -> [u8; N]
        ensures { result ≡ bytes_of N (value self) };
}

impl Octets<2> for u16 {
    ghost value = { λ n. n };

    ghost alone = { λ m n same. same };

    fn from_octets(bytes: [u8; 2]) -> u16
        ensures { result ≡ number bytes }
    {
        u16::from_be_bytes(bytes)
    }

    fn to_octets(self) -> [u8; 2]
        ensures { result ≡ bytes_of 2 self }
    {
        self.to_be_bytes()
    }
}

impl Octets<3> for u32 {
    ghost value = { λ n. n };

    ghost alone = { λ m n same. same };

    fn from_octets(bytes: [u8; 3]) -> u32
        ensures { result ≡ number bytes }
    {
        let [a, b, c] = bytes;
        u32::from_be_bytes([0, a, b, c])
    }

    fn to_octets(self) -> [u8; 3]
        ensures { result ≡ bytes_of 3 self }
    {
        let [_, a, b, c] = self.to_be_bytes();
        [a, b, c]
    }
}

impl Octets<4> for u32 {
    ghost value = { λ n. n };

    ghost alone = { λ m n same. same };

    fn from_octets(bytes: [u8; 4]) -> u32
        ensures { result ≡ number bytes }
    {
        u32::from_be_bytes(bytes)
    }

    fn to_octets(self) -> [u8; 4]
        ensures { result ≡ bytes_of 4 self }
    {
        self.to_be_bytes()
    }
}

impl Octets<7> for u64 {
    ghost value = { λ n. n };

    ghost alone = { λ m n same. same };

    fn from_octets(bytes: [u8; 7]) -> u64
        ensures { result ≡ number bytes }
    {
        let [a, b, c, d, e, f, g] = bytes;
        u64::from_be_bytes([0, a, b, c, d, e, f, g])
    }

    fn to_octets(self) -> [u8; 7]
        ensures { result ≡ bytes_of 7 self }
    {
        let [_, a, b, c, d, e, f, g] = self.to_be_bytes();
        [a, b, c, d, e, f, g]
    }
}

impl Octets<8> for u64 {
    ghost value = { λ n. n };

    ghost alone = { λ m n same. same };

    fn from_octets(bytes: [u8; 8]) -> u64
        ensures { result ≡ number bytes }
    {
        u64::from_be_bytes(bytes)
    }

    fn to_octets(self) -> [u8; 8]
        ensures { result ≡ bytes_of 8 self }
    {
        self.to_be_bytes()
    }
}
