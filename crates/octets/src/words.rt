// The CRC eight bytes at a time. A word's bits are the coefficients of a polynomial as they are sent: the lowest bit is that of the highest power. So times x is a
// shift down, and what it shifts out comes in again by a few shifts more, since modulo g(x), where x^127 is 1,
// x^128 = x, x^64 = 1 + x + x^4, x^32 = x + x^2 + x^4, x^16 = 1 + x^2 + x^4 and x^8 = 1 + x + x^2.
ghost use Rattle.std.specs.Prelude.{◌≡◌, ◌≤◌, length};
ghost use Rattle.octets.specs.Crc.{crc_from};
ghost use Rattle.octets.specs.Words.{crc_of_two, word_of};

// The first one to eight bytes are one word, so that eight go into each that follows. Two words are kept, and are one polynomial of 128 coefficients. For a word more they are
// multiplied by x^64: the lower takes the upper's place, and the upper, times x^128 = x, the lower's; the bit that this shifts out of it belongs to the new upper word.
pub(crate) fn by_words(running: u8, bytes: &[u8]) -> u8
    requires { 8 ≤ length bytes.now }
    ensures { result ≡ crc_from running bytes.now }
{
    let first = (bytes.len() - 1) % 8 + 1;
    let (front, _) = bytes.as_chunks::<8>();
    let mut upper = 0;
    let mut lower = (word(front[0]) ^ running as u64) << (64 - 8 * first);
    let (words, _) = bytes[first..].as_chunks::<8>();
    for eight in words {
        let next = word(*eight) ^ (upper >> 1);
        upper = lower ^ (upper << 63);
        lower = next;
    }
    reduced(upper, lower)
}

// Eight bytes as one number, the first of them lowest.
fn word(bytes: [u8; 8]) -> u64
    ensures { result ≡ word_of bytes }
{
    u64::from_le_bytes(bytes)
}

// The remainder of two words, times x^8: from 128 bits to 64, 36, 24, 16, 12 and 8. A polynomial of n coefficients lies in the lowest n bits, that of 1 the highest of
// them; among k bits more it lies k places higher.
fn reduced(upper: u64, lower: u64) -> u8
    ensures { result ≡ crc_of_two upper lower }
{
    // x^64 = 1 + x + x^4, and once more for what that shifts out
    let over = (upper << 63) ^ (upper << 60);
    let w64 = lower ^ (upper ^ (upper >> 1) ^ (upper >> 4) ^ over ^ (over >> 1) ^ (over >> 4));
    // x^32 = x + x^2 + x^4
    let a = w64 % 0x1_0000_0000;
    let w36 = (w64 >> 32 << 4) ^ (a << 3) ^ (a << 2) ^ a;
    // x^16 = 1 + x^2 + x^4, twice
    let b = w36 % 0x10_0000;
    let w24 = (w36 >> 20 << 8) ^ (b << 4) ^ (b << 2) ^ b;
    let c = w24 % 0x100;
    let w16 = (w24 >> 8) ^ (c << 8) ^ (c << 6) ^ (c << 4);
    // times x^8: the higher powers by x^16, as before, the lower ones by x^8 = 1 + x + x^2
    let d = w16 % 0x100;
    let e = w16 >> 8;
    let w12 = (d << 4) ^ (d << 2) ^ d ^ (e << 4) ^ (e << 3) ^ (e << 2);
    let f = w12 % 0x10;
    let w8 = (w12 >> 4) ^ (f << 4) ^ (f << 3) ^ (f << 2);
    // a byte already: the remainder says so
    (w8 % 0x100) as u8
}
