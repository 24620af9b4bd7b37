// Numbers and bytes, in hexadecimal digits.
ghost use Rattle.std.specs.Prelude.{◌≡◌, ◌+◌, ◌*◌, ◌%◌, ◌^◌, ◌≤◌, length, take};
ghost use Rattle.octets.specs.Places.{placed};
ghost use Rattle.script.specs.Digits.{digit_of, pair_of, number_in, bytes_in};
ghost use Rattle.script.specs.Fields.{field_of};

use crate::fields;

// The number that the first field says, as far as 64 bits hold it.
pub fn number(s: &[u8]) -> u64
    ensures { result ≡ number_in (field_of s.now) }
{
    fields::field(s).iter().fold(0, |n, c| onto(n, *c))
}

// Its lowest byte.
pub fn byte(s: &[u8]) -> u8
    ensures { result ≡ number_in (field_of s.now) % 256 }
{
    (number(s) % 256) as u8
}

// Reads bytes of two digits each, with or without spaces between them, as far as there is room. Answers how many. All of s is read: a bar
// does not end it.
pub fn bytes(s: &[u8], out: &mut [u8]) -> usize
    ensures answers { result ≡ length (take (length out.old) (bytes_in s.now)) }
    ensures inside { result ≤ length out.new }
    ensures leaves { out.new ≡ placed 0 (take (length out.old) (bytes_in s.now)) out.old }
{
    let mut left = s;
    let mut n = 0;
    // Kept: `while let`. A step takes one byte or two, as the first one says, and no iterator does.
    while let [a, b, more @ ..] = left {
        if *a == b' ' {
            left = &left[1..];
        } else {
            if out.len() <= n {
                return n;
            }
            out[n] = pair(*a, *b);
            n += 1;
            left = more;
        }
    }
    n
}

// A digit behind a number. The number's highest digit goes where there are sixteen.
fn onto(n: u64, c: u8) -> u64
    ensures { result ≡ n % 2 ^ 60 * 16 + digit_of c }
{
    n % 0x1000_0000_0000_0000 * 16 + digit(c) as u64
}

fn pair(a: u8, b: u8) -> u8
    ensures { result ≡ pair_of a b }
{
    digit(a) * 16 + digit(b)
}

// Kept: a number for any byte, as `digit_of` says; `char::to_digit` has none for what is no digit.
fn digit(c: u8) -> u8
    ensures answers { result ≡ digit_of c }
    ensures small { result ≤ 15 }
{
    if c < b'a' {
        c % 16
    } else {
        (c - b'a') % 6 + 10
    }
}
