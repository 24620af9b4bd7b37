// Copies, fills and numbers at the edges of a buffer of eight bytes; and rows at the lengths where the CRC takes another way.
use console::{Row, say};
use octets::Octets;

// What the buffer holds before each call.
const LENT: [u8; 8] = [0xf0, 0xf1, 0xf2, 0xf3, 0xf4, 0xf5, 0xf6, 0xf7];

pub(crate) fn numbers_of_bytes() {
    say!("numbers of bytes at hand\n");
    say!("2: {:016x}\n", u16::from_octets([0xfe, 0xdc]));
    say!("3: {:016x}\n", u32::from_octets([0xfe, 0xdc, 0xba]));
    say!("4: {:016x}\n", u32::from_octets([0xa0, 0x00, 0x00, 0x10]));
    let seven = [0xfe, 0xdc, 0xba, 0x98, 0x76, 0x54, 0x32];
    say!("7: {:016x}\n", u64::from_octets(seven));
}

pub(crate) fn bytes_of_numbers() {
    say!("lowest bytes of numbers\n");
    let two: [u8; 2] = 0xfedcu16.to_octets();
    let three: [u8; 3] = 0xfedcba98u32.to_octets();
    let four: [u8; 4] = 0xa0000010u32.to_octets();
    let seven: [u8; 7] = 0xfedcba9876543210u64.to_octets();
    say!("2 of fedc:{}\n", Row(&two));
    say!("3 of fedcba98:{}\n", Row(&three));
    say!("4 of a0000010:{}\n", Row(&four));
    say!("7 of fedcba9876543210:{}\n", Row(&seven));
}

pub(crate) fn copy(name: &[u8], from: usize, count: usize, at: usize) {
    let mut b = LENT;
    let did = octets::copy_part(&[0xa0, 0xa1, 0xa2, 0xa3], from, count, &mut b, at);
    outcome(name, did.is_ok(), &b);
}

pub(crate) fn fill(name: &[u8], at: usize, count: usize) {
    let mut b = LENT;
    let did = octets::fill(&mut b, at, count, 0xee);
    outcome(name, did.is_ok(), &b);
}

pub(crate) fn write(name: &[u8], at: usize, width: usize, n: u64) {
    let mut b = LENT;
    let did = octets::write_number(&mut b, at, width, n);
    outcome(name, did.is_ok(), &b);
}

pub(crate) fn read(name: &[u8], at: usize, width: usize) {
    match octets::read_number(&LENT, at, width) {
        Some(n) => say!(name; ": {n:016x}\n"),
        None => say!(name; ": refused\n"),
    }
}

// The CRC that goes on over the first `count` bytes of a row.
pub(crate) fn row(name: &[u8], running: u8, count: usize) {
    match counted().get(..count) {
        Some(row) => say!(name; ":{}\n", Row(&[octets::crc_from(running, row)])),
        None => say!("no such row\n"),
    }
}

// Byte n is n modulo 251, a prime: no two blocks of 127 are alike, nor a word and the next.
fn counted() -> [u8; 4096] {
    let mut row = [0; 4096];
    for (n, b) in row.iter_mut().enumerate() {
        *b = (n % 251) as u8;
    }
    row
}

// What a call answered, and the buffer after it.
pub(crate) fn outcome(name: &[u8], did: bool, buffer: &[u8]) {
    let word = if did { "done" } else { "refused" };
    say!(name; ": {word},{}\n", Row(buffer));
}
