// 001's CRC: of no bytes, Annex A's table of the CRC of each byte, and of bytes that end in it.
use console::{Row, say};

// 5.2 f.
pub(crate) fn no_bytes() {
    say!("the CRC of no bytes:{}\n", Row(&[octets::crc_of(&[])]));
}

// A.3, eight to a line as there.
pub(crate) fn table() {
    say!("001 Annex A.3: the CRC of each byte\n");
    for b in 0..=255u8 {
        say!(" {:02x}", octets::crc_of(&[b]));
        if b % 8 == 7 {
            say!("\n");
        }
    }
}

// The CRC of bytes that end in it; then of all of them; then worked out in two parts.
pub(crate) fn pattern(name: &[u8], bytes: &[u8]) {
    let Some((_, covered)) = bytes.split_last() else {
        return;
    };
    let (first, second) = covered.split_at(covered.len() / 2);
    let parts = octets::crc_from(octets::crc_of(first), second);
    let crcs = [octets::crc_of(covered), octets::crc_of(bytes), parts];
    say!(name; ":{}\n", Row(&crcs));
}
