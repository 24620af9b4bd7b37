// The CRC of RMAP (document 01, 'CRC'; 001, clause 5.2): g(x) = x^8 + x^2 + x + 1, least significant bit first, start 0. Three ways lead to it, by the length of
// the row: a byte at a time by a table, eight at a time by words, and blocks of 127 that are added up first.
ghost use Rattle.std.specs.Prelude.{◌≡◌};
ghost use Rattle.octets.specs.Crc.{crc, crc_from as Crc·crc_from};

use crate::blocks::sum_of_blocks;
use crate::table::by_table;
use crate::words::by_words;

// The CRC of the bytes. It is 0 for no bytes, and for bytes followed by their own CRC.
pub fn crc_of(bytes: &[u8]) -> u8
    ensures { result ≡ crc bytes.now }
{
    crc_from(0, bytes)
}

// Goes on: where `running` is the CRC of what came before, the CRC of that and the bytes together.
pub fn crc_from(running: u8, bytes: &[u8]) -> u8
    ensures { result ≡ Crc·crc_from running bytes.now }
{
    let size = bytes.len();
    if size < 8 {
        return by_table(running, bytes);
    }
    // Blocks are ahead from four on.
    if size < 8 + 4 * 127 {
        return by_words(running, bytes);
    }
    // What is no whole block comes first, and is at least a word.
    let (front, blocks) = bytes.split_at((size - 8) % 127 + 8);
    let sum = sum_of_blocks(by_words(running, front), blocks);
    by_words(0, &sum)
}
