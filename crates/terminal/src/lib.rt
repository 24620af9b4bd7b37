// The face that the terminal shows to other programs: bytes and numbers. Nothing is asked of a caller. To programs in C and Rust the crate
// `terminal_c` exports these functions, under the same names.
#![tactic(auto)]

ghost use Rattle.std.specs.Prelude.{◌≡◌};
ghost use Rattle.octets.specs.Crc.{crc};

// The CRC of the bytes (document 01, 'CRC').
pub fn terminal_crc(bytes: &[u8]) -> u8
    ensures { result ≡ crc bytes.now }
{
    octets::crc_of(bytes)
}
