// What `terminal` exports to programs in C and Rust, under names that begin with the library's: each function calls the one of that name and
// promises the same. A slice is a pointer and a length there. Nothing is asked of a caller but that these are the bytes it says.
#![tactic(auto)]

ghost use Rattle.std.specs.Prelude.{◌≡◌};
ghost use Rattle.octets.specs.Crc.{crc};

// The CRC of the bytes (document 01, 'CRC').
#[unsafe(no_mangle)]
pub extern "C" fn terminal_crc(bytes: &[u8]) -> u8
    ensures { result ≡ crc bytes.now }
{
    terminal::terminal_crc(bytes)
}
