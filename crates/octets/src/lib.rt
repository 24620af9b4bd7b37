// Layer 1, bytes and CRC: the CRC of 001 clause 5.2, numbers in bytes, and copies into lent buffers. Nothing here knows of
// packets. Every public function takes any input, and promises an equation for what it returns and what it leaves.
#![tactic(auto)]

mod blocks;
mod copies;
mod crc;
mod numbers;
mod table;
mod words;

pub use copies::{NoRoom, copy_part, fill, move_to_start};
pub use crc::{crc_from, crc_of};
pub use numbers::{Octets, read_number, write_number};
