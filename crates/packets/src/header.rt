// The header of a command (document 01, 'Reading a packet'; 001, 5.1.2 to 5.1.12).
ghost use Rattle.std.specs.Prelude.{◌≡◌, ◌+◌, ◌≤◌, length};
ghost use Rattle.packets.specs.Header.{parts_at};

use crate::instruction::Instruction;
use octets::Octets;

// Its parts, less the reply address, which a path keeps, and the CRC.
// Kept: `protocol` is the byte that came. A reply sends it back (`reply_start`), and definitions compare it (`read_protocol`, `header_status`).
#[derive(Clone, Copy, PartialEq, Eq)]
pub struct Header {
    pub target: u8,
    pub protocol: u8,
    pub instruction: Instruction,
    pub key: u8,
    pub initiator: u8,
    pub transaction: u16,
    pub extended: u8,
    pub address: u32,
    pub length: u32,
}

// The parts of a header whose reply address ends before `at`.
pub(crate) fn parts(p: &[u8], at: usize) -> Header
    requires { (4 ≤ at) × (at + 12 ≤ length p.now) }
    ensures { result ≡ parts_at p.now at }
{
    let transaction_at = at + 1;
    let address_at = at + 4;
    let length_at = at + 8;
    Header {
        target: p[0],
        protocol: p[1],
        instruction: Instruction { byte: p[2] },
        key: p[3],
        initiator: p[at],
        transaction: u16::from_octets([p[transaction_at], p[transaction_at + 1]]),
        extended: p[at + 3],
        address: u32::from_octets([
            p[address_at],
            p[address_at + 1],
            p[address_at + 2],
            p[address_at + 3],
        ]),
        length: u32::from_octets([p[length_at], p[length_at + 1], p[length_at + 2]]),
    }
}
