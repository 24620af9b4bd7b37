// What a packet is, as far as its header tells (document 01, 'Reading a packet'; document 02, 2).
ghost use Rattle.std.specs.Prelude.{◌≡◌, ◌+◌, ◌≤◌, length};
ghost use Rattle.packets.specs.Instruction.{reply_address_size};
ghost use Rattle.packets.specs.Header.{instruction_at};
ghost use Rattle.packets.specs.Reading.{is_eop as Reading·is_eop, number_of, bare as Reading·bare, command as Reading·command, read_command as Reading·read_command, read_packet as Reading·read_packet};

use crate::header::Header;
use crate::instruction::Instruction;
use crate::path::Path;
use crate::{header, path};

// How a packet ended.
#[derive(Clone, Copy, PartialEq, Eq)]
pub enum End {
    Eop,
    Eep,
}

// Why a packet goes no further.
#[derive(Clone, Copy, PartialEq, Eq)]
pub enum Refusal {
    Incomplete = 11,
    UnknownProtocol = 12,
    ExtendedProtocol = 13,
    Reply = 14,
    HeaderCrc = 15,
}

// A packet that goes further: one for the time receiver, or a command.
#[derive(Clone, Copy, PartialEq, Eq)]
pub enum Packet {
    Time,
    Command(Command),
}

// A command: the parts of its header, and the path of its reply address.
#[derive(Clone, Copy, PartialEq, Eq)]
pub struct Command {
    pub header: Header,
    pub path: Path,
}

// Kept: a function that only says `==`. Whoever asks for the end goes by its promise, which docs/PROMISES.md and `PacketsDetermined` (demands) name.
impl End {
    pub fn is_eop(self) -> bool
        ensures { result ≡ Reading·is_eop self }
    {
        self == End::Eop
    }
}

impl Refusal {
    // Document 01's number.
    pub fn number(self) -> u8
        ensures { result ≡ number_of self }
    {
        self as u8
    }
}

// The packet as it is to be read: where it begins 00 FE 03, without that zero, which is the end of the path to us and no part of a plug-and-play packet. Everything
// that goes by places in the packet has to be given this.
pub fn bare(packet: &[u8]) -> &[u8]
    ensures { result.now ≡ Reading·bare packet.now }
{
    if packet.starts_with(&[0x00, 0xFE, 0x03]) {
        &packet[1..]
    } else {
        packet
    }
}

// Reads the bytes of a packet as they are, by the second, the protocol. `number` is the time number of the unit.
pub fn read_packet(packet: &[u8], number: u8) -> Result<Packet, Refusal>
    ensures { result ≡ Reading·read_packet packet.now number }
{
    let protocol = *packet.get(1).ok_or(Refusal::Incomplete)?;
    match protocol {
        0x00 => Err(Refusal::ExtendedProtocol),
        0x01 | 0x03 => read_command(packet),
        0xF0..=0xFE if protocol == number => Ok(Packet::Time),
        _ => Err(Refusal::UnknownProtocol),
    }
}

// Reads a packet of protocol 01 or 03.
fn read_command(packet: &[u8]) -> Result<Packet, Refusal>
    ensures { result ≡ Reading·read_command packet.now }
{
    let byte = *packet.get(2).ok_or(Refusal::Incomplete)?;
    let instruction = Instruction { byte };
    if instruction.packet_type() == 0 {
        return Err(Refusal::Reply);
    }
    let header = packet
        .get(..instruction.header_size())
        .ok_or(Refusal::Incomplete)?;
    if octets::crc_of(header) != 0 {
        return Err(Refusal::HeaderCrc);
    }
    Ok(Packet::Command(command_of(packet, 4 + instruction.reply_address_size())))
}

// The parts of a command whose header is whole, and whose reply address ends before `at`.
fn command_of(packet: &[u8], at: usize) -> Command
    requires { (at ≡ 4 + reply_address_size (instruction_at packet.now)) × (at + 12 ≤ length packet.now) }
    ensures { result ≡ Reading·command packet.now }
{
    Command {
        header: header::parts(packet, at),
        path: path::keep(&packet[4..at]),
    }
}
