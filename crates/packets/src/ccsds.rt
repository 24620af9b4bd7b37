// The CCSDS packet, which carries one space packet (document 02, 11).
ghost use Rattle.std.specs.Prelude.{◌≡◌, length};
ghost use Rattle.packets.specs.Ccsds.{ccsds_number_of, unsent_number_of, is_space_packet as Ccsds·is_space_packet, space_packet_in, read_ccsds as Ccsds·read_ccsds, sending, sent};

use crate::places::put;
use crate::reading::End;
use octets::Octets;

// Why nothing is sent.
#[derive(Clone, Copy, PartialEq, Eq)]
pub enum Unsent {
    WrongSpacePacket = 41,
    OutputTooShort = 42,
}

impl Unsent {
    // Document 02's number.
    pub fn number(self) -> u8
        ensures { result ≡ unsent_number_of self }
    {
        self as u8
    }
}

// The user application that a packet is for, read as a CCSDS packet to the unit with that logical address. Anything else is for none, and is
// thrown away.
pub fn read_ccsds(packet: &[u8], end: End, logical: u8) -> Option<u8>
    ensures { result ≡ Ccsds·read_ccsds packet.now end logical }
{
    if packet.len() < 4 {
        return None;
    }
    let eop = end.is_eop();
    let right = is_space_packet(&packet[4..]);
    if ((packet[0] == logical) | (packet[0] == 0xFE))
        & (packet[1] == 0x02)
        & (packet[2] == 0x00)
        & eop
        & right
    {
        return Some(packet[3]);
    }
    None
}

// Document 02's number of what came of that: taken, or thrown away.
// Kept: a `match`; an Option has no number of its own, and the promise is `ccsds_number_of`.
pub fn ccsds_number(read: Option<u8>) -> u8
    ensures { result ≡ ccsds_number_of read }
{
    match read {
        Some(_) => 21,
        None => 22,
    }
}

// The space packet that a CCSDS packet carries: the part behind its first four bytes. Of fewer there is none.
pub fn space_packet(packet: &[u8]) -> &[u8]
    ensures { result.now ≡ space_packet_in packet.now }
{
    if packet.len() < 4 {
        return &[];
    }
    &packet[4..]
}

// Writes the CCSDS packet to an address, for a user application, at the start of a lent buffer, all or nothing. Answers how many bytes it has.
pub fn write_ccsds(
    address: u8,
    application: u8,
    space: &[u8],
    out: &mut [u8],
) -> Result<usize, Unsent>
    ensures answers { result ≡ sending space.now (length out.old) }
    ensures leaves { out.new ≡ sent address application space.now out.old }
{
    if !is_space_packet(space) {
        return Err(Unsent::WrongSpacePacket);
    }
    let size = 4 + space.len();
    if out.len() < size {
        return Err(Unsent::OutputTooShort);
    }
    put(&[address, 0x02, 0x00, application], out, 0);
    put(space, out, 4);
    Ok(size)
}

// Whether bytes are a right space packet: of version 0, with as many bytes as its length field tells, which is 7 less.
fn is_space_packet(s: &[u8]) -> bool
    ensures { result ≡ Ccsds·is_space_packet s.now }
{
    if s.len() < 7 {
        return false;
    }
    let field = u16::from_octets([s[4], s[5]]) as usize;
    (s[0] / 0b0010_0000 == 0) & (field + 7 == s.len())
}
