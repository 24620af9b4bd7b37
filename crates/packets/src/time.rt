// The time packet (document 01, 'Time', with request 12 of document 02; 004, 'CCSDS Unsegmented Code Transfer Protocol Format').
ghost use Rattle.std.specs.Prelude.{◌≡◌, ◌+◌, ◌≤◌, ◌==◌, length};
ghost use Rattle.std.specs.List.{list_all};
ghost use Rattle.packets.specs.Time.{time_number_of, when_of as Time·when_of, octet_bits, added_seconds as Time·added_seconds, is_time_packet as Time·is_time_packet, time_at as Time·time_at, read_time as Time·read_time};

use crate::reading::End;
use octets::Octets;

// When the time that a packet brings is to be taken: at the wrap of the Time-Code, or at once.
#[derive(Clone, Copy, PartialEq, Eq)]
pub enum When {
    AtWrap,
    AtOnce,
}

// What a time packet says: the epoch code (9F or AF), when to take the time, and the time: seconds in 32 bits, their fraction in 24.
#[derive(Clone, Copy, PartialEq, Eq)]
pub struct Time {
    pub epoch: u8,
    pub when: When,
    pub value: u64,
}

// The time that a packet brings, read as a time packet of the unit with that logical address and time number. Anything else brings none, and is
// thrown away.
pub fn read_time(packet: &[u8], end: End, logical: u8, number: u8) -> Option<Time>
    ensures { result ≡ Time·read_time packet.now end logical number }
{
    if is_time_packet(packet, end, logical, number) {
        Some(time_at(packet))
    } else {
        None
    }
}

// Document 01's number of what came of that: thrown away, or taken.
// Kept: a `match`; an Option has no number of its own, and the promise is `time_number_of`.
pub fn time_number(read: Option<Time>) -> u8
    ensures { result ≡ time_number_of read }
{
    match read {
        None => 16,
        Some(_) => 19,
    }
}

// How many octets of seconds the second preamble octet adds, by its bits 1-2, and how many of fraction, by its bits 3-5 (004, 'Draft P-Field
// format'; bit 0 is the most significant).
// Kept: one expression each; a function of the places would need a shift that fits, and say less.
fn added_seconds(octet: u8) -> usize
    ensures { result ≡ octet_bits 1 2 octet }
{
    (octet / 0b0010_0000 % 4) as usize
}

fn added_fraction(octet: u8) -> usize
    ensures { result ≡ octet_bits 3 5 octet }
{
    (octet / 0b0000_0100 % 8) as usize
}

fn is_time_packet(p: &[u8], end: End, logical: u8, number: u8) -> bool
    ensures { result ≡ Time·is_time_packet p.now end logical number }
{
    if p.len() < 12 {
        return false;
    }
    let octet = p[3];
    let seconds = added_seconds(octet);
    if p.len() != 12 + seconds + added_fraction(octet) {
        return false;
    }
    let eop = end.is_eop();
    let zeros = are_zeros(&p[4..4 + seconds]);
    let sum = octets::crc_of(p);
    eop & ((p[0] == logical) | (p[0] == 0xFE))
        & (p[1] == number)
        & ((p[2] == 0x9F) | (p[2] == 0xAF))
        & ((octet / 0b1000_0000 % 2 == 0) & (octet / 0b0000_0010 % 2 == 0))
        & zeros
        & (sum == 0)
}

// Whether bytes are all zero, and so worth nothing.
fn are_zeros(s: &[u8]) -> bool
    ensures { result ≡ list_all (λ b. b == 0) s.now }
{
    s.iter().all(|&byte| byte == 0)
}

// What a time packet says of the time. T is behind the seconds that were added.
fn time_at(p: &[u8]) -> Time
    requires { 12 + Time·added_seconds p.now ≤ length p.now }
    ensures { result ≡ Time·time_at p.now }
{
    let octet = p[3];
    let at = 4 + added_seconds(octet);
    Time {
        epoch: p[2],
        when: when_of(octet % 2),
        value: u64::from_octets([
            p[at],
            p[at + 1],
            p[at + 2],
            p[at + 3],
            p[at + 4],
            p[at + 5],
            p[at + 6],
        ]),
    }
}

// Kept: a From of bool or u8 would be no plainer, since it would give every truth or number a When, and this is of one bit's two.
fn when_of(bit: u8) -> When
    ensures { result ≡ Time·when_of bit }
{
    if bit == 1 { When::AtOnce } else { When::AtWrap }
}
