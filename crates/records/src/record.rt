// A record of a log (document 01, 'Bench program'): mark 5A 57, kind, link, end, length of the body (2 bytes), body.
ghost use Rattle.std.specs.Prelude.{◌≡◌};
ghost use Rattle.records.specs.Record.{read_record as Record·read_record, size_of};
ghost use Rattle.records.specs.Between.{read_behind as Between·read_behind};

use octets::Octets;
use packets::End;

// What a record asks for: a packet with its end, its link and its length, a Time-Code, or ticks.
#[derive(Clone, Copy)]
pub enum Item {
    Packet(End, u8, u16),
    TimeCode(u8),
    Ticks(u32),
}

impl Item {
    // How many bytes its record has.
    pub fn size(self) -> usize
        ensures { result ≡ size_of self }
    {
        match self {
            Item::Packet(_, _, size) => 7 + size as usize,
            Item::TimeCode(_) => 8,
            Item::Ticks(_) => 11,
        }
    }
}

// Why bytes begin with no whole record: it is wrong, or there are too few bytes to tell or for it to be whole.
#[derive(Clone, Copy)]
pub enum NoRecord {
    Wrong,
    Cut,
}

// Reads the record that the bytes begin with.
pub fn read_record(log: &[u8]) -> Result<Item, NoRecord>
    ensures { result ≡ Record·read_record log.now }
{
    match log.split_first_chunk::<7>() {
        Some((head, behind)) => read_behind(head, behind),
        None => Err(NoRecord::Cut),
    }
}

// Each kind, with the link, the end and the length of the body that go with it, and what it asks for where all of its body is there.
fn read_behind(head: &[u8; 7], behind: &[u8]) -> Result<Item, NoRecord>
    ensures { result ≡ Between·read_behind head.now behind.now }
{
    let [0x5A, 0x57, kind, link, end, high, low] = *head else {
        return Err(NoRecord::Wrong);
    };
    let size = u16::from_octets([high, low]);
    let body = behind.get(..size as usize);
    let item = match (kind, link, end, size) {
        (1, _, 0, 0..=4096) => body.map(|_| Item::Packet(End::Eop, link, size)),
        (1, _, 1, 0..=4096) => body.map(|_| Item::Packet(End::Eep, link, size)),
        (2, 0, 0, 1) => behind.first().map(|byte| Item::TimeCode(*byte)),
        (3, 0, 0, 4) => behind
            .first_chunk::<4>()
            .map(|count| Item::Ticks(u32::from_octets(*count))),
        _ => return Err(NoRecord::Wrong),
    };
    item.ok_or(NoRecord::Cut)
}
