// What a packet comes to, judged before anything is touched (document 01, 'Numbers a caller gets', 'Reading a packet'): by the unit less its counters,
// by what arrived, as it is read, and by the sizes of what is lent. What memory holds is not looked at.
ghost use Rattle.std.specs.Prelude.{◌≡◌};
ghost use Rattle.packets.specs.Time.{read_time};
ghost use Rattle.unit.specs.Given.{as_read};
ghost use Rattle.unit.specs.Judge.{time_ruling as Judge·time_ruling, judged};

use crate::decide::{Plan, decide};
use crate::fate::Fate;
use crate::unit::Unit;
use packets::{Command, End, Packet, Time};

// How long memory and reply buffer are.
#[derive(Clone, Copy)]
pub struct Sizes {
    pub memory: usize,
    pub reply: usize,
}

// What a packet comes to.
#[derive(Clone, Copy)]
pub enum Ruling {
    // Its fate is all: 1, 2, 11 to 16.
    Ends(Fate),
    // It is a time packet that is taken: 19.
    SetsTime(Time),
    // It is a command, and this is the plan for it: 3, 17, 18, 20.
    Planned(Command, Plan),
}

// What arrived, as it is read: a packet without its end, the end, and the link that it came on.
#[derive(Clone, Copy)]
pub(crate) struct Arrived<'a> {
    pub packet: &'a [u8],
    pub end: End,
    pub link: u8,
}

impl<'a> Arrived<'a> {
    // A packet, without its end, that came on that link.
    pub(crate) fn of(packet: &'a [u8], end: End, link: u8) -> Arrived<'a>
        ensures { record { packet = result.packet.now; end = result.end; link = result.link } ≡ as_read (record { packet = packet.now; end = end; link = link }) }
    {
        Arrived {
            packet: packets::bare(packet),
            end,
            link,
        }
    }
}

// Judges a packet, without its end, that came on a link, with memory and a reply buffer of those sizes.
pub fn judge(unit: Unit, packet: &[u8], end: End, link: u8, sizes: Sizes) -> Ruling
    ensures { result ≡ judged unit (as_read (record { packet = packet.now; end = end; link = link })) sizes }
{
    judge_read(unit, Arrived::of(packet, end, link), sizes)
}

// Judges a packet as it is read.
pub(crate) fn judge_read(unit: Unit, arrived: Arrived, sizes: Sizes) -> Ruling
    ensures { result ≡ judged unit (record { packet = arrived.entry.packet.now; end = arrived.entry.end; link = arrived.entry.link }) sizes }
{
    if !unit.is_usable(sizes.memory) {
        return Ruling::Ends(Fate::Unusable);
    }
    if !((1 <= arrived.link) & (arrived.link <= unit.links)) {
        return Ruling::Ends(Fate::NoSuchLink);
    }
    match packets::read_packet(arrived.packet, unit.number) {
        Err(why) => Ruling::Ends(Fate::Unread(why)),
        Ok(Packet::Time) => time_ruling(unit, arrived.packet, arrived.end),
        Ok(Packet::Command(command)) => {
            let plan = decide(unit, command, arrived, sizes.reply);
            Ruling::Planned(command, plan)
        }
    }
}

// A time packet: 16 thrown away, or 19 taken.
fn time_ruling(unit: Unit, packet: &[u8], end: End) -> Ruling
    ensures { result ≡ Judge·time_ruling (read_time packet.now end unit.logical unit.number) }
{
    match packets::read_time(packet, end, unit.logical, unit.number) {
        None => Ruling::Ends(Fate::TimeThrownAway),
        Some(time) => Ruling::SetsTime(time),
    }
}
