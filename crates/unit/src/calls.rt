// The three calls on a unit (document 01, 'The terminal and its neighbours', 'Numbers a caller gets').
ghost use Rattle.std.specs.Prelude.{◌≡◌, length};
ghost use Rattle.unit.specs.Granted.{GrantedBy, GrantedTo, SameLent};
ghost use Rattle.unit.specs.Act.{counted_unit, with_clock};
ghost use Rattle.unit.specs.Calls.{without_reply as Calls·without_reply, small_call as Calls·small_call, acted, done, take_packet as Calls·take_packet, take_time_code as Calls·take_time_code, take_ticks as Calls·take_ticks};

use crate::act;
use crate::clock::Clock;
use crate::decide::Plan;
use crate::fate::Fate;
use crate::judging::{Arrived, Ruling, Sizes, judge_read};
use crate::owner::Sender;
use crate::unit::Unit;
use packets::{Command, End};

// The unit after the call, what became of it, and how many bytes of the reply buffer are the reply, 0 where there is none.
// Kept: `length` beside the fate; callers read it (`records`, `trials`, `hello`), and demands' `Meaning` equates it with `length_in`.
#[derive(Clone, Copy)]
pub struct Answer {
    pub unit: Unit,
    pub fate: Fate,
    pub length: usize,
}

// Takes a packet, without its end, that came on a link.
// Kept: no `Arrived` as a parameter; it is what callers outside write (`hello`, README).
pub fn take_packet(
    unit: Unit,
    packet: &[u8],
    end: End,
    link: u8,
    memory: &mut [u8],
    reply: &mut [u8],
) -> Answer
    ensures { record { answer = result; memory = memory.new; reply = reply.new } ≡ Calls·take_packet unit (record { packet = packet.now; end = end; link = link }) (record { memory = memory.old; reply = reply.old }) }
{
    let sizes = Sizes {
        memory: memory.len(),
        reply: reply.len(),
    };
    let arrived = Arrived::of(packet, end, link);
    let ruling = judge_read(unit, arrived, sizes);
    let mut lent = Lent { memory, reply };
    carry_out(ruling, unit, arrived, &mut lent)
}

// Takes a Time-Code: its low six bits.
pub fn take_time_code(unit: Unit, byte: u8) -> Answer
    ensures { result ≡ Calls·take_time_code unit byte }
{
    small_call(unit, unit.clock.take_code(byte))
}

// Takes a number of clock ticks.
pub fn take_ticks(unit: Unit, ticks: u32) -> Answer
    ensures { result ≡ Calls·take_ticks unit ticks }
{
    small_call(unit, unit.clock.add_ticks(ticks))
}

// A unit that is usable goes on with that clock.
fn small_call(unit: Unit, clock: Clock) -> Answer
    ensures { result ≡ Calls·small_call unit (with_clock unit clock) }
{
    if !unit.is_usable_alone() {
        return without_reply(unit, Fate::Unusable);
    }
    without_reply(Unit { clock, ..unit }, Fate::TimeChanged)
}

// Without a reply, and counted or not.
fn without_reply(unit: Unit, fate: Fate) -> Answer
    ensures { result ≡ Calls·without_reply fate unit }
{
    Answer {
        unit,
        fate,
        length: 0,
    }
}

// Counted, if it is a fate that counts.
fn ended(unit: Unit, fate: Fate) -> Answer
    ensures { result ≡ Calls·without_reply fate (counted_unit fate unit) }
{
    without_reply(unit.count(fate), fate)
}

// What is lent to a call: memory, and the buffer for the reply.
#[derive(Drop)]
struct Lent<'a> {
    memory: &'a mut [u8],
    reply: &'a mut [u8],
}

// Does what was judged that a packet comes to.
fn carry_out(ruling: Ruling, unit: Unit, arrived: Arrived, lent: &mut Lent) -> Answer
    requires { GrantedBy ruling (length arrived.packet.now) (length lent.old.memory.now) (length lent.old.reply.now) }
    ensures same_lent { SameLent lent.old lent.new }
    ensures does { record { answer = result; memory = lent.new.memory.now; reply = lent.new.reply.now } ≡ done ruling unit arrived.entry.packet.now arrived.entry.link (record { memory = lent.old.memory.now; reply = lent.old.reply.now }) }
{
    match ruling {
        Ruling::Ends(fate) => ended(unit, fate),
        Ruling::SetsTime(time) => {
            let clock = unit.clock.set_time(time);
            ended(Unit { clock, ..unit }, Fate::TimeTaken)
        }
        Ruling::Planned(command, plan) => follow(plan, unit, command, arrived, lent),
    }
}

// Follows the plan for a command. The reply goes first, since it tells what was there before.
fn follow(plan: Plan, unit: Unit, command: Command, arrived: Arrived, lent: &mut Lent) -> Answer
    requires { GrantedTo plan command.header command.path (length arrived.packet.now) (length lent.old.memory.now) (length lent.old.reply.now) }
    ensures same_lent { SameLent lent.old lent.new }
    ensures does { record { answer = result; memory = lent.new.memory.now; reply = lent.new.reply.now } ≡ acted plan unit command.header command.path arrived.entry.packet.now arrived.entry.link (record { memory = lent.old.memory.now; reply = lent.old.reply.now }) }
{
    let memory = &mut *lent.memory;
    let reply = &mut *lent.reply;
    act::respond(plan, unit, command, arrived.link, memory, reply);
    act::store(plan.action, arrived.packet, memory);
    let sender = Sender::of(command, arrived.link);
    Answer {
        unit: unit.change(plan.action, sender).count(plan.fate),
        fate: plan.fate,
        length: plan.length,
    }
}
