// What is done: the reply written, memory stored to, the unit changed (document 01, 'Effects', 'Fields', 'Owner'). Memory is read and
// written by way of gather and scatter alone.
ghost use Rattle.std.specs.Prelude.{◌≡◌, ◌+◌, ◌*◌, ◌^◌, ◌≤◌, min, [], length, replicate, slice_index, take};
ghost use Rattle.octets.specs.Places.{part, placed};
ghost use Rattle.packets.specs.Reply.{data_in, replied};
ghost use Rattle.unit.specs.Granted.{Readable, Storable, Gatherable, Answerable};
ghost use Rattle.unit.specs.Fate.{byte_of, fate_number};
ghost use Rattle.unit.specs.Act.{combine_byte as Act·combine_byte, combined, last_of, stored, data_for, replied_to, field_written, changed, counted_unit};
ghost use Rattle.unit.specs.Fields.{field_of, named, values_of, field_bytes};

use crate::counters::counted;
use crate::decide::{Action, Plan};
use crate::fate::{Fate, status_byte};
use crate::fields;
use crate::fields::Named;
use crate::memory::{gather, scatter};
use crate::owner::Sender;
use crate::unit::Unit;
use octets::Octets;
use packets::{Command, Data, Reply};

// ---- the reply

// Writes the reply where the plan has one. Its data come from memory and unit as they are before the command.
pub(crate) fn respond(
    plan: Plan,
    unit: Unit,
    command: Command,
    link: u8,
    memory: &[u8],
    reply: &mut [u8],
)
    requires { Readable plan.action (length memory.now) × (fate_number plan.fate ≡ 20 → Answerable plan.action command.header command.path (byte_of plan.status) (length reply.old)) }
    ensures { reply.new ≡ replied_to plan unit command.header command.path link (record { memory = memory.now; reply = reply.old }) }
{
    if let Fate::Replied(_) = plan.fate {
        let to = Reply {
            command,
            status: status_byte(plan.status),
        };
        answer(to, plan.action, unit, link, memory, reply);
    }
}

fn answer(to: Reply, action: Action, unit: Unit, link: u8, memory: &[u8], out: &mut [u8])
    requires { Readable action (length memory.now) × Answerable action to.command.header to.command.path to.status (length out.old) }
    ensures { out.new ≡ replied to.command.path to.command.header to.status (data_for action unit link memory.now) out.old }
{
    match action {
        Action::Nothing
        | Action::Store(_, _, _)
        | Action::StoreLast(_, _, _)
        | Action::WriteField(_, _) => {
            write(to, Data::Bytes(&[]), out);
        }
        Action::ReadMemory(at, count) | Action::Combine(at, _, count) => {
            answer_memory(to, memory, at, count, out);
        }
        Action::RepeatByte(at, count) => {
            let byte = byte_at(memory, at, count);
            write(to, Data::Repeated(byte, count), out);
        }
        Action::ReadFields(address, count) => {
            let bytes = shown(unit, link, address, count);
            write(to, Data::Bytes(&bytes[..4 * count]), out);
        }
        Action::Swap(_, _) => {
            let device: [u8; 4] = unit.owner.device.to_octets();
            write(to, Data::Bytes(&device), out);
        }
    }
}

// Bytes of memory are gathered into their place in the reply, which is then written around them.
fn answer_memory(to: Reply, memory: &[u8], at: usize, count: usize, out: &mut [u8])
    requires { (at + count ≤ length memory.now) × Gatherable count to.command.header to.command.path to.status (length out.old) }
    ensures { out.new ≡ replied to.command.path to.command.header to.status (part at count memory.now) out.old }
{
    let place = to.command.path.data_place();
    gather(memory, at, &mut out[place..place + count]);
    write(to, Data::InPlace(count as u32), out);
}

// Writes a reply; where it is refused, what `replied` says is the buffer as it was.
// Kept: the refusal is not taken up; for `unwrap` it was left to show that the count of a repeated byte is below 2^24, since `judged` is of packets of any numbers.
fn write(to: Reply, bytes: Data, out: &mut [u8])
    ensures { out.new ≡ replied to.command.path to.command.header to.status (data_in to.command.path bytes.entry out.old) out.old }
{
    let _ = to.write(bytes, out);
}

// The byte at a place of memory, which is to be repeated. Where that is 0 times, there may be none.
fn byte_at(memory: &[u8], at: usize, count: u32) -> u8
    requires { at + min count 1 ≤ length memory.now }
    ensures { replicate count result ≡ replicate count (slice_index memory.now at) }
{
    if count == 0 {
        return 0;
    }
    let mut byte = [0; 1];
    gather(memory, at, &mut byte);
    byte[0]
}

// The fields from an address on, as they are read over that link, at the start of what can hold sixteen.
fn shown(unit: Unit, link: u8, address: u32, count: usize) -> [u8; 64]
    requires { (count ≤ 16) × (field_of address + count ≤ 2 ^ 14) }
    ensures { take (4 * count) result ≡ field_bytes (values_of unit.fields unit.owner unit.clock.last unit.links link) (named address count) }
{
    let v = fields::values(unit.fields, unit.owner, unit.clock.last, unit.links, link);
    Named { address, count }.bytes(v)
}

// ---- memory

pub(crate) fn store(action: Action, packet: &[u8], memory: &mut [u8])
    requires { Storable action (length packet.now) (length memory.old) }
    ensures { memory.new ≡ stored action packet.now memory.old }
{
    match action {
        Action::Nothing
        | Action::ReadMemory(_, _)
        | Action::RepeatByte(_, _)
        | Action::ReadFields(_, _)
        | Action::Swap(_, _)
        | Action::WriteField(_, _) => {}
        Action::Store(at, from, count) => scatter(&packet[from..from + count], memory, at),
        Action::StoreLast(at, from, count) => store_last(&packet[from..from + count], memory, at),
        Action::Combine(at, from, count) => {
            let masks = from + count;
            combine(
                &packet[from..masks],
                &packet[masks..masks + count],
                memory,
                at,
            );
        }
    }
}

// Of bytes stored one after the other at one place, the last is left.
fn store_last(bytes: &[u8], memory: &mut [u8], at: usize)
    requires { at + min (length bytes.now) 1 ≤ length memory.old }
    ensures { memory.new ≡ placed at (last_of bytes.now) memory.old }
{
    if !bytes.is_empty() {
        scatter(&bytes[bytes.len() - 1..], memory, at);
    }
}

// A read-modify-write of a few bytes, with as many masks.
fn combine(bytes: &[u8], masks: &[u8], memory: &mut [u8], at: usize)
    requires { (at + length bytes.now ≤ length memory.old) × (length masks.now ≡ length bytes.now) × (length bytes.now ≤ 4) }
    ensures { memory.new ≡ placed at (combined (part at (length bytes.now) memory.old) bytes.now masks.now) memory.old }
{
    let mut room = [0; 4];
    let read = &mut room[..bytes.len()];
    gather(memory, at, read);
    combine_with(bytes, masks, read);
    scatter(read, memory, at);
}

// Bytes that were read are combined, each with its byte and its mask.
// Kept: by index; the library's contracts tell only the length of what `iter_mut` wrote.
fn combine_with(bytes: &[u8], masks: &[u8], read: &mut [u8])
    requires { (length bytes.now ≡ length read.old) × (length masks.now ≡ length read.old) }
    ensures { read.new ≡ combined read.old bytes.now masks.now }
{
    for i in 0..read.len() {
        read[i] = combine_byte(masks[i], bytes[i], read[i]);
    }
}

fn combine_byte(mask: u8, byte: u8, read: u8) -> u8
    ensures { result ≡ Act·combine_byte mask byte read }
{
    (mask & byte) | ((mask ^ 0xFF) & read)
}

// ---- the unit

impl Unit {
    // After an action of that sender.
    pub(crate) fn change(self, action: Action, sender: Sender) -> Unit
        ensures { result ≡ changed action self sender.initiator sender.path sender.link }
    {
        match action {
            Action::Nothing
            | Action::ReadMemory(_, _)
            | Action::RepeatByte(_, _)
            | Action::Store(_, _, _)
            | Action::StoreLast(_, _, _)
            | Action::Combine(_, _, _)
            | Action::ReadFields(_, _) => self,
            Action::Swap(new, expected) => {
                let owner = self.owner.swap(new, expected, sender);
                Unit { owner, ..self }
            }
            Action::WriteField(address, word) => self.write_field(address, word),
        }
    }

    // Time-Code counter and divider are the fields that are written.
    fn write_field(self, address: u32, word: u32) -> Unit
        ensures { result ≡ field_written self address word }
    {
        match fields::row_of(address) {
            Some(fields::TIME_CODE_COUNTER) => {
                let clock = self.clock.write_time_code(word);
                Unit { clock, ..self }
            }
            Some(fields::DIVIDER) => {
                let fields = self.fields.write_divider(word);
                Unit { fields, ..self }
            }
            _ => self,
        }
    }

    pub(crate) fn count(self, fate: Fate) -> Unit
        ensures { result ≡ counted_unit fate self }
    {
        let counters = counted(self.counters, fate);
        Unit { counters, ..self }
    }
}
