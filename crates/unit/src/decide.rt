// What is to be done with a command (document 01, 'Reading a packet', 'Span', 'Fields'). It is decided before anything is touched, from
// the unit less its counters and from the packet; what memory holds is not looked at.
ghost use Rattle.std.specs.Prelude.{◌≡◌, ◌+◌, ◌≤◌, true, length, ◌≢◌};
ghost use Rattle.octets.specs.Crc.{crc as Crc·crc};
ghost use Rattle.octets.specs.Numbers.{number};
ghost use Rattle.octets.specs.Places.{part};
ghost use Rattle.packets.specs.Instruction.{header_size};
ghost use Rattle.packets.specs.Header.{kind_in};
ghost use Rattle.unit.specs.Fate.{is_success};
ghost use Rattle.unit.specs.Decide.{opening_status as Decide·opening_status, span_size as Decide·span_size, is_authorised as Decide·is_authorised, span_status as Decide·span_status, is_field_length as Decide·is_field_length, field_count as Decide·field_count, names_fields as Decide·names_fields, offence_in as Decide·offence_in, is_allowed as Decide·is_allowed, fields_status as Decide·fields_status, header_status as Decide·header_status, wanted_count as Decide·wanted_count, data_status as Decide·data_status, data_status_on};
ghost use Rattle.unit.specs.Granted.{WordsThere};
ghost use Rattle.unit.specs.Plan.{read_action as Plan·read_action, rmw_action as Plan·rmw_action, write_action as Plan·write_action, memory_action as Plan·memory_action, field_action as Plan·field_action, reply_count as Plan·reply_count, unanswered_fate, planned_for, decided_by_data, decided};

use crate::fate::{Fate, Offence, Status, status_byte};
use crate::fields::{Named, swap_offence};
use crate::judging::Arrived;
use crate::owner::{Owner, Sender};
use crate::unit::Unit;
use crate::windows::Windows;
use octets::Octets;
use packets::{Command, End, Header, Instruction, Kind, Path, Reply};

// ---- the first half: what the header decides

// A command, and its kind, which is looked up once.
#[derive(Clone, Copy)]
struct Asked {
    command: Command,
    kind: Kind,
    ghost kind_is: { kind ≡ kind_in command.header },
}

impl From<Command> for Asked {
    ghost from_gives = { λ command asked. asked.command ≡ command };

    fn from(command: Command) -> Asked {
        Asked {
            command,
            kind: command.header.instruction.kind(),
        }
    }
}

impl Asked {
    // The checks that RMAP and plug-and-play share: unused type or code, key, logical address.
    fn opening_status(self, key: u8, logical: u8) -> Status
        ensures { result ≡ Decide·opening_status self.command.header key logical }
    {
        let h = self.command.header;
        if h.instruction.packet_type() != 1 {
            return Err(Offence::UnusedCode);
        }
        if self.kind.is_unused() {
            return Err(Offence::UnusedCode);
        }
        if h.key != key {
            return Err(Offence::WrongKey);
        }
        if (h.target != logical) & (h.target != 0xFE) {
            return Err(Offence::WrongAddress);
        }
        Ok(())
    }

    // How many bytes of memory a command speaks of.
    fn span_size(self) -> u32
        ensures { result ≡ Decide·span_size self.command.header }
    {
        let h = self.command.header;
        if self.kind.is_rmw() {
            return h.length / 2;
        }
        if h.instruction.is_incrementing() {
            return h.length;
        }
        h.length.min(1)
    }

    fn is_authorised(self, windows: Windows) -> bool
        ensures { result ≡ Decide·is_authorised windows self.command.header }
    {
        let h = self.command.header;
        if h.extended != 0 {
            return false;
        }
        windows.any_allows(self.kind, h.address, self.span_size())
    }

    // The checks of RMAP behind the opening.
    fn span_status(self, windows: Windows) -> Status
        ensures { result ≡ Decide·span_status windows self.command.header }
    {
        let h = self.command.header;
        if self.kind.is_rmw() & ((8 < h.length) | (h.length % 2 != 0)) {
            return Err(Offence::RmwLength);
        }
        if !self.is_authorised(windows) {
            return Err(Offence::NotAuthorised);
        }
        if h.instruction.is_write() & h.instruction.is_verified() & (1024 < h.length) {
            return Err(Offence::VerifyOverrun);
        }
        Ok(())
    }

    // Whether it is one of the commands that fields know.
    fn names_fields(self) -> bool
        ensures { result ≡ Decide·names_fields self.command.header }
    {
        let h = self.command.header;
        let code = h.instruction.code();
        (h.extended == 0)
            & ((code == 0b1111) | (code == 0b0011) | (code == 0b0111))
            & is_field_length(self.kind, h.length)
            & (h.address % 0x4000 + field_count(self.kind, h.length) <= 0x4000)
    }

    // The checks of plug-and-play behind the opening.
    fn fields_status(self, owner: Owner, link: u8) -> Status
        ensures { result ≡ Decide·fields_status owner self.command.header self.command.path link }
    {
        let h = self.command.header;
        if !self.names_fields() {
            return Err(Offence::NotAuthorised);
        }
        let named = Named {
            address: h.address,
            count: field_count(self.kind, h.length) as usize,
        };
        if named.any_missing() {
            return Err(Offence::NoSuchField);
        }
        offence_in(self.kind, named)?;
        if !is_allowed(self.kind, owner, Sender::of(self.command, link)) {
            return Err(Offence::NotOwner);
        }
        Ok(())
    }

    fn header_status(self, unit: Unit, link: u8) -> Status
        ensures { result ≡ Decide·header_status unit self.command.header self.command.path link }
    {
        if self.command.header.protocol == 0x01 {
            self.opening_status(unit.key, unit.logical)?;
            return self.span_status(unit.windows);
        }
        self.opening_status(0x00, 0xFE)?;
        self.fields_status(unit.owner, link)
    }
}

fn is_field_length(kind: Kind, length: u32) -> bool
    ensures { result ≡ Decide·is_field_length kind length }
{
    if kind.is_rmw() {
        return length == 8;
    }
    (length % 4 == 0) & (4 <= length) & (length <= 64)
}

// How many fields a command names.
fn field_count(kind: Kind, length: u32) -> u32
    ensures { result ≡ Decide·field_count kind length }
{
    if kind.is_rmw() {
        return 1;
    }
    length / 4
}

// What a command offends among the fields that it names, all of which are there.
fn offence_in(kind: Kind, named: Named) -> Status
    ensures { result ≡ Decide·offence_in kind named.address named.count }
{
    match kind {
        Kind::Unused | Kind::Read => Ok(()),
        Kind::ReadModifyWrite => swap_offence(named.address),
        Kind::Write => named.write_offence(),
    }
}

// Whether the sender may: anyone reads; the owner writes; the owner swaps, and anyone where there is none.
fn is_allowed(kind: Kind, owner: Owner, sender: Sender) -> bool
    ensures { result ≡ Decide·is_allowed kind owner sender.initiator sender.path sender.link }
{
    match kind {
        Kind::Unused | Kind::Read => true,
        Kind::ReadModifyWrite => (owner.device == 0) | owner.is(sender),
        Kind::Write => owner.is(sender),
    }
}

// ---- the second half: what the data decide

impl Asked {
    // How many bytes a command wants after its header.
    fn wanted_count(self) -> usize
        ensures { result ≡ Decide·wanted_count self.command.header }
    {
        if self.kind.is_read() {
            return 0;
        }
        self.command.header.length as usize + 1
    }
}

// By the number k of bytes behind the header, and by their CRC.
fn data_status(k: usize, crc: u8, wanted: usize, end: End) -> Status
    ensures { result ≡ Decide·data_status k crc wanted end }
{
    let eop = end.is_eop();
    if !eop {
        return Err(Offence::EndedByEep);
    }
    if k < wanted {
        return Err(Offence::EarlyEop);
    }
    if wanted < k {
        return Err(Offence::TooMuchData);
    }
    if crc != 0 {
        return Err(Offence::DataCrc);
    }
    Ok(())
}

// The CRC of the bytes behind a header, where it bears on the status: they ended by EOP, and as many came as are wanted. Elsewhere 0, which then gives
// the same.
// Kept: 0 where it does not bear. As a closure, which is called where it does, it proves too, but the contracts of what it is handed to would speak of all that a closure may answer;
// and an Option would give `data_status` a case that its definition does not have.
fn data_crc(bytes: &[u8], wanted: usize, end: End) -> u8
    ensures { Decide·data_status (length bytes.now) result wanted end ≡ Decide·data_status (length bytes.now) (Crc·crc bytes.now) wanted end }
{
    if !end.is_eop() {
        return 0;
    }
    if bytes.len() != wanted {
        return 0;
    }
    octets::crc_of(bytes)
}

// ---- the plan

// What is to be done. Places in memory and in the packet count from 0.
#[derive(Clone, Copy)]
pub enum Action {
    Nothing,
    // `count` bytes of memory from `at` on are answered; or its byte at `at`, `count` times.
    ReadMemory(usize, usize),
    RepeatByte(usize, u32),
    // `count` bytes of the packet from `from` on are stored from `at` on; or all at `at`, one after the other.
    Store(usize, usize, usize),
    StoreLast(usize, usize, usize),
    // `count` bytes of memory from `at` on are answered, then combined with as many data and masks of the packet from `from` on.
    Combine(usize, usize, usize),
    // `count` fields from an address on are answered.
    ReadFields(u32, usize),
    // Device ID is answered, then swapped: the new value, the expected one.
    Swap(u32, u32),
    // A field, by its address, is written with a word.
    WriteField(u32, u32),
}

// The fate; the status that is due, also where fate 3 carries none; the action; and the length of the reply, 0 where there is none.
// Kept: `status` and `length` beside a fate; the public `Meaning` of demands equates `length` with `length_in`, and fate 3 has a status too.
#[derive(Clone, Copy)]
pub struct Plan {
    pub fate: Fate,
    pub status: Status,
    pub action: Action,
    pub length: usize,
}

impl Asked {
    // What an RMAP command does that its header allows. `from` is where its data begin in the packet, k how many bytes come there.
    fn memory_action(self, status: Status, from: usize, k: usize) -> Action
        ensures { result ≡ Plan·memory_action self.command.header status from k }
    {
        let h = self.command.header;
        let i = h.instruction;
        let at = h.address as usize;
        let n = h.length as usize;
        match self.kind {
            Kind::Unused => Action::Nothing,
            Kind::Read => read_action(i, status, at, h.length),
            Kind::ReadModifyWrite => rmw_action(status, at, from, n / 2),
            Kind::Write => write_action(i, status, at, from, k.min(n)),
        }
    }

    // What a plug-and-play command does that its header allows.
    fn field_action(self, status: Status, bytes: &[u8], from: usize) -> Action
        requires { is_success status ≡ true → WordsThere (kind_in self.command.header) from (length bytes.now) }
        ensures { result ≡ Plan·field_action self.command.header status bytes.now from }
    {
        let h = self.command.header;
        if status.is_err() {
            return Action::Nothing;
        }
        match self.kind {
            Kind::Unused => Action::Nothing,
            Kind::Read => Action::ReadFields(h.address, h.length as usize / 4),
            Kind::ReadModifyWrite => {
                let new = word_at(bytes, from);
                Action::Swap(new, word_at(bytes, from + 4))
            }
            Kind::Write => Action::WriteField(h.address, word_at(bytes, from)),
        }
    }

    // How many bytes of data go with the reply to an obeyed command that has data.
    fn reply_count(self) -> u32
        ensures { result ≡ Plan·reply_count self.command.header }
    {
        let h = self.command.header;
        if self.kind.is_rmw() {
            return h.length / 2;
        }
        h.length
    }

    // The plan for a command with a status. Where a reply is due that has no room, nothing is done at all.
    fn planned(self, status: Status, action: Action, room: usize) -> Plan
        ensures { result ≡ planned_for self.command.header self.command.path status action room }
    {
        if !self.command.header.instruction.wants_reply() {
            return Plan {
                fate: unanswered(status),
                status,
                action,
                length: 0,
            };
        }
        let reply = Reply {
            command: self.command,
            status: status_byte(status),
        };
        let length = reply.length(self.reply_count());
        if room < length {
            return Plan {
                fate: Fate::NoRoom,
                status,
                action: Action::Nothing,
                length: 0,
            };
        }
        Plan {
            fate: Fate::Replied(status),
            status,
            action,
            length,
        }
    }

    // The second half, where the header allows the command: from the bytes at hand, how many came in all, and the CRC of those behind the header.
    // Kept: `came` beside the bytes, since `AtHand` (specs/Decide) is of a packet of which all or only the first are at hand.
    fn decide_by_data(self, bytes: &[u8], came: usize, crc: u8, end: End, room: usize) -> Plan
        requires whole { header_size self.command.header.instruction ≤ came }
        requires words { (self.command.header.protocol ≢ 0x01) → is_success (data_status_on self.command.header (record { bytes = bytes.now; came = came; data_crc = crc }) end) ≡ true → WordsThere (kind_in self.command.header) (header_size self.command.header.instruction) (length bytes.now) }
        ensures { result ≡ decided_by_data self.command.header self.command.path (record { bytes = bytes.now; came = came; data_crc = crc }) (data_status_on self.command.header (record { bytes = bytes.now; came = came; data_crc = crc }) end) room }
    {
        let h = self.command.header;
        let from = h.instruction.header_size();
        let k = came - from;
        let status = data_status(k, crc, self.wanted_count(), end);
        if h.protocol == 0x01 {
            let action = self.memory_action(status, from, k);
            return self.planned(status, action, room);
        }
        let action = self.field_action(status, bytes, from);
        self.planned(status, action, room)
    }
}

fn read_action(i: Instruction, status: Status, at: usize, count: u32) -> Action
    ensures { result ≡ Plan·read_action i status at count }
{
    if status.is_err() {
        return Action::Nothing;
    }
    if i.is_incrementing() {
        return Action::ReadMemory(at, count as usize);
    }
    Action::RepeatByte(at, count)
}

fn rmw_action(status: Status, at: usize, from: usize, count: usize) -> Action
    ensures { result ≡ Plan·rmw_action status at from count }
{
    if status.is_err() {
        return Action::Nothing;
    }
    Action::Combine(at, from, count)
}

// Without verify it stores whatever its data are.
fn write_action(i: Instruction, status: Status, at: usize, from: usize, count: usize) -> Action
    ensures { result ≡ Plan·write_action i status at from count }
{
    if i.is_verified() & status.is_err() {
        return Action::Nothing;
    }
    if i.is_incrementing() {
        return Action::Store(at, from, count);
    }
    Action::StoreLast(at, from, count)
}

fn word_at(bytes: &[u8], at: usize) -> u32
    requires { at + 4 ≤ length bytes.now }
    ensures { result ≡ number (part at 4 bytes.now) }
{
    u32::from_octets([bytes[at], bytes[at + 1], bytes[at + 2], bytes[at + 3]])
}

fn unanswered(status: Status) -> Fate
    ensures { result ≡ unanswered_fate status }
{
    match status {
        Ok(()) => Fate::Obeyed,
        Err(_) => Fate::NotObeyed(status),
    }
}

// Both halves, where all is at hand. The data are gone through only where their CRC bears on the status.
pub(crate) fn decide(unit: Unit, command: Command, arrived: Arrived, room: usize) -> Plan
    requires { header_size command.header.instruction ≤ length arrived.packet.now }
    ensures { result ≡ decided unit command.header command.path (record { packet = arrived.entry.packet.now; end = arrived.entry.end; link = arrived.entry.link }) room }
{
    let asked = Asked::from(command);
    let first = asked.header_status(unit, arrived.link);
    if first.is_err() {
        return asked.planned(first, Action::Nothing, room);
    }
    let Arrived { packet, end, .. } = arrived;
    let from = command.header.instruction.header_size();
    let crc = data_crc(&packet[from..], asked.wanted_count(), end);
    asked.decide_by_data(packet, packet.len(), crc, end, room)
}
