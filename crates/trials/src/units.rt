// A unit that is driven from line to line, with its memory. What is printed of a call: its number, its status or -, the length of the
// reply, the CRC of the whole reply buffer, and the reply's first bytes.
use console::{Fields, Row, say};
use packets::End;
use script::{byte, number};
use unit::{Answer, Clock, Elapsed, Fate, Owner, Unit, Window};

// The most that is lent of memory, and of a reply buffer.
const ROOM: usize = 65600;

// The unit as the last line left it, and its memory, of which the first `size` bytes are lent, or all.
#[derive(Drop)]
pub(crate) struct Trial {
    unit: Unit,
    size: usize,
    memory: [u8; ROOM],
}

impl Trial {
    pub(crate) fn new() -> Trial {
        Trial {
            unit: fresh(0),
            size: 0,
            memory: [0; ROOM],
        }
    }

    // A fresh unit, and zeros in all of memory.
    pub(crate) fn start(&mut self, line: Fields) {
        let size = number(line.left) as usize;
        self.unit = fresh(size);
        self.size = size;
        self.memory = [0; ROOM];
    }

    // Sets one thing by its number, as lines has them.
    pub(crate) fn set(&mut self, mut line: Fields) {
        let what = byte(line.next());
        let n = number(line.left);
        let low = (n % 256) as u8;
        let word = (n % 0x1_0000_0000) as u32;
        let u = &mut self.unit;
        match what {
            0 => self.size = n as usize,
            1 => u.number = low,
            2 => u.links = low,
            3 => u.windows.count = n as usize,
            4 => u.clock.last = low,
            5 => u.clock.elapsed.value = n,
            6 => u.clock.waiting = Some(Elapsed {
                value: n,
                epoch: 0x9F,
            }),
            7 => u.owner.path.count = n as usize,
            8 => u.owner.link = low,
            9 => u.counters = [word; 11],
            _ => set_field(&mut u.fields, what, word),
        }
    }

    // A row of the windows: start, end, and rights, 1 to read and 2 to write.
    pub(crate) fn window(&mut self, mut line: Fields) {
        let row = (byte(line.next()) % 16) as usize;
        let start = number(line.next()) as usize;
        let end = number(line.next()) as usize;
        let rights = byte(line.left);
        self.unit.windows.table[row] = Window {
            start,
            end,
            read: rights % 2 == 1,
            write: 2 <= rights,
        };
    }

    // Takes a packet, with a reply buffer of `room` bytes (at most 65,600), each of them ee before.
    pub(crate) fn packet(&mut self, mut line: Fields, end: End) {
        let name = line.next();
        let link = byte(line.next());
        let room = number(line.next()) as usize;
        let mut bytes = [0u8; 1100];
        let packet = console::bytes(line.left, &mut bytes);
        self.take(name, packet, end, link, room);
    }

    // The buffer is filled where it is made: a local of that size is zeroed first where anything comes between.
    fn take(&mut self, name: &[u8], packet: &[u8], end: End, link: u8, room: usize) {
        let mut out = [0xeeu8; ROOM];
        let reply = &mut out[..room.min(ROOM)];
        let unit = self.unit;
        let size = self.size.min(ROOM);
        let answer = unit::take_packet(unit, packet, end, link, &mut self.memory[..size], reply);
        self.unit = answer.unit;
        told(name, answer.fate);
        replied(answer.length, reply);
    }

    // Takes a Time-Code.
    pub(crate) fn time_code(&mut self, mut line: Fields) {
        let name = line.next();
        let code = byte(line.left);
        self.changed(name, unit::take_time_code(self.unit, code));
    }

    // Takes clock ticks.
    pub(crate) fn ticks(&mut self, mut line: Fields) {
        let name = line.next();
        let n = (number(line.left) % 0x1_0000_0000) as u32;
        self.changed(name, unit::take_ticks(self.unit, n));
    }

    fn changed(&mut self, name: &[u8], answer: Answer) {
        self.unit = answer.unit;
        told(name, answer.fate);
        say!("\n");
    }

    // Bytes of memory from a place on, behind the CRC of all of it.
    pub(crate) fn memory(&self, mut line: Fields) {
        let name = line.next();
        let at = number(line.next()) as usize;
        let count = number(line.left) as usize;
        let all = &self.memory[..self.size.min(ROOM)];
        let from = all.get(at..).unwrap_or(&[]);
        say!(name; ": all {:02x}:{}\n", octets::crc_of(all), Row(first(from, count)));
    }

    // What the unit holds of owner, time and counts.
    pub(crate) fn holds(&self, name: &[u8]) {
        owner(name, self.unit.owner);
        clock(self.unit.clock);
        counts(self.unit.counters);
    }
}

// The unit of document 01's bench, but with a memory of `size` bytes and one window over all of it.
fn fresh(size: usize) -> Unit {
    let mut unit = records::start().unit;
    unit.windows.table[0].end = size;
    unit
}

// The fields as held are in the order of their struct.
fn set_field(fields: &mut unit::Fields, what: u8, word: u32) {
    match what {
        0x10 => fields.vendor = word,
        0x11 => fields.version = word,
        0x12 => fields.status = word,
        0x13 => fields.active = word,
        0x14 => fields.information = word,
        0x15 => fields.maker = word,
        0x16 => fields.serial = word,
        0x17 => fields.base = word,
        0x18 => fields.range = word,
        _ => fields.divider = word,
    }
}

// The first bytes of a slice, `n` of them or all.
fn first(s: &[u8], n: usize) -> &[u8] {
    s.get(..n).unwrap_or(s)
}

// The name, the number of what became of a call, and its status if there is one.
fn told(name: &[u8], fate: Fate) {
    say!(name; ": {}", fate.number());
    match fate.status() {
        None => say!(" -"),
        Some(b) => say!(" {b:02x}"),
    }
}

fn replied(length: usize, reply: &[u8]) {
    let shown = Row(first(first(reply, length), 80));
    say!(" {length} buffer {:02x}:{shown}\n", octets::crc_of(reply));
}

// Device ID, initiator address, link, and the path: its count and all twelve bytes.
fn owner(name: &[u8], o: Owner) {
    let path = o.path;
    say!(name; ": owner {:08x} {:02x} {:02x}", o.device, o.initiator, o.link);
    say!(" path {:x}:{}\n", path.count, Row(&path.bytes));
}

// The last Time-Code, ET with its epoch, and a value that waits.
fn clock(clock: Clock) {
    say!(" clock {:02x}", clock.last);
    elapsed(clock.elapsed);
    match clock.waiting {
        None => say!(" none"),
        Some(value) => elapsed(value),
    }
    say!("\n");
}

fn elapsed(e: Elapsed) {
    say!(" {:014x} {:02x}", e.value, e.epoch);
}

// Of 11 to 20, then of all.
fn counts(counters: [u32; 11]) {
    say!(" counts");
    for count in counters {
        say!(" {count}");
    }
    say!("\n");
}
