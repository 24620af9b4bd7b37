// Packets that are read, and replies that are written.
use crate::edges;
use console::{Row, say};
use octets::Octets;
use packets::{Command, Data, Header, Packet, Path, Reply};

// The time number of the unit that would read them.
const NUMBER: u8 = 0xf0;

// A packet as it is to be read.
pub(crate) fn bare(name: &[u8], packet: &[u8]) {
    say!(name; ":{}\n", Row(packets::bare(packet)));
}

// A packet, read to its parts and its path, or to the number of its refusal.
pub(crate) fn read(name: &[u8], packet: &[u8]) {
    match packets::read_packet(packet, NUMBER) {
        Ok(Packet::Command(c)) => {
            parts(name, c.header);
            say!(" path:{}\n", Row(used(&c.path)));
        }
        Ok(Packet::Time) => say!(name; ": time\n"),
        Err(why) => say!(name; ": {}\n", why.number()),
    }
}

// In the order of the header: target, protocol, instruction, key, initiator, transaction, extended address, address, length. Then the
// header's size.
fn parts(name: &[u8], h: Header) {
    let first = [h.target, h.protocol, h.instruction.byte, h.key, h.initiator];
    let transaction: [u8; 2] = h.transaction.to_octets();
    let address: [u8; 4] = h.address.to_octets();
    let length: [u8; 3] = h.length.to_octets();
    say!(name; ":{}{}", Row(&first), Row(&transaction));
    say!(" {:02x}{}{}\n", h.extended, Row(&address), Row(&length));
    say!(" header: {}\n", h.instruction.header_size());
}

// The path, out of the twelve bytes that keep it.
fn used(path: &Path) -> &[u8] {
    let unused = path.bytes.len().saturating_sub(path.size());
    &path.bytes[unused..]
}

// The path that a command is read to.
pub(crate) fn address(name: &[u8], packet: &[u8]) {
    say!(name; " path:{}\n", Row(used(&path_of(packet))));
}

// The path of a command. Anything else has none.
fn path_of(packet: &[u8]) -> Path {
    command(packet).map_or(Path::none(), |c| c.path)
}

// Whether two commands have one path.
pub(crate) fn same(name: &[u8], first: &[u8], second: &[u8]) {
    if path_of(first).same(path_of(second)) {
        say!(name; ": one\n");
    } else {
        say!(name; ": two\n");
    }
}

// The reply to a command, written into a buffer of `room` bytes (at most 400), each of them ee before.
pub(crate) fn reply(name: &[u8], packet: &[u8], status: u8, room: usize, bytes: Data) {
    let mut space = [0xeeu8; 400];
    let out = &mut space[..room % 401];
    match command(packet) {
        Some(command) => {
            let did = Reply { command, status }.write(bytes, out);
            edges::outcome(name, did.is_ok(), out);
        }
        None => say!("no command\n"),
    }
}

fn command(packet: &[u8]) -> Option<Command> {
    match packets::read_packet(packet, NUMBER) {
        Ok(Packet::Command(c)) => Some(c),
        Ok(Packet::Time) | Err(_) => None,
    }
}
