// What an instruction byte says.
use console::{Row, say};
use packets::{Instruction, Kind};

// Its kind; then type, code, the bits 5 to 2, r, the size of the header, and the reply's instruction.
pub(crate) fn show(name: &[u8], byte: u8) {
    let i = Instruction { byte };
    let bits = [
        i.packet_type(),
        i.code(),
        u8::from(i.is_write()),
        u8::from(i.is_verified()),
        u8::from(i.wants_reply()),
        u8::from(i.is_incrementing()),
        i.r(),
        i.header_size() as u8,
        i.reply_form().byte,
    ];
    say!(name; ": {},{}\n", kind(i.kind()), Row(&bits));
}

fn kind(k: Kind) -> &'static str {
    match k {
        Kind::Unused => "unused",
        Kind::Read => "read",
        Kind::ReadModifyWrite => "read-modify-write",
        Kind::Write => "write",
    }
}
