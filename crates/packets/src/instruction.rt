// The instruction byte (document 01, 'Reading a packet'; 001, 5.1.4).
ghost use Rattle.std.specs.Prelude.{◌≡◌, ◌+◌, ◌*◌};
ghost use Rattle.packets.specs.Instruction.{type_of, code_of, kind_of, is_write as Instruction·is_write, is_verified as Instruction·is_verified, wants_reply as Instruction·wants_reply, is_incrementing as Instruction·is_incrementing, r_of, reply_address_size as Instruction·reply_address_size, header_size as Instruction·header_size, reply_form as Instruction·reply_form, is_unused as Instruction·is_unused, is_read as Instruction·is_read, is_rmw as Instruction·is_rmw};

// What a command code asks for.
#[derive(Clone, Copy, PartialEq, Eq)]
pub enum Kind {
    Unused,
    Read,
    ReadModifyWrite,
    Write,
}

// Kept: three functions that only say `==`. What `unit` asks of a kind goes by their promises, which docs/PROMISES.md and `PacketsDetermined` (demands) name.
impl Kind {
    pub fn is_unused(self) -> bool
        ensures { result ≡ Instruction·is_unused self }
    {
        self == Kind::Unused
    }

    pub fn is_read(self) -> bool
        ensures { result ≡ Instruction·is_read self }
    {
        self == Kind::Read
    }

    // Whether it is the read-modify-write.
    pub fn is_rmw(self) -> bool
        ensures { result ≡ Instruction·is_rmw self }
    {
        self == Kind::ReadModifyWrite
    }
}

// The kind of each of the sixteen command codes (001, Table 5-1).
const KINDS: [Kind; 16] = [
    Kind::Unused,
    Kind::Unused,
    Kind::Read,
    Kind::Read,
    Kind::Unused,
    Kind::Unused,
    Kind::Unused,
    Kind::ReadModifyWrite,
    Kind::Write,
    Kind::Write,
    Kind::Write,
    Kind::Write,
    Kind::Write,
    Kind::Write,
    Kind::Write,
    Kind::Write,
];

#[derive(Clone, Copy, PartialEq, Eq)]
pub struct Instruction {
    pub byte: u8,
}

impl Instruction {
    // Its bits: these six constants are all eight of them, each once.
    pub const TYPE_BITS: u8 = 0b1100_0000;

    pub const WRITE: u8 = 0b0010_0000;

    pub const VERIFY: u8 = 0b0001_0000;

    pub const REPLY: u8 = 0b0000_1000;

    pub const INCREMENT: u8 = 0b0000_0100;

    pub const R_BITS: u8 = 0b0000_0011;

    // The lower of the two type bits: what a type of 1 weighs.
    pub const TYPE: u8 = 0b0100_0000;

    // Bits 7-6: 0 is a reply, 1 a command, 2 and 3 are unused.
    // Kept: this and the code are numbers, as their promises say (`type_of`, `code_of`); what a code asks for is a `Kind`.
    pub fn packet_type(self) -> u8
        ensures { result ≡ type_of self }
    {
        self.byte / Self::TYPE
    }

    // Kept: a function of the bit for these four would need a divisor that isn't 0, and be no shorter than the one expression.
    pub fn is_write(self) -> bool
        ensures { result ≡ Instruction·is_write self }
    {
        self.byte / Self::WRITE % 2 == 1
    }

    pub fn is_verified(self) -> bool
        ensures { result ≡ Instruction·is_verified self }
    {
        self.byte / Self::VERIFY % 2 == 1
    }

    pub fn wants_reply(self) -> bool
        ensures { result ≡ Instruction·wants_reply self }
    {
        self.byte / Self::REPLY % 2 == 1
    }

    pub fn is_incrementing(self) -> bool
        ensures { result ≡ Instruction·is_incrementing self }
    {
        self.byte / Self::INCREMENT % 2 == 1
    }

    // Bits 5 to 2, one of sixteen command codes.
    pub fn code(self) -> u8
        ensures { result ≡ code_of self }
    {
        self.byte % Self::TYPE / Self::INCREMENT
    }

    // What the code asks for, whatever the type is.
    pub fn kind(self) -> Kind
        ensures { result ≡ kind_of (code_of self) }
    {
        let code = self.code() as usize;
        KINDS[code]
    }

    // Bits 1-0: the reply address has 4r bytes.
    pub fn r(self) -> u8
        ensures { result ≡ r_of self }
    {
        self.byte & Self::R_BITS
    }

    // How many bytes the reply address has, and how many the header.
    pub fn reply_address_size(self) -> usize
        ensures { result ≡ Instruction·reply_address_size self }
    {
        4 * self.r() as usize
    }

    pub fn header_size(self) -> usize
        ensures { result ≡ Instruction·header_size self }
    {
        16 + self.reply_address_size()
    }

    // The instruction of the reply to it: type 00, all else as it was.
    pub fn reply_form(self) -> Instruction
        ensures { result ≡ Instruction·reply_form self }
    {
        Instruction {
            byte: self.byte & !Self::TYPE_BITS,
        }
    }
}
