// The numbers a caller gets (document 01, 'Numbers a caller gets', 'Reading a packet' and 'Fields').
ghost use Rattle.std.specs.Prelude.{◌≡◌};
ghost use Rattle.unit.specs.Fate.{byte_of, fate_number, fate_status};

use packets::Refusal;

// The first check that a command did not pass, by document 01's number.
#[derive(Clone, Copy, PartialEq, Eq)]
pub enum Offence {
    UnusedCode = 2,
    WrongKey = 3,
    DataCrc = 4,
    EarlyEop = 5,
    TooMuchData = 6,
    EndedByEep = 7,
    VerifyOverrun = 9,
    NotAuthorised = 10,
    RmwLength = 11,
    WrongAddress = 12,
    NotOwner = 0xF0,
    NoSuchField = 0xF1,
    ReadOnlyField = 0xF2,
    PlainDeviceId = 0xF3,
}

// What a command is told: that it was obeyed, or what it offends.
pub type Status = Result<(), Offence>;

// What became of a call.
#[derive(Clone, Copy)]
pub enum Fate {
    TimeChanged,
    Unusable,
    NoSuchLink,
    NoRoom,
    Unread(Refusal),
    TimeThrownAway,
    NotObeyed(Status),
    Obeyed,
    TimeTaken,
    Replied(Status),
}

// Document 01's number of a status, as it stands in a reply.
pub fn status_byte(status: Status) -> u8
    ensures { result ≡ byte_of status }
{
    match status {
        Ok(()) => 0,
        Err(offence) => offence as u8,
    }
}

impl Fate {
    // Document 01's number.
    pub fn number(self) -> u8
        ensures { result ≡ fate_number self }
    {
        match self {
            Fate::TimeChanged => 0,
            Fate::Unusable => 1,
            Fate::NoSuchLink => 2,
            Fate::NoRoom => 3,
            Fate::Unread(why) => why.number(),
            Fate::TimeThrownAway => 16,
            Fate::NotObeyed(_) => 17,
            Fate::Obeyed => 18,
            Fate::TimeTaken => 19,
            Fate::Replied(_) => 20,
        }
    }

    // Only 17, 18 and 20 carry a status.
    pub fn status(self) -> Option<u8>
        ensures { result ≡ fate_status self }
    {
        match self {
            Fate::Obeyed => Some(0),
            Fate::NotObeyed(status) | Fate::Replied(status) => Some(status_byte(status)),
            Fate::TimeChanged
            | Fate::Unusable
            | Fate::NoSuchLink
            | Fate::NoRoom
            | Fate::Unread(_)
            | Fate::TimeThrownAway
            | Fate::TimeTaken => None,
        }
    }
}
