// The owner (document 01, 'Owner'; 000, 5.3.2.2 and 5.3.3.2.7).
ghost use Rattle.std.specs.Prelude.{◌≡◌};
ghost use Rattle.unit.specs.Owner.{is_owner, unowned, claimed, swapped};

use packets::{Command, Path};

// Device ID, 0 where nobody owns the unit; and initiator address, reply path and link of the claim.
// Kept: flat, with no `Sender` in it; callers write the fields of this public type, and `swap_claims` and `swap_releases` say them.
#[derive(Clone, Copy)]
pub struct Owner {
    pub device: u32,
    pub initiator: u8,
    pub path: Path,
    pub link: u8,
}

// Who sent a command, as far as the unit can tell.
#[derive(Clone, Copy)]
pub(crate) struct Sender {
    pub initiator: u8,
    pub path: Path,
    pub link: u8,
}

impl Sender {
    // Of a command that came on that link.
    pub(crate) fn of(command: Command, link: u8) -> Sender
        ensures { result ≡ (record { initiator = command.header.initiator; path = command.path; link = link }) }
    {
        Sender {
            initiator: command.header.initiator,
            path: command.path,
            link,
        }
    }
}

impl Default for Owner {
    ghost is_default = { λ owner. owner ≡ unowned };

    fn default() -> Owner {
        Owner {
            device: 0,
            initiator: 0,
            path: Path::none(),
            link: 0,
        }
    }
}

impl Owner {
    // Whether the sender of a command is the owner.
    pub(crate) fn is(self, sender: Sender) -> bool
        ensures { result ≡ is_owner self sender.initiator sender.path sender.link }
    {
        (self.device != 0)
            & (self.initiator == sender.initiator)
            & self.path.same(sender.path)
            & (self.link == sender.link)
    }

    // After a swap of Device ID that is allowed.
    pub(crate) fn swap(self, new: u32, expected: u32, sender: Sender) -> Owner
        ensures { result ≡ swapped self new expected sender.initiator sender.path sender.link }
    {
        if self.device != expected {
            return self;
        }
        if self.device == 0 {
            return self.claim(new, sender);
        }
        if new == 0 {
            return Owner::default();
        }
        Owner {
            device: new,
            ..self
        }
    }

    // From 0 to a value: a claim. From 0 to 0 nothing changes.
    fn claim(self, new: u32, sender: Sender) -> Owner
        ensures { result ≡ claimed self new sender.initiator sender.path sender.link }
    {
        if new == 0 {
            return self;
        }
        let Sender {
            initiator,
            path,
            link,
        } = sender;
        Owner {
            device: new,
            initiator,
            path,
            link,
        }
    }
}
