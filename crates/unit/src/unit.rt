// The unit (document 01, 'The terminal and its neighbours'), and when it is usable ('Numbers a caller gets', 1).
ghost use Rattle.std.specs.Prelude.{◌≡◌};
ghost use Rattle.unit.specs.Usable.{usable_unit, usable};

use crate::clock::{Clock, TIMES};
use crate::fields::Fields;
use crate::owner::Owner;
use crate::windows::Windows;

// By value: a call takes the unit and answers the unit after it. `logical` is its logical address, `number` its time protocol number,
// `links` its link count. Memory is lent on each call.
#[derive(Clone, Copy)]
pub struct Unit {
    pub logical: u8,
    pub key: u8,
    pub number: u8,
    pub links: u8,
    pub windows: Windows,
    pub fields: Fields,
    pub owner: Owner,
    pub clock: Clock,
    pub counters: [u32; 11],
}

impl Unit {
    // Whether the unit is usable with a memory of that length.
    pub(crate) fn is_usable(self, memory: usize) -> bool
        ensures { result ≡ usable self memory }
    {
        (1..=65536).contains(&memory) & !self.windows.any_ends_past(memory) & self.is_usable_alone()
    }

    // The same less the two causes that speak of memory.
    pub(crate) fn is_usable_alone(self) -> bool
        ensures { result ≡ usable_unit self }
    {
        (self.windows.count <= 16)
            & (0xF0..=0xFE).contains(&self.number)
            & (1..=31).contains(&self.links)
            & (self.clock.elapsed.value < TIMES)
            & self.clock.waiting.is_none_or(|time| time.value < TIMES)
            & (self.clock.last <= 63)
            & (self.owner.path.count <= 12)
            & (self.owner.link <= 31)
    }
}
