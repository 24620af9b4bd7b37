// The fields of plug-and-play (document 01, 'Fields'; 000, 5.3.3 and 5.3.4).
ghost use Rattle.std.specs.Prelude.{◌≡◌, ◌+◌, ◌*◌, ◌^◌, ◌≤◌, take};
ghost use Rattle.unit.specs.Some.{some};
ghost use Rattle.unit.specs.Fields.{named, row_in_table, is_missing, right_of as Fields·right_of, offence_of as Fields·offence_of, write_offence as Fields·write_offence, swap_offence as Fields·swap_offence, link_information as Fields·link_information, path_words as Fields·path_words, values_of, field_bytes, divider_written};

use crate::fate::{Offence, Status};
use crate::owner::Owner;
use octets::Octets;
use packets::Path;

// The values as held. What a read shows of the owner, the links and the Time-Code is not held here.
#[derive(Clone, Copy, Default)]
pub struct Fields {
    // Protocol 0: vendor and product, version, status, Active Links, Link Information, unit vendor and product, unit serial.
    pub vendor: u32,
    pub version: u32,
    pub status: u32,
    pub active: u32,
    pub information: u32,
    pub maker: u32,
    pub serial: u32,
    // Protocol 1: base rate, rate range, divider.
    pub base: u32,
    pub range: u32,
    pub divider: u32,
}

impl Fields {
    // A write to the divider: its low half is taken where it lies in the range.
    pub(crate) fn write_divider(self, word: u32) -> Fields
        ensures { result ≡ divider_written self word }
    {
        let low = word % 0x1_0000;
        if low < self.range % 0x1_0000 {
            return self;
        }
        if self.range / 0x1_0000 < low {
            return self;
        }
        Fields {
            divider: self.divider / 0x1_0000 * 0x1_0000 + low,
            ..self
        }
    }
}

// What may be done with a field of our table besides reading it.
#[derive(Clone, Copy)]
pub(crate) enum Right {
    ReadOnly,
    Swapped,
    Written,
}

// The right to each field of our table, the companion of the table of command codes: protocol 0, set 0, fields 0 to 10; then protocol 1, set
// 0, fields 0 to 3.
const RIGHTS: [Right; 15] = [
    Right::ReadOnly,
    Right::ReadOnly,
    Right::ReadOnly,
    Right::ReadOnly,
    Right::ReadOnly,
    Right::ReadOnly,
    Right::ReadOnly,
    Right::ReadOnly,
    Right::Swapped,
    Right::ReadOnly,
    Right::ReadOnly,
    Right::Written,
    Right::ReadOnly,
    Right::ReadOnly,
    Right::Written,
];

// Rows of our table that are named.
// Kept: numbers, as `row_of` (specs/Fields) has them; what a write is to is matched as `Some(..)` of one.
pub(crate) const TIME_CODE_COUNTER: usize = 11;

pub(crate) const DIVIDER: usize = 14;

// Kept: `values_of`, which demands reads, has a row behind the table; without it `0 ≡ slice_index values 15` is left of `Named::bytes`.
const MISSING: usize = 15;

// The row of a field, by its address, if it is in our table: application, protocol and set are what is above the lowest 14 bits.
pub(crate) fn row_of(address: u32) -> Option<usize>
    ensures { result ≡ row_in_table address }
{
    let set = address / 0x4000;
    let field = (address % 0x4000) as usize;
    if (set == 0) & (field < 11) {
        return Some(field);
    }
    if (set == 0x20) & (field < 4) {
        return Some(11 + field);
    }
    None
}

fn right_of(address: u32) -> Option<Right>
    ensures { result ≡ Fields·right_of address }
{
    let row = row_of(address)?;
    Some(RIGHTS[row])
}

// What a plain write to a field offends.
// Kept: this and the next are two of document 01's rules, a row for each right, and no conversion.
fn offence_of(address: u32) -> Status
    ensures { result ≡ Fields·offence_of (Fields·right_of address) }
{
    match right_of(address) {
        None => Err(Offence::NoSuchField),
        Some(Right::ReadOnly) => Err(Offence::ReadOnlyField),
        Some(Right::Swapped) => Err(Offence::PlainDeviceId),
        Some(Right::Written) => Ok(()),
    }
}

// Only Device ID is swapped.
pub(crate) fn swap_offence(address: u32) -> Status
    ensures { result ≡ Fields·swap_offence (Fields·right_of address) }
{
    match right_of(address) {
        None => Err(Offence::NoSuchField),
        Some(Right::ReadOnly) => Err(Offence::ReadOnlyField),
        Some(Right::Swapped) => Ok(()),
        Some(Right::Written) => Err(Offence::ReadOnlyField),
    }
}

// Link Information, in the places of 000, Table 5-6; the other bits are as held.
fn link_information(held: u32, owner: Owner, links: u8, link: u8) -> u32
    ensures { result ≡ Fields·link_information held owner links link }
{
    let path = owner.path;
    let fields = (path.size() as u32 + 3) / 4;
    owner.initiator as u32 * 0x100_0000
        + fields % 4 * 0x40_0000
        + held / 0x20_0000 % 2 * 0x20_0000
        + owner.link as u32 % 32 * 0x1_0000
        + held / 0x2000 % 8 * 0x2000
        + link as u32 % 32 * 0x100
        + held / 0x20 % 8 * 0x20
        + links as u32 % 32
}

// The kept path in order, a word for each of the fields 5 to 7.
fn path_words(path: Path) -> [u32; 3]
    ensures { result ≡ Fields·path_words path }
{
    let p = path.bytes;
    [
        u32::from_octets([p[0], p[1], p[2], p[3]]),
        u32::from_octets([p[4], p[5], p[6], p[7]]),
        u32::from_octets([p[8], p[9], p[10], p[11]]),
    ]
}

// What each field of our table reads, row by row. The last row is never shown: a field that is not there is refused before.
pub(crate) fn values(fields: Fields, owner: Owner, last: u8, links: u8, link: u8) -> [u32; 16]
    ensures { result ≡ values_of fields owner last links link }
{
    let w = path_words(owner.path);
    [
        fields.vendor,
        fields.version,
        fields.status,
        fields.active,
        link_information(fields.information, owner, links, link),
        w[0],
        w[1],
        w[2],
        owner.device,
        fields.maker,
        fields.serial,
        last as u32,
        fields.base,
        fields.range,
        fields.divider,
        0,
    ]
}

// The fields that a command names: `count` of them, from an address on. The last one has an address too.
#[derive(Clone, Copy)]
pub(crate) struct Named {
    pub address: u32,
    pub count: usize,
    ghost last: { address + count ≤ 2 ^ 32 },
}

impl Named {
    // Whether one of them is not in our table.
    // Kept: the three loops count; a range of numbers has no clause `runs`, so what `any`, `try_for_each` and the like go through is not known of it.
    pub(crate) fn any_missing(self) -> bool
        ensures { result ≡ some is_missing (named self.address self.count) }
    {
        for i in 0..self.count {
            let missing = row_of(self.address + i as u32) == None;
            if missing {
                return true;
            }
        }
        false
    }

    // Of a plain write to them, the lowest that offends decides.
    pub(crate) fn write_offence(self) -> Status
        ensures { result ≡ Fields·write_offence (named self.address self.count) }
    {
        for i in 0..self.count {
            offence_of(self.address + i as u32)?;
        }
        Ok(())
    }

    // Their values, at the start of what can hold sixteen.
    // Kept: no heap, and a command names up to sixteen; how many it names is `self.count`.
    pub(crate) fn bytes(self, values: [u32; 16]) -> [u8; 64]
        requires { self.count ≤ 16 }
        ensures { take (4 * self.count) result ≡ field_bytes values (named self.address self.count) }
    {
        let mut out = [0; 64];
        for i in 0..self.count {
            let row = row_of(self.address + i as u32).unwrap_or(MISSING);
            let word: [u8; 4] = values[row].to_octets();
            out[4 * i..4 * i + 4].copy_from_slice(&word);
        }
        out
    }
}
