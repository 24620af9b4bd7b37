// The reply to a command (document 01, 'Reply'; 001, 5.3.2, 5.4.2 and 5.5.2).
ghost use Rattle.std.specs.Prelude.{◌≡◌, ◌∷◌, [], ◌++◌, cond, ◌&&◌, ◌+◌, ◌^◌, ◌≤◌, ◌<◌, is_ok, leb, ltb, length, true};
ghost use Rattle.octets.specs.Crc.{crc, with_crc};
ghost use Rattle.octets.specs.Numbers.{bytes_of};
ghost use Rattle.octets.specs.Places.{part, placed};
ghost use Rattle.packets.specs.Instruction.{is_write};
ghost use Rattle.packets.specs.Path.{path_bytes};
ghost use Rattle.packets.specs.Reply.{reply_start, reply_head, reply_with, data_place as Reply·data_place, data_size, data_in, carries_data as Reply·carries_data, carried, carried_count as Reply·carried_count, reply_length, reply_fits, replied};

use crate::path::Path;
use crate::places::put;
use crate::reading::Command;
use octets::{NoRoom, Octets};

// A reply, less its data: the command that it answers, and the status.
#[derive(Clone, Copy, PartialEq, Eq)]
pub struct Reply {
    pub command: Command,
    pub status: u8,
}

// The data that a reply carries, if it carries any.
#[derive(Clone, Copy)]
pub enum Data<'a> {
    // These bytes.
    Bytes(&'a [u8]),
    // One byte, so many times over.
    Repeated(u8, u32),
    // So many bytes that are in their place in the buffer already.
    InPlace(u32),
}

impl Path {
    // Where the data of a reply stand, if it carries any.
    pub fn data_place(self) -> usize
        ensures { result ≡ Reply·data_place self }
    {
        self.size() + 12
    }
}

impl Reply {
    // Writes the reply at the start of a lent buffer, all or nothing. The data come first, so that their CRC is taken
    // where they stand.
    pub fn write(self, bytes: Data, out: &mut [u8]) -> Result<(), NoRoom>
        ensures answers { is_ok result ≡ reply_fits self.command.path self.command.header self.status (data_size bytes.entry) (length out.old) }
        ensures leaves { out.new ≡ replied self.command.path self.command.header self.status (data_in self.command.path bytes.entry out.old) out.old }
    {
        let n = self.carried_count(bytes.size());
        if !self.fits(n, out.len()) {
            return Err(NoRoom);
        }
        if self.carries_data() {
            self.put_data(bytes, out);
        }
        self.surround(n as u32, out);
        Ok(())
    }

    // How long the reply is, where `count` bytes of data go with it if it carries data.
    pub fn length(self, count: u32) -> usize
        ensures { result ≡ reply_length self.command.path self.command.header self.status count }
    {
        let size = self.command.path.size();
        if self.is_to_write() {
            return size + 8;
        }
        size + 13 + self.carried_count(count as usize)
    }

    // Whether it answers a command with the write bit.
    fn is_to_write(self) -> bool
        ensures { result ≡ is_write self.command.header.instruction }
    {
        self.command.header.instruction.is_write()
    }

    // Whether data follow: not to a command with the write bit, nor with an error.
    fn carries_data(self) -> bool
        ensures { result ≡ Reply·carries_data self.command.header self.status }
    {
        !self.is_to_write() & (self.status == 0)
    }

    // How many of n bytes of data follow.
    fn carried_count(self, n: usize) -> usize
        ensures { result ≡ Reply·carried_count self.command.header self.status n }
    {
        if self.carries_data() { n } else { 0 }
    }

    // Whether a reply that carries n bytes of data can be written.
    fn fits(self, n: usize, room: usize) -> bool
        ensures { result ≡ (ltb n (256 ^ 3) && leb (reply_length self.command.path self.command.header self.status n) room) }
    {
        (n <= 0xFF_FFFF) && (self.length(n as u32) <= room)
    }

    // Puts the data into their place.
    fn put_data(self, bytes: Data, out: &mut [u8])
        requires { Reply·data_place self.command.path + data_size bytes ≤ length out.old }
        ensures { out.new ≡ placed (Reply·data_place self.command.path) (data_in self.command.path bytes.entry out.old) out.old }
    {
        let at = self.command.path.data_place();
        match bytes {
            Data::Bytes(these) => put(these, out, at),
            Data::Repeated(byte, count) => out[at..at + count as usize].fill(byte),
            Data::InPlace(_) => {}
        }
    }

    // Writes what stands around the `count` bytes of data, which are in their place: path and header, and the data CRC. A reply to a
    // command with the write bit ends with its header.
    fn surround(self, count: u32, out: &mut [u8])
        requires { length (path_bytes self.command.path) + cond (is_write self.command.header.instruction) 8 (13 + count) ≤ length out.old }
        ensures { out.new ≡ placed 0 (reply_with self.command.path self.command.header self.status (part (Reply·data_place self.command.path) count out.old)) out.old }
    {
        let at = self.write_head(count, out);
        if !self.is_to_write() {
            end_data(at, count as usize, out);
        }
    }

    // Writes the path and the header of the reply at the start of a buffer that has room for them. Answers the place behind them.
    fn write_head(self, count: u32, out: &mut [u8]) -> usize
        requires { length (path_bytes self.command.path) + cond (is_write self.command.header.instruction) 8 12 ≤ length out.old }
        ensures answers { result ≡ length (path_bytes self.command.path) + cond (is_write self.command.header.instruction) 8 12 }
        ensures leaves { out.new ≡ placed 0 (path_bytes self.command.path ++ reply_head self.command.header self.status count) out.old }
    {
        let path = self.command.path;
        let size = path.size();
        write_path(path, out);
        if self.is_to_write() {
            let head = self.short_head();
            put(&head, out, size);
            return size + 8;
        }
        let head = self.long_head(count);
        put(&head, out, size);
        size + 12
    }

    // What the headers of all replies begin with.
    fn start(self) -> [u8; 7]
        ensures { result ≡ reply_start self.command.header self.status }
    {
        let h = self.command.header;
        let form = h.instruction.reply_form();
        let t: [u8; 2] = h.transaction.to_octets();
        [
            h.initiator,
            h.protocol,
            form.byte,
            self.status,
            h.target,
            t[0],
            t[1],
        ]
    }

    // The header of the reply to a command with the write bit.
    fn short_head(self) -> [u8; 8]
        ensures { result ≡ with_crc (reply_start self.command.header self.status) }
    {
        let s = self.start();
        let k = octets::crc_of(&s);
        [s[0], s[1], s[2], s[3], s[4], s[5], s[6], k]
    }

    // And to one without, with the length of its data.
    fn long_head(self, count: u32) -> [u8; 12]
        ensures { result ≡ with_crc (reply_start self.command.header self.status ++ (0 ∷ bytes_of 3 count)) }
    {
        let s = self.start();
        let n: [u8; 3] = count.to_octets();
        let mut head = [
            s[0], s[1], s[2], s[3], s[4], s[5], s[6], 0, n[0], n[1], n[2], 0,
        ];
        head[11] = octets::crc_of(&head[..11]);
        head
    }
}

impl Data<'_> {
    // How many bytes they are.
    fn size(self) -> usize
        ensures { result ≡ data_size self.entry }
    {
        match self {
            Data::Bytes(bytes) => bytes.len(),
            Data::Repeated(_, count) | Data::InPlace(count) => count as usize,
        }
    }
}

fn write_path(path: Path, out: &mut [u8])
    requires { length (path_bytes path) ≤ length out.old }
    ensures { out.new ≡ placed 0 (path_bytes path) out.old }
{
    let size = path.size();
    put(&path.bytes[12 - size..], out, 0);
}

// Writes their CRC behind the `count` bytes of data at `at`.
fn end_data(at: usize, count: usize, out: &mut [u8])
    requires { at + count < length out.old }
    ensures { out.new ≡ placed (at + count) (crc (part at count out.old) ∷ []) out.old }
{
    let end = at + count;
    let k = octets::crc_of(&out[at..end]);
    put(&[k], out, end);
}
