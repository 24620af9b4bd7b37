// Lines of text (document 01, 'Bench program'), put on a page that has room for them.
ghost use Rattle.std.specs.Prelude.{◌≡◌, ◌+◌, ◌-◌, ◌*◌, ◌<◌, ◌≤◌, [], ◌∷◌, ◌++◌, length};
ghost use Rattle.octets.specs.Places.{placed};
ghost use Rattle.records.specs.Between.{HasRoom, Put};
ghost use Rattle.records.specs.Text.{decimal, hexes, spaced, ended, status_text, reply_text, record_line, glyph as Text·glyph};

use unit::Fate;

// A buffer that text is put into, and the place behind what has been put.
#[derive(Drop)]
pub(crate) struct Page<'a> {
    pub(crate) out: &'a mut [u8],
    pub(crate) at: usize,
}

impl Page<'_> {
    // How much room there is.
    pub(crate) fn room(&self) -> usize
        requires { self.now.at ≤ length self.now.out.now }
        ensures { result ≡ length self.now.out.now - self.now.at }
    {
        self.out.len() - self.at
    }

    // Text as it is.
    pub(crate) fn put(&mut self, text: &[u8])
        requires { HasRoom text.now self.old }
        ensures { Put text.now self.old self.new }
    {
        let end = self.at + text.len();
        self.out[self.at..end].copy_from_slice(text);
        self.at = end;
    }

    // A number in decimal, and one byte behind it.
    pub(crate) fn put_number(&mut self, n: u64, behind: u8)
        requires { HasRoom (decimal n ++ (behind ∷ [])) self.old }
        ensures { Put (decimal n ++ (behind ∷ [])) self.old self.new }
    {
        self.put_decimal(n);
        self.put(&[behind]);
    }

    // Kept: by hand. `write!` promises text only where it answers Ok; `itoa`'s text would be copied byte by byte all the same, with a law more, which ties it to `decimal`.
    fn put_decimal(&mut self, n: u64)
        requires { HasRoom (decimal n) self.old }
        ensures { Put (decimal n) self.old self.new }
    {
        if n < 10 {
            return self.put(&[glyph(n as u8)]);
        }
        self.put_decimal(n / 10);
        self.put(&[glyph((n % 10) as u8)]);
    }

    // A word, a number, and the end of the line.
    pub(crate) fn put_word(&mut self, word: &[u8], n: u64)
        requires { HasRoom (word.now ++ ended (decimal n)) self.old }
        ensures { Put (word.now ++ ended (decimal n)) self.old self.new }
    {
        self.put(word);
        self.put_number(n, b'\n');
    }

    // Bytes in hexadecimal.
    fn put_hex(&mut self, bytes: &[u8])
        requires { HasRoom (hexes bytes.now) self.old }
        ensures { Put (hexes bytes.now) self.old self.new }
    {
        write_hex(bytes, self.out, self.at);
        self.at += 2 * bytes.len();
    }

    fn put_status(&mut self, told: Option<u8>)
        requires { HasRoom (spaced (status_text told)) self.old }
        ensures { Put (spaced (status_text told)) self.old self.new }
    {
        match told {
            None => self.put(b"- "),
            Some(b) => self.put(&[glyph(b / 16), glyph(b % 16), b' ']),
        }
    }

    fn put_reply(&mut self, reply: &[u8])
        requires { HasRoom (ended (reply_text reply.now)) self.old }
        ensures { Put (ended (reply_text reply.now)) self.old self.new }
    {
        if reply.is_empty() {
            return self.put_number(0, b'\n');
        }
        self.put_number(reply.len() as u64, b' ');
        self.put_hex(reply);
        self.put(b"\n");
    }

    // The line of record n: its fate, its status and its reply.
    pub(crate) fn put_line(&mut self, n: u64, fate: Fate, reply: &[u8])
        requires { HasRoom (record_line n fate reply.now) self.old }
        ensures { Put (record_line n fate reply.now) self.old self.new }
    {
        self.put_number(n, b' ');
        self.put_number(fate.number() as u64, b' ');
        self.put_status(fate.status());
        self.put_reply(reply);
    }
}

// Two digits for each byte, from a place of a buffer on. Long replies took four times as long with a `put` for each byte.
// Kept: by index, since nothing is known of what is written through an iterator.
fn write_hex(bytes: &[u8], out: &mut [u8], at: usize)
    requires { at + 2 * length bytes.now ≤ length out.old }
    ensures { out.new ≡ placed at (hexes bytes.now) out.old }
{
    for (i, &b) in bytes.iter().enumerate() {
        out[at + 2 * i] = glyph(b / 16);
        out[at + 2 * i + 1] = glyph(b % 16);
    }
}

fn glyph(digit: u8) -> u8
    requires { digit < 16 }
    ensures { result ≡ Text·glyph digit }
{
    match digit {
        0..=9 => b'0' + digit,
        _ => b'a' - 10 + digit,
    }
}
