// Text on standard output.
// Kept: `io::write_all`. A name is bytes, which no format takes, and the programs go on where nothing can be written: `println!` hands that to each caller.
ghost use Rattle.std.specs.Prelude.{◌≡◌, ◌≤◌, [], take};
ghost use Rattle.console.specs.Text.{held_after};

use std::fmt;

// Text on its way to standard output: it is written as it fills the space, and what is left when it goes. A format comes in small pieces, and with a call of the
// system for each of them the programs took half as long again.
// Kept: no heap; a place beside the space.
pub struct Text {
    space: [u8; 256],
    size: usize,
    ghost inside: { size ≤ 256 },
}

impl Text {
    fn put(&mut self, bytes: &[u8])
        ensures { take self.new.size self.new.space ≡ held_after bytes.now (take self.old.size self.old.space) }
    {
        if self.space.len() - self.size < bytes.len() {
            io::write_all(1, &self.space[..self.size]);
            self.size = 0;
        }
        if self.space.len() < bytes.len() {
            io::write_all(1, bytes);
            return;
        }
        let end = self.size + bytes.len();
        self.space[self.size..end].copy_from_slice(bytes);
        self.size = end;
    }
}

// Text that begins with a name.
impl From<&[u8]> for Text {
    ghost from_gives = { λ name text. take text.size text.space ≡ held_after name.now [] };

    fn from(name: &[u8]) -> Text {
        let mut text = Text {
            space: [0; 256],
            size: 0,
        };
        text.put(name);
        text
    }
}

impl fmt::Write for Text {
    fn write_str(&mut self, s: &str) -> fmt::Result {
        self.put(s.as_bytes());
        Ok(())
    }
}

impl Drop for Text {
    fn drop(self) {
        let Text { space, size } = self;
        io::write_all(1, &space[..size]);
    }
}

// Bytes, each behind a space, in two hexadecimal digits.
#[derive(Clone, Copy)]
pub struct Row<'a>(pub &'a [u8]);

impl fmt::Display for Row<'_> {
    fn fmt<W: fmt::Write>(&self, f: &mut fmt::Formatter<W>) -> fmt::Result {
        for b in self.0 {
            write!(f, " {b:02x}")?;
        }
        Ok(())
    }
}

// Prints text, as `write!` lays it out; a name before a `;` is printed first, as the bytes that it is.
#[macro_export]
macro_rules! say {
    ($name:expr; $($text:tt)+) => {{
        let mut text = $crate::Text::from($name);
        let _ = std::fmt::Write::write_fmt(&mut text, format_args!($($text)+));
    }};
    ($($text:tt)+) => {
        $crate::say!(&b""[..]; $($text)+)
    };
}
