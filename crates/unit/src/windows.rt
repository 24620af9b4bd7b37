// Windows: which bytes of memory may be read or written (document 01, 'Span').
ghost use Rattle.std.specs.Prelude.{◌≡◌};
ghost use Rattle.unit.specs.Some.{some};
ghost use Rattle.unit.specs.Windows.{holds as Windows·holds, has_right as Windows·has_right, ends_past, allows, used as Windows·used};

use packets::Kind;

// The bytes from `start` on and below `end`, and the rights to them.
#[derive(Clone, Copy, Default)]
pub struct Window {
    pub start: usize,
    pub end: usize,
    pub read: bool,
    pub write: bool,
}

// The first `count` of the table are in use.
// Kept: no heap; and any count is taken, of which one above sixteen makes the unit unusable (`usable_unit`).
#[derive(Clone, Copy, Default)]
pub struct Windows {
    pub table: [Window; 16],
    pub count: usize,
}

impl Windows {
    // Whether a window in use ends past a memory of that length.
    pub(crate) fn any_ends_past(&self, memory: usize) -> bool
        ensures { result ≡ some (ends_past memory) (Windows·used self.now) }
    {
        self.used().iter().any(|w| memory < w.end)
    }

    // Whether a window in use holds the span of that size at that address, with the right that the kind of command wants.
    pub(crate) fn any_allows(&self, kind: Kind, at: u32, size: u32) -> bool
        ensures { result ≡ some (allows kind at size) (Windows·used self.now) }
    {
        self.used()
            .iter()
            .any(|w| w.holds(at, size) & w.has_right(kind))
    }

    // No other place goes through the windows.
    fn used(&self) -> &[Window]
        ensures { result.now ≡ Windows·used self.now }
    {
        let n = self.count.min(16);
        &self.table[..n]
    }
}

impl Window {
    fn holds(&self, at: u32, size: u32) -> bool
        ensures { result ≡ Windows·holds self.now at size }
    {
        let first = at as usize;
        let behind = first + size as usize;
        (self.start <= first) & (behind <= self.end)
    }

    // A read wants the right to read, a write that to write, an RMW both.
    fn has_right(&self, kind: Kind) -> bool
        ensures { result ≡ Windows·has_right kind self.now }
    {
        match kind {
            Kind::Unused => false,
            Kind::Read => self.read,
            Kind::ReadModifyWrite => self.read & self.write,
            Kind::Write => self.write,
        }
    }
}
