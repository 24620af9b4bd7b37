// The log, as it comes on standard input.
ghost use Rattle.std.specs.Prelude.{◌≡◌, ◌-◌, ◌≤◌, length};

use std::io::{self, Read};

// What of the log is in the buffer and not used: the bytes from `from` up to `have`. `last` says that no more come.
// Kept: beside console's `Lines`, which reads until it is full. This reads once, by a handle, and hands an error on: one type would need both ways.
#[derive(Drop)]
pub(crate) struct Log {
    space: [u8; 65536],
    from: usize,
    have: usize,
    pub(crate) last: bool,
    ghost inside: { (from ≤ have) × (have ≤ 65536) },
}

impl Log {
    pub(crate) fn new() -> Log {
        Log {
            space: [0; 65536],
            from: 0,
            have: 0,
            last: false,
        }
    }

    pub(crate) fn part(&self) -> &[u8]
        ensures { length result.now ≡ self.now.have - self.now.from }
    {
        &self.space[self.from..self.have]
    }

    // The first `used` bytes of the part are used.
    pub(crate) fn pass(&mut self, used: usize)
        requires { used ≤ self.old.have - self.old.from }
    {
        self.from += used;
    }

    // Moves what is not used to the start of the buffer, and reads once. It is less than the longest record (CutIsShort, in records), so there
    // is room to read into, and 0 bytes read are the end of the log.
    pub(crate) fn read_on(&mut self, rt: &HostRuntime) -> io::Result<()> {
        let kept = self.have - self.from;
        // All of it is there, so the move is never refused.
        let moved = octets::move_to_start(&mut self.space, self.from, kept).is_ok();
        prove!(moved);
        self.from = 0;
        self.have = kept;
        let more = rt.stdin().read(&mut self.space[kept..])?;
        self.have = kept + more;
        self.last = more == 0;
        Ok(())
    }
}
