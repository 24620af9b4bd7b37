// Lent memory. Two functions touch it and no other does: one gathers bytes of it, into a part of a reply or into the few bytes of a local;
// one scatters bytes into it, of a packet or of such a local. Another form of memory is another arm of these two.
// Kept: two functions, and no twins; one reads memory and one writes it.
ghost use Rattle.std.specs.Prelude.{◌≡◌, ◌+◌, ◌≤◌, length};
ghost use Rattle.octets.specs.Places.{part, placed};

// Fills a buffer with the bytes of memory from `at` on.
pub(crate) fn gather(memory: &[u8], at: usize, out: &mut [u8])
    requires { at + length out.old ≤ length memory.now }
    ensures { out.new ≡ part at (length out.old) memory.now }
{
    let end = at + out.len();
    out.copy_from_slice(&memory[at..end]);
}

// Puts bytes into memory, from `at` on.
pub(crate) fn scatter(bytes: &[u8], memory: &mut [u8], at: usize)
    requires { at + length bytes.now ≤ length memory.old }
    ensures { memory.new ≡ placed at bytes.now memory.old }
{
    memory[at..at + bytes.len()].copy_from_slice(bytes);
}
