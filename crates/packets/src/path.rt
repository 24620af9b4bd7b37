// The path of a reply (document 01, 'Reply' and 'Owner'; 001, 5.1.6).
ghost use Rattle.std.specs.Prelude.{◌≡◌, [], ◌≤◌, not, ◌==◌, length, position};
ghost use Rattle.packets.specs.Path.{path_of, kept, path_bytes, same_path};

use crate::places::put;

// A path as it is kept: the last `count` of the bytes; what stands before them is zero.
// Kept: no heap, and fields 5 to 7 read all twelve bytes (`path_words`); any count is taken, and one above twelve means twelve (`path_bytes`).
#[derive(Clone, Copy, PartialEq, Eq)]
pub struct Path {
    pub bytes: [u8; 12],
    pub count: usize,
}

impl Path {
    // No path, as that of a command with r = 0.
    pub fn none() -> Path
        ensures { result ≡ kept [] }
    {
        Path {
            bytes: [0; 12],
            count: 0,
        }
    }

    // How many bytes it has. A count above twelve means all twelve.
    pub fn size(self) -> usize
        ensures answers { result ≡ length (path_bytes self) }
        ensures small { result ≤ 12 }
    {
        self.count.min(12)
    }

    // Whether two kept paths are one: all twelve bytes and the count.
    // Kept: it only says `==`. The owner's path is compared by it (`Owner::is`, in `unit`), and docs/PROMISES.md and `PacketsDetermined` (demands) name its promise.
    pub fn same(self, other: Path) -> bool
        ensures { result ≡ same_path self other }
    {
        self == other
    }
}

// Keeps the path of a reply address: its bytes at the end of twelve, and how many of them count.
pub(crate) fn keep(address: &[u8]) -> Path
    requires { length address.now ≤ 12 }
    ensures { result ≡ kept address.now }
{
    let n = address.len();
    let mut bytes = [0; 12];
    put(address, &mut bytes, 12 - n);
    let count = path_count(address);
    Path { bytes, count }
}

// The length of the path: leading zeros do not count, but the last byte always does.
fn path_count(address: &[u8]) -> usize
    ensures { result ≡ length (path_of address.now) }
{
    match leading_zeros(address) {
        Some(zeros) => address.len() - zeros,
        None => address.len().min(1),
    }
}

// How many zeros stand before the first byte that is none.
fn leading_zeros(address: &[u8]) -> Option<usize>
    ensures { result ≡ position (λ b. not (b == 0)) address.now }
{
    address.iter().position(|&byte| byte != 0)
}
