// Lines, and the fields of a line.
ghost use Rattle.std.specs.Prelude.{◌≡◌, ◌≤◌, ◌==◌, length, position, reverse};
ghost use Rattle.script.specs.Fields.{up_to, line_end, field_of, rest_of, runnable as Fields·runnable};

// The size of the first line, without its end.
pub fn line_size(s: &[u8]) -> usize
    ensures answers { result ≡ length (up_to line_end s.now) }
    ensures inside { result ≤ length s.now }
{
    size_before(s, b'\n')
}

// How many bytes of a block can be run: those of its whole lines, and where it is the last block all.
pub fn runnable(s: &[u8], last: bool) -> usize
    ensures answers { result ≡ Fields·runnable last s.now }
    ensures inside { result ≤ length s.now }
{
    if last {
        return s.len();
    }
    s.len() - place_from_back(s, b'\n').unwrap_or(s.len())
}

// The first field, without its bar.
pub fn field(s: &[u8]) -> &[u8]
    ensures { result.now ≡ field_of s.now }
{
    &s[..size_before(s, b'|')]
}

// What stands behind the bar of the first field.
pub fn rest(s: &[u8]) -> &[u8]
    ensures { result.now ≡ rest_of s.now }
{
    match place(s, b'|') {
        Some(bar) => &s[bar + 1..],
        None => &[],
    }
}

// The size of what stands before the first `stop`: all of it where there is none.
fn size_before(s: &[u8], stop: u8) -> usize
    ensures answers { result ≡ length (up_to stop s.now) }
    ensures inside { result ≤ length s.now }
{
    place(s, stop).unwrap_or(s.len())
}

// The place of the first `stop`.
fn place(s: &[u8], stop: u8) -> Option<usize>
    ensures { result ≡ position (λ b. b == stop) s.now }
{
    s.iter().position(|b| *b == stop)
}

// The same from the back: how many bytes stand behind the last.
fn place_from_back(s: &[u8], stop: u8) -> Option<usize>
    ensures { result ≡ position (λ b. b == stop) (reverse s.now) }
{
    s.iter().rev().position(|b| *b == stop)
}
