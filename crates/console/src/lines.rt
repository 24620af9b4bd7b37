// An input that is read in parts, and its lines.
ghost use Rattle.std.specs.Prelude.{◌≡◌, ◌≤◌, IfSome, is_some, not, eqb, suc, length, take, drop};
ghost use Rattle.script.specs.Fields.{up_to, line_end};
ghost use Rattle.console.specs.Input.{none_read, unfinished as Input·unfinished, moved, come as Input·come};

// A buffer of 64 KiB, of which the bytes up to `have` are read and those up to `whole` are whole lines. `last` says that no more come. All is public, since
// `read_on!` reads into the space; whatever stands there, each function answers.
#[derive(Drop)]
pub struct Input {
    pub space: [u8; 65536],
    pub whole: usize,
    pub have: usize,
    pub last: bool,
}

impl Input {
    // Before anything is read.
    pub fn new() -> Input
        ensures { result ≡ none_read }
    {
        Input {
            space: [0; 65536],
            whole: 0,
            have: 0,
            last: false,
        }
    }

    // Lets the whole lines go, and answers how many bytes are left, at the buffer's start: behind them is room for more.
    pub fn make_room(&mut self) -> usize
        ensures answers { result ≡ length (Input·unfinished self.old) }
        ensures inside { result ≤ 65536 }
        ensures leaves { self.new ≡ moved self.old }
    {
        let left = self.unfinished();
        let _ = octets::move_to_start(&mut self.space, self.whole, left);
        self.whole = 0;
        self.have = left;
        left
    }

    // So many bytes more came behind what was read. Where they do not fill the buffer, the input has ended.
    pub fn come(&mut self, n: usize)
        ensures { self.new ≡ Input·come n self.old }
    {
        let have = self.have.saturating_add(n).min(self.space.len());
        self.last = have < self.space.len();
        self.whole = script::runnable(&self.space[..have], self.last);
        self.have = have;
    }

    // The whole lines.
    pub fn lines(&self) -> Lines
        ensures { result.left.now ≡ take self.now.whole self.now.space }
    {
        Lines {
            left: self.space.get(..self.whole).unwrap_or(&self.space),
        }
    }

    // How many bytes are read behind the whole lines.
    fn unfinished(&self) -> usize
        ensures { result ≡ length (Input·unfinished self.now) }
    {
        if self.whole <= self.have && self.have <= self.space.len() {
            self.have - self.whole
        } else {
            0
        }
    }
}

// Lines, one after the other: what is left of them.
#[derive(Clone, Copy)]
pub struct Lines<'a> {
    pub left: &'a [u8],
}

impl<'a> Lines<'a> {
    // Takes the next line, without its end, which the last may lack; none where nothing is left.
    pub fn next(&mut self) -> Option<&'a [u8]>
        ensures there { is_some result ≡ not (eqb (length self.old.left.now) 0) }
        ensures answers { IfSome result (λ line. line.now ≡ up_to line_end self.old.left.now) }
        ensures alone { IfSome result (λ line. up_to line_end line.now ≡ line.now) }
        ensures leaves { self.new.left.now ≡ drop (suc (length (up_to line_end self.old.left.now))) self.old.left.now }
    {
        let s = self.left;
        if s.is_empty() {
            return None;
        }
        let end = script::line_size(s);
        if end < s.len() {
            self.left = &s[end + 1..];
        } else {
            self.left = &[];
        }
        Some(&s[..end])
    }
}

// Reads standard input on, until the buffer is full or the input ends. A line that does not fit with its end is told: then no line is whole.
#[macro_export]
macro_rules! read_on {
    ($input:expr) => {{
        let have = $input.make_room();
        let n = io::read_full(0, &mut $input.space[have..]);
        $input.come(n);
        if !$input.last && $input.whole == 0 {
            $crate::say!("a line is longer than 65535 bytes\n");
        }
    }};
}
