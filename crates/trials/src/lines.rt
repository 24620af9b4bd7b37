// The trials of the file `stdin`, a line each. Its first byte tells what is done with the fields behind it, which bars divide;
// the first field is the name that is printed. Numbers and bytes are in hexadecimal, lower case; a packet has at most 1,100 bytes.
//
//   # text                                     a heading
//   g name|link|room|packet, h ..              the unit takes a packet, ended by EOP or by EEP, with a reply buffer of `room` bytes
//   q name|byte, z name|ticks                  it takes a Time-Code, or ticks
//   j name|at|count                            bytes of its memory
//   y name                                     its owner, clock and counters
//
// A unit and its memory go from line to line. The lines that set it up have no name and print nothing:
//
//   u size                                     a fresh unit: the bench's, but with that many bytes of memory and a window over all of them
//   o what|number                              one thing of the unit is set: 0 memory's length, 1 time number, 2 link count, 3 count of
//                                              windows, 4 last Time-Code, 5 ET, 6 a waiting value (epoch 9f), 7 count of the owner's
//                                              path, 8 its link, 9 every counter; 10 to 19 the fields that are held, in order
//   x row|start|end|rights                     a window is set; rights are 1 to read, 2 to write, 3 both
use crate::units::Trial;
use console::{Fields, say};
use packets::End;

impl Trial {
    // Runs a line, without its end.
    pub(crate) fn run(&mut self, line: &[u8]) {
        let [verb, _, left @ ..] = line else {
            return;
        };
        let fields = Fields { left };
        match *verb {
            b'u' => self.start(fields),
            b'o' => self.set(fields),
            b'x' => self.window(fields),
            b'g' => self.packet(fields, End::Eop),
            b'h' => self.packet(fields, End::Eep),
            b'q' => self.time_code(fields),
            b'z' => self.ticks(fields),
            b'j' => self.memory(fields),
            b'y' => self.holds(left),
            b'#' => say!(left; "\n"),
            _ => say!("no such line\n"),
        }
    }
}
