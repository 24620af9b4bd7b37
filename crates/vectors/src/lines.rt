// The vectors of the file `stdin`, a line each. Its first byte tells what is done with the fields behind it, which bars divide;
// the first field is the name that is printed. Numbers and bytes are in hexadecimal, lower case; a field has at most 64 bytes.
//
//   # text                                     a heading
//   c name|bytes                               CRC of bytes, the last of them their CRC
//   l name|running|count                       CRC that goes on over the first bytes, at most 4,096, of 0 1 2 .. 250 0 1 2 ..
//   i name|byte                                what an instruction byte says
//   b name|packet                              a packet as it is to be read
//   p name|packet                              a packet is read
//   a name|command                             the path that a command is read to
//   s name|command|command                     whether the paths of two commands are one
//   w name|command|status|room|data            its reply is written, into a buffer of `room` bytes
//   m name|command|status|room|byte|count      the same with one byte of data, `count` times
//   r name|command|status|room|count           the same around data that are in their place: `count` bytes ee
//   t name|packet, e name|packet               a time packet, ended by EOP or by EEP
//   k name|from|count|at                       a part of four bytes is copied into eight
//   f name|at|count                            places of eight bytes are filled
//   n name|at|width|number, v name|at|width    a number is written into eight bytes, or read out of them
use crate::{annex, commands, edges, instructions, times};
use console::{Fields, bytes, say};
use packets::{Data, End};
use script::{byte, number};

// Runs lines.
// Kept: by place. By `Lines::next`, which `trials` takes them by, lines with nothing in them took twice as long.
pub(crate) fn each(s: &[u8]) {
    let mut at = 0;
    while at < s.len() {
        let size = script::line_size(&s[at..]);
        run(&s[at..at + size]);
        at = at + size + 1;
    }
}

// Runs a line, without its end.
fn run(line: &[u8]) {
    let [verb, _, left @ ..] = line else {
        return;
    };
    vector(*verb, Fields { left });
}

fn vector(verb: u8, mut line: Fields) {
    match verb {
        b'#' => say!(line.left; "\n"),
        b'c' => annex::pattern(line.next(), bytes(line.left, &mut [0; 64])),
        b'l' => edges::row(line.next(), byte(line.next()), size(line.left)),
        b'i' => instructions::show(line.next(), byte(line.left)),
        b'b' => commands::bare(line.next(), bytes(line.left, &mut [0; 64])),
        b'p' => commands::read(line.next(), bytes(line.left, &mut [0; 64])),
        b'a' => commands::address(line.next(), bytes(line.left, &mut [0; 64])),
        b's' => same(line),
        b'w' => reply(line),
        b'm' => repeated(line),
        b'r' => around(line),
        b't' => times::read(line.next(), bytes(line.left, &mut [0; 64]), End::Eop),
        b'e' => times::read(line.next(), bytes(line.left, &mut [0; 64]), End::Eep),
        b'k' => edges::copy(
            line.next(),
            size(line.next()),
            size(line.next()),
            size(line.left),
        ),
        b'f' => edges::fill(line.next(), size(line.next()), size(line.left)),
        b'n' => edges::write(
            line.next(),
            size(line.next()),
            size(line.next()),
            number(line.left),
        ),
        b'v' => edges::read(line.next(), size(line.next()), size(line.left)),
        _ => say!("no such line\n"),
    }
}

fn same(mut line: Fields) {
    commands::same(
        line.next(),
        bytes(line.next(), &mut [0; 64]),
        bytes(line.left, &mut [0; 64]),
    );
}

fn reply(mut line: Fields) {
    commands::reply(
        line.next(),
        bytes(line.next(), &mut [0; 64]),
        byte(line.next()),
        size(line.next()),
        Data::Bytes(bytes(line.left, &mut [0; 64])),
    );
}

fn repeated(mut line: Fields) {
    commands::reply(
        line.next(),
        bytes(line.next(), &mut [0; 64]),
        byte(line.next()),
        size(line.next()),
        Data::Repeated(byte(line.next()), count(line.left)),
    );
}

fn around(mut line: Fields) {
    commands::reply(
        line.next(),
        bytes(line.next(), &mut [0; 64]),
        byte(line.next()),
        size(line.next()),
        Data::InPlace(count(line.left)),
    );
}

fn size(s: &[u8]) -> usize {
    number(s) as usize
}

// As far as 32 bits hold it.
fn count(s: &[u8]) -> u32 {
    (number(s) % 0x1_0000_0000) as u32
}
