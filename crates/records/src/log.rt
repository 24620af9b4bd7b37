// A log that is run in parts, and printed in parts (document 01, 'Bench program').
ghost use Rattle.std.specs.Prelude.{◌≡◌, ◌+◌, ◌≤◌, length, take, nat_le};
ghost use Rattle.octets.specs.Places.{placed};
ghost use Rattle.records.specs.Record.{size_of};
ghost use Rattle.records.specs.Text.{heading};
ghost use Rattle.records.specs.Log.{last_line, outcome_of};
ghost use Rattle.records.specs.Run.{next_for as Run·next_for, next_of as Run·next_of, held_at, longest_line, run_of, answer_of};
ghost use Rattle.records.specs.Between.{HasLine, Put, Says, Fits, SameLent, held_in};
ghost use Rattle.records.specs.declared.bench.Stage.TheVariants.{Running, Over};
ghost use Rattle.records.specs.declared.log.Next.TheVariants.{Line};

use crate::bench::{Bench, Stage};
use crate::record::{Item, NoRecord, read_record};
use crate::text::Page;
use unit::Answer;

// What a call answers: the bench after it, how many bytes of the log it used, and how many of the buffer it wrote.
#[derive(Clone, Copy)]
pub struct Ran {
    pub bench: Bench,
    pub used: usize,
    pub written: usize,
}

// What is printed next: the heading, the line of an item, or the last line.
#[derive(Clone, Copy)]
enum Next {
    Heading,
    Line(Item),
    Last,
}

// What goes from record to record: the bench, and the memory and the reply buffer that its unit is lent.
#[derive(Drop)]
struct Held<'a> {
    bench: Bench,
    memory: &'a mut [u8],
    reply: &'a mut [u8],
}

impl Held<'_> {
    // The reply that was answered, in the buffer that was lent for it.
    fn reply_of(&self, answer: Answer) -> &[u8]
        requires { answer.length ≤ length self.now.reply.now }
        ensures { result.now ≡ take answer.length self.now.reply.now }
    {
        &self.reply[..answer.length]
    }
}

// Runs the records that are whole in this part of the log, as far as `out` has room for the longest line. `last` says that the log ends
// with this part. What was not used comes first in the next part. A call that writes nothing had no room for the longest line (67 bytes, and two
// for each of the reply buffer), had printed all before, or wants more of the log.
pub fn run(
    bench: Bench,
    log: &[u8],
    last: bool,
    memory: &mut [u8],
    reply: &mut [u8],
    out: &mut [u8],
) -> Ran
    ensures answers { result ≡ answer_of (run_of bench log.now last memory.old reply.old (length out.old)) }
    ensures within { (result.used ≤ length log.now) × (result.written ≤ length out.old) }
    ensures stores { memory.new ≡ (run_of bench log.now last memory.old reply.old (length out.old)).held.memory }
    ensures replies { reply.new ≡ (run_of bench log.now last memory.old reply.old (length out.old)).held.reply }
    ensures prints { out.new ≡ placed 0 (run_of bench log.now last memory.old reply.old (length out.old)).text out.old }
{
    let mut held = Held {
        bench,
        memory,
        reply,
    };
    let mut page = Page { out, at: 0 };
    let mut used = 0;
    // Kept: `while`. Whether there is a turn more depends on what the last one left of page and log, which no iterator could be lent beside it.
    while has_room(page.room(), held.reply.len()) {
        let rest = &log[used..];
        let Some(next) = next_of(held.bench.stage, rest, last) else {
            break;
        };
        used += say(next, rest, &mut held, &mut page);
    }
    Ran {
        bench: held.bench,
        used,
        written: page.at,
    }
}

// Whether the longest line fits into `room` bytes. No product here can wrap.
fn has_room(room: usize, reply: usize) -> bool
    ensures { result ≡ nat_le (longest_line reply) room }
{
    room >= 67 && reply <= (room - 67) / 2
}

fn next_of(stage: Stage, log: &[u8], last: bool) -> Option<Next>
    ensures { result ≡ Run·next_of stage log.now last }
{
    match stage {
        Stage::Fresh => Some(Next::Heading),
        Stage::Running => next_for(read_record(log), last),
        Stage::Over => None,
    }
}

fn next_for(read: Result<Item, NoRecord>, last: bool) -> Option<Next>
    ensures { result ≡ Run·next_for read last }
{
    match read {
        Ok(item) => Some(Next::Line(item)),
        Err(NoRecord::Cut) if !last => None,
        Err(_) => Some(Next::Last),
    }
}

// Prints what is next, and answers how many bytes of the log it used.
fn say(next: Next, log: &[u8], held: &mut Held, page: &mut Page) -> usize
    requires { HasLine held.old page.old × Fits next log.now }
    ensures { Says next log.now held.old held.new page.old page.new result }
{
    match next {
        Next::Heading => {
            page.put(b"item fate status reply\n");
            held.bench.stage = Stage::Running;
            0
        }
        Next::Line(item) => say_item(item, log, held, page),
        Next::Last => {
            say_last(held.bench, log, page);
            held.bench.stage = Stage::Over;
            0
        }
    }
}

// The last line: the number of records, or, where bytes are left, their offset.
fn say_last(bench: Bench, log: &[u8], page: &mut Page)
    requires { page.old.at + 67 ≤ length page.old.out.now }
    ensures { Put (last_line log.now bench) page.old page.new }
{
    if log.is_empty() {
        return page.put_word(b"end ", bench.items);
    }
    page.put_word(b"bad ", bench.offset);
}

// The line of an item, and the bench after it.
fn say_item(item: Item, log: &[u8], held: &mut Held, page: &mut Page) -> usize
    requires { HasLine held.old page.old × (size_of item ≤ length log.now) }
    ensures { Says (Line item) log.now held.old held.new page.old page.new result }
{
    let bench = held.bench;
    let answer = call(item, log, held);
    let size = item.size();
    let items = bench.items.wrapping_add(1);
    let offset = bench.offset.wrapping_add(size as u64);
    page.put_line(items, answer.fate, held.reply_of(answer));
    held.bench = Bench {
        unit: answer.unit,
        items,
        offset,
        ..bench
    };
    size
}

// The call that an item stands for. The body of a packet stands behind seven bytes.
fn call(item: Item, log: &[u8], held: &mut Held) -> Answer
    requires { size_of item ≤ length log.now }
    ensures same_lent { SameLent held.old held.new }
    ensures calls { record { answer = result; memory = held.new.memory.now; reply = held.new.reply.now } ≡ outcome_of item log.now (held_in held.old) }
{
    let unit = held.bench.unit;
    match item {
        Item::Packet(end, link, size) => {
            let behind = 7 + size as usize;
            unit::take_packet(unit, &log[7..behind], end, link, held.memory, held.reply)
        }
        Item::TimeCode(byte) => unit::take_time_code(unit, byte),
        Item::Ticks(count) => unit::take_ticks(unit, count),
    }
}
